//! The frames of a course, over a host with its limits.

ghost use Rattle.std.specs.Prelude.{◌≡◌, ◌<◌, ◌&&◌, true, Some, IfSome};
ghost use Rattle.pm_table.specs.Address.{IsAddress};
ghost use Rattle.pm_host.specs.Sound.{AcceptsWrittenWord};
ghost use Rattle.pm_host.specs.Summary.{stage_message};
ghost use Rattle.pm_host.specs.Told.{entry_told};
ghost use Rattle.pm_host.specs.Transcript.{Finished, Got};
ghost use Rattle.pm_rail.specs.Course.{is_order};
ghost use Rattle.pm_course.specs.Frames.{HandsOut, Hears, IsSendingOf, IsSent};
ghost use Rattle.pm_course.specs.Hosted.{GoesOnAt, HandsOutAt};

use crate::course_end::CourseNext;
use crate::frame_course::FrameCourse;
use crate::hosted::Hosted;
use pm_frame::{Frame, write_part};
use pm_host::{Job, Stage, Told, Untold};
use pm_limits::Guard;

/// A frame that is to be sent now.
#[derive(Debug, Drop)]
pub enum Sending {
    /// A write: the whole packet, which a stop ends. `write_ended` then says whether it was acknowledged.
    Write(Frame),
    /// The request of a read, which a repeated start ends. `read_ended` then says what came back.
    Request {
        /// The bytes before the repeated start, address first.
        frame: Frame,
        /// How many bytes a whole answer has, with the read address that the host sends.
        bytes: usize,
    },
}

impl Sending {
    // What a stage sends to a device.
    fn of(address: u8, stage: Stage) -> Sending
        requires address { IsAddress address }
        requires word { AcceptsWrittenWord stage }
        ensures { IsSendingOf address (stage_message stage) result }
    {
        let message = stage.message();
        let frame = write_part(address, &message);
        if message.is_read() {
            Sending::Request {
                frame,
                bytes: message.whole_answer(),
            }
        } else {
            Sending::Write(frame)
        }
    }
}

/// The frame that a guard's host is sending, whoever began its open job; `None` if none is open.
pub fn sent_by(guard: &Guard) -> Option<Sending>
    ensures { IsSent guard.now result }
{
    let host = guard.host();
    match host.stage() {
        Some(stage) => Some(Sending::of(host.state().address, stage)),
        None => None,
    }
}

impl FrameCourse {
    /// The frame of the course's open job, which stays the same until `write_ended` or `read_ended`; if none is open, what is next is
    /// begun. `None` once the course has ended, as `end` says: also if the host or its limits refuse the job, which changes nothing else.
    pub fn frame<H: Hosted>(&mut self, host: &mut H) -> Option<Sending>
        requires there { H.is_there host.old }
        requires output { self.old.course.survey.output < (H.guarded host.old).host.setup.outputs }
        ensures there { H.is_there host.new }
        ensures hands { HandsOut (H.guarded host.old) self.old result (H.guarded host.new) self.new }
        ensures written { H.is_written host.old → H.is_written host.new }
    {
        let stage = host.stage();
        match self.hand_out(host, stage) {
            Some(at) => Some(Sending::of(host.state().address, at)),
            None => None,
        }
    }

    /// As `frame`, if the host's open job stands at this stage: the stage whose frame is to be sent.
    pub fn hand_out<H: Hosted>(&mut self, host: &mut H, stage: Option<Stage>) -> Option<Stage>
        requires there { H.is_there host.old }
        requires stage { stage ≡ (H.guarded host.old).host.stage }
        requires output { self.old.course.survey.output < (H.guarded host.old).host.setup.outputs }
        ensures there { H.is_there host.new }
        ensures hands { HandsOutAt (H.guarded host.old) self.old result (H.guarded host.new) self.new }
        ensures open { IfSome result (λ at. (H.guarded host.new).host.stage ≡ Some at) }
        ensures written { H.is_written host.old → H.is_written host.new }
    {
        self.go_on(host, stage, false)
    }

    /// As `hand_out`; but if the course is to stop before an order, none begins: it waits, and nothing changes.
    pub fn go_on<H: Hosted>(
        &mut self,
        host: &mut H,
        stage: Option<Stage>,
        stops: bool,
    ) -> Option<Stage>
        requires there { H.is_there host.old }
        requires stage { stage ≡ (H.guarded host.old).host.stage }
        requires output { self.old.course.survey.output < (H.guarded host.old).host.setup.outputs }
        ensures there { H.is_there host.new }
        ensures goes { GoesOnAt stops (H.guarded host.old) self.old result (H.guarded host.new) self.new }
        ensures open { IfSome result (λ at. (H.guarded host.new).host.stage ≡ Some at) }
        ensures written { H.is_written host.old → H.is_written host.new }
    {
        if let Some(at) = stage {
            if self.is_job_of(at) {
                return stage;
            }
        }
        let mut asked = *self;
        match asked.next_at(host, stage) {
            CourseNext::Ended(_) => {
                *self = asked;
                None
            }
            CourseNext::Job(job) => {
                if waits(stops, job) {
                    return None;
                }
                match host.begin_at(stage, job) {
                    Ok(at) => {
                        *self = asked;
                        at
                    }
                    Err(fault) => {
                        self.refused(fault.number(), job);
                        None
                    }
                }
            }
        }
    }

    /// A write was sent, and acknowledged or not. S2 if nothing is being sent, S3 if a request is: then nothing changes.
    pub fn write_ended<H: Hosted>(&mut self, host: &mut H, acked: bool) -> Result<(), Untold>
        requires there { H.is_there host.old }
        ensures there { H.is_there host.new }
        ensures hears { Hears (H.guarded host.old) self.old (Finished acked) result (H.guarded host.new) self.new }
        ensures written { H.is_written host.old → H.is_written host.new }
    {
        self.told(host, Told::Finished { acked })
    }

    /// A request was sent, and these bytes came back, the read address first; none if there was no answer. S2 if nothing
    /// is being sent, S3 if a write is: then nothing changes.
    pub fn read_ended<H: Hosted>(&mut self, host: &mut H, bytes: &[u8]) -> Result<(), Untold>
        requires there { H.is_there host.old }
        ensures there { H.is_there host.new }
        ensures hears { Hears (H.guarded host.old) self.old (Got bytes.now) result (H.guarded host.new) self.new }
        ensures written { H.is_written host.old → H.is_written host.new }
    {
        self.told(host, Told::Got(bytes))
    }

    // What became of the frame that is being sent.
    fn told<H: Hosted>(&mut self, host: &mut H, told: Told<'_>) -> Result<(), Untold>
        requires there { H.is_there host.old }
        ensures there { H.is_there host.new }
        ensures hears { Hears (H.guarded host.old) self.old (entry_told told.entry) result (H.guarded host.new) self.new }
        ensures written { H.is_written host.old → H.is_written host.new }
    {
        let Some(stage) = host.stage() else {
            return Err(Untold::NothingSent);
        };
        if !stage.awaits(&told) {
            return Err(Untold::WrongKind);
        }
        self.hear_by(host, stage, told);
        Ok(())
    }
}

// Whether a course waits before a job: one that stops does before an order.
fn waits(stops: bool, job: Job) -> bool
    ensures { result ≡ (is_order job && stops) }
{
    matches!(job, Job::Order(..)) && stops
}
