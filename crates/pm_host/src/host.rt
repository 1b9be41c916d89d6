//! The host: jobs begin, frames are shown, and it hears what became of them.

ghost use Rattle.std.specs.Prelude.{◌≡◌, ◌<◌, true, None, IfOk, MatchOption, IsNone, IsSomeAnd};
ghost use Rattle.std.specs.Option.{option_map};
ghost use Rattle.std.specs.Result.{result_err};
ghost use Rattle.pm_num.specs.AnyFormat.{shape_of};
ghost use Rattle.pm_table.specs.Address.{IsAddress};
ghost use Rattle.pm_table.specs.Cell.{IsCell};
ghost use Rattle.pm_host.specs.Ended.{StepTells};
ghost use Rattle.pm_host.specs.Frames.{frames_left};
ghost use Rattle.pm_host.specs.Image.{held, listing};
ghost use Rattle.pm_host.specs.Jobs.{Begins};
ghost use Rattle.pm_host.specs.Messages.{IsFrameOf};
ghost use Rattle.pm_host.specs.Refusals.{IsSetup, setup_fault, may_come, sends_read};
ghost use Rattle.pm_host.specs.Sound.{IsSound};
ghost use Rattle.pm_host.specs.Summary.{start, host_next, step_of, possible_at, standing_at, format_at, sending_in};
ghost use Rattle.pm_host.specs.Told.{entry_told, OnEnded};
ghost use Rattle.pm_host.specs.Transcript.{Setup, Restarted};
ghost use Rattle.pm_host.specs.Turn.{Shows};

use crate::command::Command;
use crate::fault::HostFault;
use crate::job::{Job, JobEnd};
use crate::knowledge::{Possible, Standing};
use crate::progress::Progress;
use crate::sending::Sending;
use crate::stage::Stage;
use crate::state::State;
use pm_frame::Frame;
use pm_num::AnyFormat;
use pm_table::{Cell, cells_have_places};
use std::marker::Model;

/// What a call of `told` brings.
#[derive(Clone, Copy, Debug, PartialEq, Eq)]
pub enum Step {
    /// The job is open: `turn` shows its next frame.
    Next,
    /// The job has ended: nothing is being sent.
    Ended(JobEnd),
}

/// What is to be sent now.
#[derive(Clone, Copy, Debug, PartialEq, Eq)]
pub enum Turn<'a> {
    /// No job is open: nothing.
    Idle,
    /// A write: the whole packet, which a stop ends. `told` then takes `Told::Finished`.
    Write(&'a Frame),
    /// The request of a read, which a repeated start ends. `told` then takes `Told::Got` with what came
    /// back.
    Request {
        /// The bytes before the repeated start, address first.
        frame: &'a Frame,
        /// How many bytes a whole answer has, 3 to 8, with the read address that the host sends, which
        /// is the first of them: the device sends `bytes - 1`.
        bytes: usize,
    },
}

/// What became of the frame that was sent.
#[derive(Clone, Copy, Debug, PartialEq, Eq)]
pub enum Told<'a> {
    /// A write was sent. `acked` says whether every byte was acknowledged; the host never takes that
    /// for the cell's having the word.
    Finished { acked: bool },
    /// A request was sent, and these bytes came back: none if there was no answer.
    Got(&'a [u8]),
}

/// The host: it says which frame to send next, and hears what came of it. It believes a setting only
/// after a good answer, one that has the layout of an answer to its own request, which the packet
/// error code covers too.
///
/// At most one job is open. `begin` begins one, and is refused (H3) until it has ended; `order`, `check` and
/// the like are `begin` for one kind of job. `turn` shows until then what to send now. One call of `told`
/// follows each frame that was sent, of the kind that `turn` showed: ask `turn` before each `told`. A job has
/// ended once `told` answers `Step::Ended`, after at most twice `passes` frames. `restart`, `standing`,
/// `possible` and `restart_seen` may come at any time. A refused call changes nothing. No call takes memory.
#[derive(Debug, Drop)]
pub struct Host {
    state: State,
    // What the open job is sending; `None` if no job is open.
    sending: Option<Sending>,
}

impl Model for Host {
    ghost use Rattle.pm_host.specs.Summary.{Summary};

    ghost Value = { Summary };

    ghost use Rattle.std.specs.Prelude.{◌≡◌, IfSome};
    ghost use Rattle.std.specs.Option.{option_map};
    ghost use Rattle.pm_host.specs.Image.{held};
    ghost use Rattle.pm_host.specs.Messages.{IsFrameOf};
    ghost use Rattle.pm_host.specs.Sound.{IsSound};
    ghost use Rattle.pm_host.specs.Summary.{stage_message};

    ghost view = { λ h. held (option_map (λ s. s.stage) h.sending) h.state };

    ghost invariant = { λ h. IsSound (held (option_map (λ s. s.stage) h.sending) h.state)
        × IfSome h.sending (λ s. s.message ≡ stage_message s.stage)
        × IfSome h.sending (λ s. IsFrameOf h.state.address s.message s.frame.items) };
}

impl Host {
    /// A host for the device at this address, 08h to 77h, which has this many outputs, 1 to 8; a job
    /// has at most this many passes or tries, 1 to 15. Nothing is known and no job is open. H1 if the
    /// outputs aren't 1 to 8, otherwise H2 if the passes aren't 1 to 15.
    pub fn new(addr: u8, outputs: u8, passes: u8) -> Result<Host, HostFault>
        requires { IsAddress addr }
        ensures made { let setup : Setup = record { addr = addr; outputs = outputs; passes = passes } in
            IfOk result (λ host. host ≡ start setup) }
        ensures setup { IfOk result (λ host. IsSetup host.setup) }
        ensures fault { result_err result ≡ setup_fault outputs passes }
    {
        let mut state = State::blank();
        state.start(addr, outputs, passes)?;
        Ok(Host {
            state,
            sending: None,
        })
    }

    /// Begins a job, whose first frame `turn` then shows.
    ///
    /// It is refused with the first of these that applies:
    ///
    /// - H3: a job is open.
    /// - H4: its output isn't there.
    /// - An order: H5 if the cell doesn't accept the word, H6 if the cell may hold any of 16 words and
    ///   this is another.
    /// - An order in microvolts: H5 if the cell isn't a voltage, H7 if the format isn't known, N5 if the
    ///   number is beyond 10^15 in size, N3 or N4 if it lies outside the format's range, and H6 as for
    ///   an order.
    ///
    /// Once it is accepted it is the open job (`begun`), and the word of an order is one that its cell may hold, of
    /// which none is confirmed (`uncertain`).
    pub fn begin(&mut self, job: Job) -> Result<(), HostFault>
        ensures { Begins self.old job result self.new }
    {
        let stage = self.stage();
        let stage = self.state.begin(stage, job)?;
        self.sending = Some(Sending::of(stage, self.state.address));
        Ok(())
    }

    /// Begins an order of a word, as [`Job::Order`] says.
    pub fn order(&mut self, cell: Cell, word: u16) -> Result<(), HostFault>
        ensures { Begins self.old (Job.Order cell word) result self.new }
    {
        self.begin(Job::Order(cell, word))
    }

    /// Begins an order of a number of microvolts, as [`Job::OrderMicro`] says.
    pub fn order_micro(&mut self, cell: Cell, x: i64) -> Result<(), HostFault>
        ensures { Begins self.old (Job.OrderMicro cell x) result self.new }
    {
        self.begin(Job::OrderMicro(cell, x))
    }

    /// Begins a check, as [`Job::Check`] says.
    pub fn check(&mut self, cell: Cell) -> Result<(), HostFault>
        ensures { Begins self.old (Job.Check cell) result self.new }
    {
        self.begin(Job::Check(cell))
    }

    /// Begins a learn, as [`Job::Learn`] says.
    pub fn learn(&mut self, output: u8) -> Result<(), HostFault>
        ensures { Begins self.old (Job.Learn output) result self.new }
    {
        self.begin(Job::Learn(output))
    }

    /// Begins to send a command, as [`Job::Send`] says.
    pub fn send(&mut self, command: Command) -> Result<(), HostFault>
        ensures { Begins self.old (Job.Send command) result self.new }
    {
        self.begin(Job::Send(command))
    }

    /// Begins a clear of an output's latched faults, as [`Command::ClearFaults`] says.
    pub fn clear(&mut self, output: u8) -> Result<(), HostFault>
        ensures { Begins self.old (Job.Send (Command.ClearFaults output)) result self.new }
    {
        self.send(Command::ClearFaults { output })
    }

    /// Begins a store of the outputs' settings, as [`Command::StoreUserAll`] says.
    pub fn store(&mut self) -> Result<(), HostFault>
        ensures { Begins self.old (Job.Send Command.StoreUserAll) result self.new }
    {
        self.send(Command::StoreUserAll)
    }

    /// Begins a restore of the outputs' settings, as [`Command::RestoreUserAll`] says.
    pub fn restore(&mut self) -> Result<(), HostFault>
        ensures { Begins self.old (Job.Send Command.RestoreUserAll) result self.new }
    {
        self.send(Command::RestoreUserAll)
    }

    /// What to do now: nothing, to send a write, or to send a request and read its answer. It stays the
    /// same until `told` or `restart` is called or, if no job is open, one begins.
    pub fn turn(&self) -> Turn<'_>
        ensures { Shows self.now result }
    {
        match &self.sending {
            None => Turn::Idle,
            Some(Sending { message, frame, .. }) => {
                if message.is_read() {
                    Turn::Request {
                        frame,
                        bytes: message.whole_answer(),
                    }
                } else {
                    Turn::Write(frame)
                }
            }
        }
    }

    /// The frame to put on the wire, address first: a whole packet for a write, the request before the
    /// repeated start for a read. `None` exactly if no job is open. It stays the same until `told`
    /// or `restart` is called or, if no job is open, one begins.
    pub fn sending(&self) -> Option<&Frame>
        ensures { MatchOption (sending_in self.now) (IsNone result)
            (λ message. IsSomeAnd result
            (λ frame. IsFrameOf self.now.setup.addr message frame.now.items)) }
    {
        match &self.sending {
            Some(sending) => Some(&sending.frame),
            None => None,
        }
    }

    /// Whether what `sending` shows is a request, whose answer `told` takes as `Got`, and not a write;
    /// false if nothing is being sent.
    pub fn sending_reads(&self) -> bool
        ensures { result ≡ sends_read self.now }
    {
        match &self.sending {
            Some(sending) => sending.message.is_read(),
            None => false,
        }
    }

    /// What became of the frame that `turn` showed: `Finished` for a write, `Got` for a request, with
    /// whatever came back. Ask `turn` first, or `sending` and `sending_reads`: it may be called only if a
    /// frame of that kind is being sent. `Step::Next` asks to send what `turn` shows now; `Step::Ended` says
    /// how the job ended, and that nothing is being sent. Each call leaves the job fewer frames to send, so
    /// that a loop of these two calls ends.
    ///
    /// What an end says (`says`): an order that is `Done` has its cell confirmed with its word, and only that word is
    /// possible. An order that `Differs` has its cell confirmed with the word that was read, which is another. An order
    /// that is `Unknown` has its word among the possible ones, and none confirmed. A check that is `Done` has its cell
    /// confirmed with the word that came, one that is `Unknown` changes nothing of what is known. A learn that has
    /// `Learned` has left a format, any other end keeps the formats. `Step::Next` keeps the job.
    pub fn told(&mut self, told: Told<'_>) -> Step
        requires { may_come self.old (entry_told told) ≡ true }
        ensures after { self.new ≡ host_next self.old (entry_told told.entry) }
        ensures step { result ≡ step_of self.old (entry_told told.entry) }
        ensures tells { StepTells self.old (entry_told told.entry) result self.new }
        ensures kept { self.new.setup ≡ self.old.setup }
        ensures left { frames_left self.new < frames_left self.old }
        ensures over { OnEnded result (frames_left self.new ≡ 0) }
    {
        // law: what is known of each cell has a place of its own
        cells_have_places();
        self.state.known.has_places();
        let Some(sending) = &self.sending else {
            // A report always speaks of a frame that is being sent.
            unreachable!()
        };
        let progress = self.state.told(sending.stage, told);
        self.sending = match progress {
            Progress::At(stage) => Some(Sending::of(stage, self.state.address)),
            Progress::Over(_) => None,
        };
        progress.step()
    }

    /// Drops the open job and all that is known of cells and formats, as after `new`.
    #[tactic(auto, unfolding(crate::specs::Summary::host_next))]
    pub fn restart(&mut self)
        ensures after { self.new ≡ host_next self.old Restarted }
        ensures kept { self.new.setup ≡ self.old.setup }
        ensures left { frames_left self.new ≡ 0 }
    {
        self.state.restart();
        self.sending = None;
    }

    /// What it holds beside its open job.
    pub fn state(&self) -> &State
        ensures state { held self.now.stage result.now ≡ self.now }
        ensures sound { IsSound self.now }
    {
        &self.state
    }

    /// The stage of the open job; `None` if none is open.
    pub fn stage(&self) -> Option<Stage>
        ensures { result ≡ self.now.stage }
    {
        match &self.sending {
            Some(sending) => Some(sending.stage),
            None => None,
        }
    }

    /// The address of its device.
    pub fn address(&self) -> u8
        ensures { result ≡ self.now.setup.addr }
    {
        self.state.address
    }

    /// How many outputs its device has, 1 to 8.
    pub fn outputs(&self) -> u8
        ensures { result ≡ self.now.setup.outputs }
    {
        self.state.outputs
    }

    /// How many passes or tries a job has at most, 1 to 15.
    pub fn passes(&self) -> u8
        ensures { result ≡ self.now.setup.passes }
    {
        self.state.passes
    }

    /// What is known of a cell's word: confirmed if a good answer for the cell came after every write
    /// of it and, if it is an output's, every restore that began to be sent. The cell's output is
    /// there.
    pub fn standing(&self, cell: Cell) -> Standing
        requires { IsCell self.now.setup.outputs cell }
        ensures { result ≡ standing_at self.now cell }
    {
        self.state.known.standing(cell).standing()
    }

    /// The words that a cell may hold: the word of its last good answer, and those that were put on the
    /// wire for it since. Any word if there was no good answer for it since the host started, saw a
    /// restart of the device or, if the cell is an output's, last began to send a restore. The cell's
    /// output is there.
    pub fn possible(&self, cell: Cell) -> Possible
        requires { IsCell self.now.setup.outputs cell }
        ensures { result ≡ possible_at self.now cell }
    {
        self.state.known.possible(cell).possible()
    }

    /// The words of `possible`, without a copy of them; `None` if the cell may hold any word. The cell's output is there.
    pub fn listed(&self, cell: Cell) -> Option<&[u16]>
        requires { IsCell self.now.setup.outputs cell }
        ensures { MatchOption result (possible_at self.now cell ≡ Possible.Any)
            (λ words. possible_at self.now cell ≡ listing words.now) }
    {
        self.state.known.possible(cell).listed()
    }

    /// The format of an output's voltages, which the last learn of it found; `None` if none did since
    /// the host started. The output is there.
    pub fn format(&self, output: u8) -> Option<AnyFormat>
        requires { output < self.now.setup.outputs }
        ensures { option_map shape_of result ≡ format_at self.now output }
    {
        self.state.format(output).format()
    }

    /// Whether a restart of the device was seen since the host started: a good answer came whose word
    /// its cell couldn't hold. Cells that were confirmed before stay so, but any word is possible for
    /// each but the one that was read.
    pub fn restart_seen(&self) -> bool
        ensures { result ≡ self.now.known.seen }
    {
        self.state.known.restart_seen()
    }
}
