//! What the two ends hear of an event that asks for no job.

ghost use Rattle.std.specs.Prelude.{◌≡◌, true};
ghost use Rattle.pm_device.specs.Effect as heard;
ghost use Rattle.pm_host.specs.Refusals.{may_come};
ghost use Rattle.pm_host.specs.Told.{entry_told};
ghost use Rattle.pm_host.specs.Transcript as told;
ghost use Rattle.pm_world.specs.declared.event.Event.TheVariants as event;
ghost use Rattle.pm_world.specs.State.{Acts, shared, tells, hears};

use crate::cause::Cause;
use crate::event::{Arrival, Back};
use crate::legal::{
    answer_in, back_bytes, hear_replied, heard_bytes, heard_ending, is_heard_whole,
    is_legal_hearing, is_legal_return,
};
use crate::world::World;
use pm_device::Ending;
use pm_host::{Step, Told, Turn};
use pm_table::Code;

impl World {
    // The converter hears the write that is being sent.
    pub(super) fn deliver(&mut self, arrival: &Arrival) -> Result<(), Cause>
        ensures acts { Acts self.old (event.Deliver arrival.now) result self.new }
        ensures config { self.new.device.config ≡ self.old.device.config }
    {
        let frame = match self.host.turn() {
            Turn::Idle => return Err(Cause::NothingSent),
            Turn::Request { .. } => return Err(Cause::WrongKind),
            Turn::Write(frame) => frame.as_slice(),
        };
        let bytes = heard_bytes(frame, arrival);
        let ending = heard_ending(Ending::Stop, arrival);
        if !is_legal_hearing(frame, bytes, ending) {
            return Err(Cause::NotBetrayed);
        }
        let _ = self.device.hear(bytes, ending);
        Ok(())
    }

    // The write that is being sent is over.
    pub(super) fn finish(&mut self, acked: bool) -> Result<(), Cause>
        ensures acts { Acts self.old (event.Finish acked) result self.new }
        ensures config { self.new.device.config ≡ self.old.device.config }
    {
        match self.host.turn() {
            Turn::Idle => return Err(Cause::NothingSent),
            Turn::Request { .. } => return Err(Cause::WrongKind),
            Turn::Write(_) => {}
        }
        self.tell(Told::Finished { acked });
        Ok(())
    }

    // The converter hears the request that is being sent, and the host is given what came back.
    pub(super) fn exchange(&mut self, arrival: &Arrival, back: &Back) -> Result<(), Cause>
        ensures acts { Acts self.old (event.Exchange arrival.now back.now) result self.new }
        ensures config { self.new.device.config ≡ self.old.device.config }
    {
        let (frame, needed) = match self.host.turn() {
            Turn::Idle => return Err(Cause::NothingSent),
            Turn::Write(_) => return Err(Cause::WrongKind),
            Turn::Request { frame, bytes } => (frame.as_slice(), bytes),
        };
        let bytes = heard_bytes(frame, arrival);
        let ending = heard_ending(Ending::Restart, arrival);
        if !is_legal_hearing(frame, bytes, ending) {
            return Err(Cause::NotBetrayed);
        }
        let reply = self.device.reply(bytes, ending);
        let answer = answer_in(&reply);
        let came = back_bytes(answer, back);
        let whole = is_heard_whole(frame, bytes, ending);
        if !is_legal_return(frame, needed, whole, answer, came) {
            return Err(Cause::NotBetrayed);
        }
        hear_replied(&mut self.device, &reply, bytes, ending);
        self.tell(Told::Got(came));
        Ok(())
    }

    // The host hears what came of its frame.
    fn tell(&mut self, told: Told<'_>)
        requires { may_come self.old.host (entry_told told) ≡ true }
        ensures after { self.new ≡ shared self.old (tells (entry_told told.entry)) }
        ensures config { self.new.device.config ≡ self.old.device.config }
    {
        let step = self.host.told(told);
        self.end = match step {
            Step::Next => None,
            Step::Ended(end) => Some(end),
        };
    }

    // The converter starts again.
    pub(super) fn restart_device(&mut self)
        ensures after { self.new ≡ shared self.old (hears heard.Restarted) }
        ensures config { self.new.device.config ≡ self.old.device.config }
    {
        self.device.restart();
    }

    // The host starts again.
    pub(super) fn restart_host(&mut self)
        ensures after { self.new ≡ shared self.old (tells told.Restarted) }
        ensures config { self.new.device.config ≡ self.old.device.config }
    {
        self.host.restart();
        self.end = None;
    }

    // A reading changes.
    pub(super) fn read(&mut self, output: u8, code: Code, word: u16)
        ensures after { self.new ≡ shared self.old (hears (heard.Reading output code.0 word)) }
        ensures config { self.new.device.config ≡ self.old.device.config }
    {
        let _ = self.device.set_reading(output, code, word);
    }
}
