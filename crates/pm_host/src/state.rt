//! What a host holds beside its open job, in a caller's memory.

mod jobs;
mod microvolts;
mod turns;

ghost use Rattle.std.specs.Prelude.{◌≡◌, ◌<◌, true, None, Some, OnOk, OnErr};
ghost use Rattle.std.specs.Result.{result_err};
ghost use Rattle.pm_table.specs.Address.{IsAddress};
ghost use Rattle.pm_host.specs.Frames.{frames_left};
ghost use Rattle.pm_host.specs.Image.{held};
ghost use Rattle.pm_host.specs.Memory.{IsState};
ghost use Rattle.pm_host.specs.Progress.{stage_of_progress, step_of_progress};
ghost use Rattle.pm_host.specs.Refusals.{setup_fault, IsSetup, may_come};
ghost use Rattle.pm_host.specs.Sound.{IsSound};
ghost use Rattle.pm_host.specs.Summary.{start, host_next, step_of};
ghost use Rattle.pm_host.specs.Told.{entry_told};
ghost use Rattle.pm_host.specs.Transcript.{Setup};

use crate::answers::good_word;
use crate::fault::HostFault;
use crate::format_image::FormatImage;
use crate::host::Told;
use crate::knowledge::Knowledge;
use crate::messages::cell_read;
use crate::progress::Progress;
use crate::stage::Stage;
use crate::standing_image::StandingImage;
use crate::words_image::WordsImage;
pub use microvolts::nearest_word;
use pm_table::Cell;

/// How many outputs a device has at most.
pub(crate) const OUTPUTS: usize = 8;

/// What a host holds beside its open job, in the caller's memory, and its calls. They are those of `Host`,
/// which says what each does. The stage of the open job is given to each call that asks for it, and is
/// answered by each call that changes it.
#[repr(C)]
#[derive(Debug, Drop)]
pub struct State {
    /// The address of the device, 08h to 77h.
    pub address: u8,
    /// How many outputs it has, 1 to 8.
    pub outputs: u8,
    /// How many passes or tries a job has at most, 1 to 15.
    pub passes: u8,
    /// No meaning.
    pub unused: u8,
    /// The format of each output's voltages.
    pub formats: [FormatImage; OUTPUTS],
    /// What is known of the cells.
    pub known: Knowledge,
}

impl State {
    /// Zeros: the state of no host, for `start`.
    pub(crate) fn blank() -> State {
        State {
            address: 0,
            outputs: 0,
            passes: 0,
            unused: 0,
            formats: [FormatImage::NONE; OUTPUTS],
            known: Knowledge {
                possible: [WordsImage::ANY; Cell::PLACES],
                standing: [StandingImage::UNKNOWN; Cell::PLACES],
                seen: 0,
            },
        }
    }

    /// Makes it the state of a host as `Host::new` does, whatever it was. No job is open.
    #[tactic(auto, unfolding(crate::specs::Summary::host_next))]
    pub fn start(&mut self, addr: u8, outputs: u8, passes: u8) -> Result<(), HostFault>
        requires { IsAddress addr }
        ensures made { let setup : Setup = record { addr = addr; outputs = outputs; passes = passes } in
            OnOk result (held None self.new ≡ start setup) }
        ensures sound { OnOk result (IsSound (held None self.new)) }
        ensures err { OnErr result (self.new ≡ self.old) }
        ensures fault { result_err result ≡ setup_fault outputs passes }
        ensures written { OnOk result (IsState self.new) }
    {
        if !(1..=8).contains(&outputs) {
            return Err(HostFault::OutputCount);
        }
        if !(1..=15).contains(&passes) {
            return Err(HostFault::Passes);
        }
        self.address = addr;
        self.outputs = outputs;
        self.passes = passes;
        self.restart();
        Ok(())
    }

    /// What became of the frame that the stage of the open job sent, as `Host::told`.
    #[tactic(auto, unfolding(crate::specs::Summary::host_next, crate::specs::Summary::step_of))]
    pub fn told(&mut self, stage: Stage, told: Told<'_>) -> Progress
        requires sound { IsSound (held (Some stage) self.old) }
        requires may_come { may_come (held (Some stage) self.old) (entry_told told) ≡ true }
        ensures sound { IsSound (held (stage_of_progress result) self.new) }
        ensures after { held (stage_of_progress result) self.new ≡ host_next (held (Some stage) self.old) (entry_told told.entry) }
        ensures step { step_of_progress result ≡ step_of (held (Some stage) self.old) (entry_told told.entry) }
        ensures kept { (held None self.new).setup ≡ (held None self.old).setup }
        ensures left { frames_left (held (stage_of_progress result) self.new) < frames_left (held (Some stage) self.old) }
        ensures written { IsState self.old → IsState self.new }
    {
        match (stage, told) {
            (Stage::Writes { cell, word, pass }, Told::Finished { .. }) => {
                Progress::At(Stage::Reads { cell, word, pass })
            }
            (Stage::Sends { command, tries }, Told::Finished { acked }) => {
                self.sent(command, tries, acked)
            }
            (Stage::Reads { cell, word, pass }, Told::Got(bytes)) => {
                let read = good_word(self.address, &cell_read(cell), bytes);
                self.read_back(cell, word, pass, read)
            }
            (Stage::Asks { question, tries }, Told::Got(bytes)) => {
                self.answered(question, tries, bytes)
            }
            // A report is of the kind of the frame that is being sent.
            _ => unreachable!(),
        }
    }

    /// Forgets all that is known, as `Host::restart`. Only the setup of what it held has to be sound. No job
    /// is open.
    #[tactic(auto, unfolding(crate::specs::Summary::host_next, crate::specs::Image::formats_held, crate::specs::Summary::no_formats))]
    pub fn restart(&mut self)
        requires { IsSetup (held None self.old).setup }
        ensures sound { IsSound (held None self.new) }
        ensures after { held None self.new ≡ start (held None self.old).setup }
        ensures written { IsState self.new }
    {
        self.unused = 0;
        self.formats.fill(FormatImage::NONE);
        self.known.clear();
    }
}
