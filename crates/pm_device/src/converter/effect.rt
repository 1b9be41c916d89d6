//! What a hearing that came to an effect does to the converter.

ghost use Rattle.std.specs.Prelude.{◌≡◌, true};
ghost use Rattle.pm_table.specs.Cell.{cell_accepts};
ghost use Rattle.pm_model.specs.Settings.{IsCell};
ghost use Rattle.pm_device.specs.declared.act.Act.TheVariants as act;
ghost use Rattle.pm_device.specs.declared.verdict.Verdict.TheVariants as verdict;
ghost use Rattle.pm_device.specs.Verdict.{IsFit, CanAct};
ghost use Rattle.pm_device.specs.Effect.{Heard};
ghost use Rattle.pm_device.specs.History.{after_outcome};

use crate::act::Act;
use crate::cml_latches::CmlLatches;
use crate::converter::Converter;
use crate::status_bits::StatusVout;
use crate::verdict::Verdict;
use bitflags::Flags;
use pm_table::Cell;

impl Converter {
    /// Does what a hearing came to.
    #[tactic(auto, unfolding(crate::specs::History::after_outcome))]
    pub(crate) fn settle(&mut self, verdict: Verdict)
        requires { IsFit self.old.config.count verdict }
        ensures { self.new ≡ after_outcome self.old (Heard verdict) }
    {
        match verdict {
            Verdict::Refuses(fault) => self.faults.note(fault),
            Verdict::Takes(act) => self.perform(act),
            Verdict::Ignores | Verdict::Answers(_) => (),
        }
    }

    // Does what a write asks for.
    #[tactic(auto, unfolding(crate::specs::History::after_outcome))]
    fn perform(&mut self, act: Act)
        requires { CanAct self.old.config.count act }
        ensures { self.new ≡ after_outcome self.old (Heard (verdict.Takes act)) }
    {
        match act {
            Act::Put(cell, word) => self.put(cell, word),
            Act::Select(page) => self.page = page,
            Act::ClearFaults(output) => {
                self.unlatch(output);
                self.faults = CmlLatches::new();
            }
            Act::ClearVout(output, byte) => {
                if StatusVout::from_bits_retain(byte).contains(StatusVout::MAX_WARNING) {
                    self.unlatch(output);
                }
            }
            Act::ClearCml(byte) => self.faults.clear(byte),
            Act::Store => self.store.take_outputs(&self.settings),
            Act::Restore => self.restore(),
        }
    }

    // Gives each cell of an output its word in the store, and latches each output that is then outside
    // its limits.
    #[tactic(auto, unfolding(crate::specs::History::after_outcome))]
    fn restore(&mut self)
        ensures { self.new ≡ after_outcome self.old (Heard (verdict.Takes act.Restore)) }
    {
        self.settings.take_outputs(&self.store);
        self.latch_all();
    }

    // Gives a cell a word, and latches that its output is outside its limits, if it is.
    #[tactic(auto, unfolding(crate::specs::History::after_outcome))]
    fn put(&mut self, cell: Cell, word: u16)
        requires cell { IsCell self.old.config.count cell }
        requires accepted { cell_accepts cell word ≡ true }
        ensures { self.new ≡ after_outcome self.old (Heard (verdict.Takes (act.Put cell word))) }
    {
        self.settings.put(cell, word);
        if let Cell::Out(output, _) = cell {
            self.latch(output);
        }
    }
}
