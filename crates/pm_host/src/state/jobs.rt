//! How a job begins, or is refused.

ghost use Rattle.std.specs.Prelude.{◌≡◌, true, not, None, IfOk, OnOk, OnErr};
ghost use Rattle.std.specs.Result.{result_err, result_ok};
ghost use Rattle.pm_table.specs.Cell.{IsCell};
ghost use Rattle.pm_host.specs.Image.{held};
ghost use Rattle.pm_host.specs.Jobs.{Begins, begun_at};
ghost use Rattle.pm_host.specs.Memory.{IsState};
ghost use Rattle.pm_host.specs.Question.{IsQuestion};
ghost use Rattle.pm_host.specs.Refusals.{cell_fault, question_fault};
ghost use Rattle.pm_table.specs.Rules.{rule};
ghost use Rattle.pm_host.specs.Sound.{IsSound};

use crate::fault::HostFault;
use crate::job::Job;
use crate::question::Question;
use crate::stage::Stage;
use crate::state::{State, nearest_word};
use pm_table::Cell;

impl State {
    /// Begins a job if none is open, as `Host::begin`: the stage at which it stands then.
    #[tactic(auto, unfolding(crate::specs::Summary::host_next))]
    pub fn begin(&mut self, stage: Option<Stage>, job: Job) -> Result<Stage, HostFault>
        requires sound { IsSound (held stage self.old) }
        ensures sound { IsSound (held (begun_at stage result) self.new) }
        ensures begins { Begins (held stage self.old) job result (held (begun_at stage result) self.new) }
        ensures err { OnErr result (self.new ≡ self.old) }
        ensures written { IsState self.old → IsState self.new }
    {
        if stage.is_some() {
            return Err(HostFault::Busy);
        }
        match job {
            Job::Order(cell, word) => self.begin_order(cell, word),
            Job::OrderMicro(cell, x) => self.begin_micro(cell, x),
            Job::Check(cell) => self.begin_asking(Question::Word(cell)),
            Job::Learn(output) => self.begin_asking(Question::Mode(output)),
            Job::Send(command) => {
                refuse_unless(command.is_there(self.outputs))?;
                Ok(self.begin_send(command, 0))
            }
        }
    }

    // Begins an order of a word.
    #[tactic(auto, unfolding(crate::specs::Summary::host_next))]
    fn begin_order(&mut self, cell: Cell, word: u16) -> Result<Stage, HostFault>
        requires sound { IsSound (held None self.old) }
        ensures sound { IsSound (held (result_ok result) self.new) }
        ensures begins { Begins (held None self.old) (Job.Order cell word) result (held (result_ok result) self.new) }
        ensures err { OnErr result (self.new ≡ self.old) }
        ensures written { IsState self.old → IsState self.new }
    {
        self.refuse_cell(cell)?;
        if !cell.accepts(word) {
            return Err(HostFault::BadWord);
        }
        self.begin_write(cell, word, 0)
            .ok_or(HostFault::TooUncertain)
    }

    // Begins an order of the word that is nearest to a number of microvolts.
    fn begin_micro(&mut self, cell: Cell, x: i64) -> Result<Stage, HostFault>
        requires sound { IsSound (held None self.old) }
        ensures sound { IsSound (held (result_ok result) self.new) }
        ensures begins { Begins (held None self.old) (Job.OrderMicro cell x) result (held (result_ok result) self.new) }
        ensures err { OnErr result (self.new ≡ self.old) }
        ensures written { IsState self.old → IsState self.new }
    {
        let format = self.voltage_format(cell)?;
        let word = nearest_word(&format, x)?;
        self.begin_order(cell, word)
    }

    // The stage at which a job begins that asks this first.
    fn begin_asking(&self, question: Question) -> Result<Stage, HostFault>
        requires { IsSound (held None self.now) }
        ensures fault { result_err result ≡ question_fault (held None self.now) question }
        ensures there { OnOk result (IsQuestion self.now.outputs question) }
        ensures stage { IfOk result (λ stage. stage ≡ Stage.Asks question 0) }
    {
        refuse_unless(question.is_there(self.outputs))?;
        Ok(Stage::Asks { question, tries: 0 })
    }

    /// Refuses if the cell isn't there.
    pub(super) fn refuse_cell(&self, cell: Cell) -> Result<(), HostFault>
        requires { IsSound (held None self.now) }
        ensures fault { result_err result ≡ cell_fault (held None self.now) cell }
        ensures there { OnOk result (IsCell self.now.outputs cell) }
    {
        refuse_unless(cell.is_there(self.outputs))
    }
}

// Refuses what isn't there.
fn refuse_unless(there: bool) -> Result<(), HostFault>
    ensures fault { result_err result ≡ rule (not there) HostFault.UnknownOutput }
    ensures there { OnOk result (there ≡ true) }
{
    if there {
        Ok(())
    } else {
        Err(HostFault::UnknownOutput)
    }
}
