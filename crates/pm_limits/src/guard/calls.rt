//! The calls that a guard has from its host.

ghost use Rattle.std.specs.Prelude.{◌≡◌, ◌<◌, true, option_map};
ghost use Rattle.pm_num.specs.AnyFormat.{shape_of};
ghost use Rattle.pm_table.specs.Cell.{IsCell};
ghost use Rattle.pm_host.specs.Frames.{frames_left};
ghost use Rattle.pm_host.specs.Refusals.{may_come, sends_read};
ghost use Rattle.pm_host.specs.Summary.{format_at, host_next, possible_at, standing_at, step_of};
ghost use Rattle.pm_host.specs.Told.{entry_told, OnEnded};
ghost use Rattle.pm_host.specs.Transcript.{Restarted};
ghost use Rattle.pm_host.specs.Turn.{Shows};
ghost use Rattle.pm_limits.specs.Guard.{LetsBegin};

use crate::fault::LimitFault;
use crate::guard::Guard;
use pm_host::{Command, Host, Job, Possible, Standing, Step, Told, Turn};
use pm_num::AnyFormat;
use pm_table::Cell;

impl Guard {
    /// Begins an order of a word, as [`Guard::begin`].
    pub fn order(&mut self, cell: Cell, word: u16) -> Result<(), LimitFault>
        ensures { LetsBegin self.old (Job.Order cell word) result self.new }
    {
        self.begin_order(cell, word)
    }

    /// Begins an order of a number of microvolts, as [`Guard::begin`].
    pub fn order_micro(&mut self, cell: Cell, x: i64) -> Result<(), LimitFault>
        ensures { LetsBegin self.old (Job.OrderMicro cell x) result self.new }
    {
        self.begin(Job::OrderMicro(cell, x))
    }

    /// Begins a check, as [`Job::Check`] says.
    pub fn check(&mut self, cell: Cell) -> Result<(), LimitFault>
        ensures { LetsBegin self.old (Job.Check cell) result self.new }
    {
        self.begin(Job::Check(cell))
    }

    /// Begins a learn, as [`Job::Learn`] says.
    pub fn learn(&mut self, output: u8) -> Result<(), LimitFault>
        ensures { LetsBegin self.old (Job.Learn output) result self.new }
    {
        self.begin(Job::Learn(output))
    }

    /// Begins to send a command, as [`Job::Send`] says.
    pub fn send(&mut self, command: Command) -> Result<(), LimitFault>
        ensures { LetsBegin self.old (Job.Send command) result self.new }
    {
        self.begin(Job::Send(command))
    }

    /// Begins a clear of an output's latched faults, as [`Command::ClearFaults`] says.
    pub fn clear(&mut self, output: u8) -> Result<(), LimitFault>
        ensures { LetsBegin self.old (Job.Send (Command.ClearFaults output)) result self.new }
    {
        self.send(Command::ClearFaults { output })
    }

    /// Begins a store of the outputs' settings, as [`Command::StoreUserAll`] says.
    pub fn store(&mut self) -> Result<(), LimitFault>
        ensures { LetsBegin self.old (Job.Send Command.StoreUserAll) result self.new }
    {
        self.send(Command::StoreUserAll)
    }

    /// Begins a restore of the outputs' settings, as [`Command::RestoreUserAll`] says. No limit refuses it: what
    /// the store holds is known to no host.
    pub fn restore(&mut self) -> Result<(), LimitFault>
        ensures { LetsBegin self.old (Job.Send Command.RestoreUserAll) result self.new }
    {
        self.send(Command::RestoreUserAll)
    }

    /// What to do now, as [`Host::turn`].
    pub fn turn(&self) -> Turn<'_>
        ensures { Shows self.now.host result }
    {
        self.host.turn()
    }

    /// What became of the frame that `turn` showed, as [`Host::told`].
    pub fn told(&mut self, told: Told<'_>) -> Step
        requires { may_come self.old.host (entry_told told) ≡ true }
        ensures after { self.new.host ≡ host_next self.old.host (entry_told told.entry) }
        ensures limits { self.new.limits ≡ self.old.limits }
        ensures registers { self.new.registers ≡ self.old.registers }
        ensures step { result ≡ step_of self.old.host (entry_told told.entry) }
        ensures kept { self.new.host.setup ≡ self.old.host.setup }
        ensures left { frames_left self.new.host < frames_left self.old.host }
        ensures over { OnEnded result (frames_left self.new.host ≡ 0) }
    {
        self.host.told(told)
    }

    /// Drops the open job and all that is known, as [`Host::restart`]. The limits stay.
    pub fn restart(&mut self)
        ensures after { self.new.host ≡ host_next self.old.host Restarted }
        ensures limits { self.new.limits ≡ self.old.limits }
        ensures registers { self.new.registers ≡ self.old.registers }
        ensures kept { self.new.host.setup ≡ self.old.host.setup }
        ensures left { frames_left self.new.host ≡ 0 }
    {
        self.host.restart();
    }

    /// What is known of a cell's word, as [`Host::standing`]. The cell's output is there.
    pub fn standing(&self, cell: Cell) -> Standing
        requires { IsCell self.now.host.setup.outputs cell }
        ensures { result ≡ standing_at self.now.host cell }
    {
        self.host.standing(cell)
    }

    /// The words that a cell may hold, as [`Host::possible`]. The cell's output is there.
    pub fn possible(&self, cell: Cell) -> Possible
        requires { IsCell self.now.host.setup.outputs cell }
        ensures { result ≡ possible_at self.now.host cell }
    {
        self.host.possible(cell)
    }

    /// The learned format of an output's voltages, as [`Host::format`]. The output is there.
    pub fn format(&self, output: u8) -> Option<AnyFormat>
        requires { output < self.now.host.setup.outputs }
        ensures { option_map shape_of result ≡ format_at self.now.host output }
    {
        self.host.format(output)
    }

    /// The host, for what else it says.
    pub fn host(&self) -> &Host
        ensures { result.now ≡ self.now.host }
    {
        &self.host
    }
}
