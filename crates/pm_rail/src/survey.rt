//! The reads that find what an output commands.

ghost use Rattle.std.specs.Prelude.{◌≡◌, ◌<◌, None, Some, find};
ghost use Rattle.pm_num.specs.AnyFormat.{voltage_shape};
ghost use Rattle.pm_table.specs.Cell.{registers};
ghost use Rattle.pm_host.specs.Image.{held};
ghost use Rattle.pm_rail.specs.Known.{cells_of, known_or as spec_known_or};
ghost use Rattle.pm_rail.specs.Registers.{held_by, wants_of};
ghost use Rattle.pm_rail.specs.Survey.{and_read, asking, due_by as spec_due_by, survey_due_in as spec_due_in, due_job, ended, has_read, is_stuck as spec_is_stuck, is_stuck_by as spec_is_stuck_by, is_surveyed, is_unread as spec_is_unread, next_job, nothing_read, survey_of, wanted_in};

use crate::known::{OutputForm, known_at, known_or};
use crate::missing::{first_unsure, is_stuck_in};
use crate::refusals::{Settings, is_needed};
use crate::registers::Registers;
use crate::wanted::Wanted;
use pm_host::{Job, JobEnd, State};
use pm_limits::{Guard, PartRegisters};
use pm_table::{Cell, Reg};

/// Which cells had a good answer since a survey began.
#[derive(Clone, Copy, Debug, PartialEq, Eq)]
pub struct Reads {
    /// OPERATION.
    pub operation: bool,
    /// VOUT_COMMAND.
    pub command: bool,
    /// VOUT_MAX.
    pub max: bool,
    /// VOUT_MARGIN_HIGH.
    pub margin_high: bool,
    /// VOUT_MARGIN_LOW.
    pub margin_low: bool,
    /// VOUT_MIN.
    pub min: bool,
    /// WRITE_PROTECT.
    pub protect: bool,
}

impl Reads {
    /// No cell.
    pub fn nothing() -> Reads
        ensures { result ≡ nothing_read }
    {
        Reads {
            operation: false,
            command: false,
            max: false,
            margin_high: false,
            margin_low: false,
            min: false,
            protect: false,
        }
    }

    /// Whether a register was read.
    pub fn has(&self, register: Reg) -> bool
        ensures { result ≡ has_read self.now register }
    {
        match register {
            Reg::Operation => self.operation,
            Reg::VoutCommand => self.command,
            Reg::VoutMax => self.max,
            Reg::MarginHigh => self.margin_high,
            Reg::MarginLow => self.margin_low,
            Reg::VoutMin => self.min,
        }
    }

    // The first register that the part has, that is needed and that wasn't read.
    fn first_unread(&self, part: PartRegisters, held: &Registers, wanted: &Wanted) -> Option<Reg>
        ensures { result ≡ find (spec_is_unread part self.now (held_by held.now) (wants_of wanted.now)) registers }
    {
        if self.is_unread(part, held, wanted, Reg::Operation) {
            Some(Reg::Operation)
        } else if self.is_unread(part, held, wanted, Reg::VoutCommand) {
            Some(Reg::VoutCommand)
        } else if self.is_unread(part, held, wanted, Reg::VoutMax) {
            Some(Reg::VoutMax)
        } else if self.is_unread(part, held, wanted, Reg::MarginHigh) {
            Some(Reg::MarginHigh)
        } else if self.is_unread(part, held, wanted, Reg::MarginLow) {
            Some(Reg::MarginLow)
        } else if self.is_unread(part, held, wanted, Reg::VoutMin) {
            Some(Reg::VoutMin)
        } else {
            None
        }
    }

    // Whether the part has a register, and it is needed and wasn't read.
    fn is_unread(
        &self,
        part: PartRegisters,
        held: &Registers,
        wanted: &Wanted,
        register: Reg,
    ) -> bool
        ensures { result ≡ spec_is_unread part self.now (held_by held.now) (wants_of wanted.now) register }
    {
        part.has(register) && is_needed(held, wanted, register) && !self.has(register)
    }

    // One more cell is read.
    pub(crate) fn and(self, cell: Cell) -> Reads
        ensures { result ≡ and_read self cell }
    {
        let mut read = self;
        match cell {
            Cell::Out(_, Reg::Operation) => read.operation = true,
            Cell::Out(_, Reg::VoutCommand) => read.command = true,
            Cell::Out(_, Reg::VoutMax) => read.max = true,
            Cell::Out(_, Reg::MarginHigh) => read.margin_high = true,
            Cell::Out(_, Reg::MarginLow) => read.margin_low = true,
            Cell::Out(_, Reg::VoutMin) => read.min = true,
            Cell::Protect => read.protect = true,
        }
        read
    }
}

/// A survey of an output. It asks for one job after another until all that decides what the output commands, or all
/// that a plan needs, is known by good answers that came since it began. It is a plain value, and holds no guard.
///
/// Ask `next` for a job while the guard's host is idle, carry the job out, and report how it ended to `told`. The survey
/// has ended if `next` answers `None`. It has ended by its own rule if [`Survey::is_done`] says so. Otherwise it has no
/// tries left, or stands at a margin that the part lacks and that OPERATION selects or a plan asks for.
#[derive(Clone, Copy, Debug, PartialEq, Eq)]
pub struct Survey {
    /// The output's number, from 0.
    pub output: u8,
    /// The words that a plan is to reach, if the survey is for one.
    pub plan: Option<Wanted>,
    /// How many jobs it may still ask for.
    pub left: u16,
    /// Whether the format was learned since it began.
    pub learned: bool,
    /// Which cells had a good answer since it began.
    pub read: Reads,
    /// The job that it asked for and of whose end it didn't hear.
    pub asked: Option<Job>,
}

impl Survey {
    /// A survey that begins now and asks for at most this many jobs. Without a plan it reads OPERATION, the register that
    /// it selects, VOUT_MAX and VOUT_MIN; for a plan it reads each register of which a word is wanted and WRITE_PROTECT
    /// too.
    pub fn new(output: u8, plan: Option<Wanted>, tries: u16) -> Survey
        ensures { result ≡ survey_of output plan tries }
    {
        Survey {
            output,
            plan,
            left: tries,
            learned: false,
            read: Reads::nothing(),
            asked: None,
        }
    }

    /// What to ask the guard for now: a learn of the output first, then a check of each needed cell that had no good
    /// answer since the survey began. A check of each cell that isn't known follows, as after an answer that showed
    /// a restart. A register that the part doesn't have is never asked for. `None` if nothing is left to ask for, or
    /// no try. The output is there.
    pub fn next(&mut self, guard: &Guard) -> Option<Job>
        requires { self.old.output < guard.now.host.setup.outputs }
        ensures job { result ≡ next_job guard.now.registers self.old guard.now.host }
        ensures after { self.new ≡ asking self.old result }
    {
        let host = guard.host();
        self.next_in(host.state(), guard.registers())
    }

    /// What to ask for now, by what is held beside the open job, of a part with these registers. The output's number
    /// is below 8.
    pub fn next_in(&mut self, host: &State, part: PartRegisters) -> Option<Job>
        requires { self.old.output < 8 }
        ensures job { result ≡ next_job part self.old (held None host.now) }
        ensures after { self.new ≡ asking self.old result }
    {
        let job = if self.left == 0 {
            None
        } else {
            self.due(host, part)
        };
        self.asked = job;
        if job.is_some() {
            self.left -= 1;
        }
        job
    }

    /// How the job ended that `next` asked for.
    pub fn told(&mut self, end: JobEnd)
        ensures { self.new ≡ ended self.old self.old.asked end }
    {
        match (self.asked, end) {
            (Some(Job::Learn(_)), JobEnd::Learned) => self.learned = true,
            (Some(Job::Check(cell)), JobEnd::Done) => self.read = self.read.and(cell),
            _ => {}
        }
        self.asked = None;
    }

    /// Whether the survey has ended by its own rule: the format and each needed cell is known, of those that the part has by a
    /// good answer that came since it began, by `surveys_end_known`. The output is there.
    pub fn is_done(&self, guard: &Guard) -> bool
        requires { self.now.output < guard.now.host.setup.outputs }
        ensures { result ≡ is_surveyed guard.now.registers self.now guard.now.host }
    {
        let host = guard.host();
        self.is_done_in(host.state(), guard.registers())
    }

    /// Whether the survey has ended by its own rule, by what is held beside the open job, of a part with these
    /// registers. The output's number is below 8.
    pub fn is_done_in(&self, host: &State, part: PartRegisters) -> bool
        requires { self.now.output < 8 }
        ensures { result ≡ is_surveyed part self.now (held None host.now) }
    {
        self.due(host, part).is_none() && !self.is_stuck(host, part)
    }

    // What is still to be asked for.
    pub(crate) fn due(&self, host: &State, part: PartRegisters) -> Option<Job>
        requires { self.now.output < 8 }
        ensures { result ≡ due_job part self.now (held None host.now) }
    {
        match host.format(self.output).voltage_format() {
            Some(format) => {
                let registers = part;
                self.due_by(host, &OutputForm { registers, format })
            }
            None => Some(Job::Learn(self.output)),
        }
    }

    // What is still to be asked for, in the output's format.
    fn due_by(&self, host: &State, form: &OutputForm) -> Option<Job>
        requires { self.now.output < 8 }
        ensures { result ≡ spec_due_by form.now.registers self.now (held None host.now) (Some (voltage_shape form.now.format)) }
    {
        self.due_in(host, form, &self.settings(host, form))
    }

    // What is still to be asked for, by the words that are known and those that are wanted.
    fn due_in(&self, host: &State, form: &OutputForm, settings: &Settings) -> Option<Job>
        requires there { self.now.output < 8 }
        requires own { settings.now.output ≡ self.now.output }
        ensures { let cells = cells_of form.now.registers (voltage_shape form.now.format) (held None host.now) in
            result ≡ spec_due_in form.now.registers self.now cells (held_by settings.now.held) (wants_of settings.now.wanted) }
    {
        if !self.learned {
            return Some(Job::Learn(self.output));
        }
        if let Some(register) = self
            .read
            .first_unread(form.registers, &settings.held, &settings.wanted)
        {
            return Some(Job::Check(Cell::Out(self.output, register)));
        }
        if self.plan.is_some() && !self.read.protect {
            return Some(Job::Check(Cell::Protect));
        }
        if let Some(register) = first_unsure(host, form, settings) {
            return Some(Job::Check(Cell::Out(self.output, register)));
        }
        if self.plan.is_some() && known_at(host, form, Cell::Protect).is_none() {
            return Some(Job::Check(Cell::Protect));
        }
        None
    }

    // Whether a register is needed that isn't known and that the part doesn't have.
    fn is_stuck(&self, host: &State, part: PartRegisters) -> bool
        requires { self.now.output < 8 }
        ensures { result ≡ spec_is_stuck part self.now (held None host.now) }
    {
        match host.format(self.output).voltage_format() {
            Some(format) => {
                let registers = part;
                self.is_stuck_by(host, &OutputForm { registers, format })
            }
            None => false,
        }
    }

    // Whether a register is needed that isn't known and that the part doesn't have, in the output's format.
    fn is_stuck_by(&self, host: &State, form: &OutputForm) -> bool
        requires { self.now.output < 8 }
        ensures { result ≡ spec_is_stuck_by form.now.registers self.now (held None host.now) (Some (voltage_shape form.now.format)) }
    {
        is_stuck_in(host, form, &self.settings(host, form))
    }

    // The words that say which registers are needed: that of OPERATION as far as it is known, and those that its plan wants.
    fn settings(&self, host: &State, form: &OutputForm) -> Settings
        requires { self.now.output < 8 }
        ensures output { result.output ≡ self.now.output }
        ensures operation { result.held.operation
            ≡ spec_known_or (cells_of form.now.registers (voltage_shape form.now.format) (held None host.now)) (Cell.Out self.now.output Reg.Operation) }
        ensures wanted { result.wanted ≡ wanted_in self.now.plan }
    {
        let operation = known_or(host, form, Cell::Out(self.output, Reg::Operation));
        Settings {
            output: self.output,
            held: Registers::of_operation(operation),
            wanted: wanted_of(self.plan),
        }
    }
}

// The wanted words of the plan that a survey is for; none if it is for no plan.
pub(crate) fn wanted_of(plan: Option<Wanted>) -> Wanted
    ensures { result ≡ wanted_in plan }
{
    match plan {
        Some(wanted) => wanted,
        None => Wanted::nothing(),
    }
}
