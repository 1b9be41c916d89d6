//! A host with its limits over a bus: each call carries its job out.

ghost use Rattle.std.specs.Prelude.{◌≡◌, ◌≤◌, ◌<◌, [], ◌∷◌, None, false, true, OnOk, OnErr, length, replicate};
ghost use Rattle.std.specs.Result.{result_err};
ghost use Rattle.pm_host.specs.declared.job.Job.TheVariants as asked;
ghost use Rattle.pm_host.specs.declared.command.Command.TheVariants as command;
ghost use Rattle.pm_host.specs.Frames.{frames_left};
ghost use Rattle.pm_host.specs.Refusals.{is_busy as spec_is_busy};
ghost use Rattle.pm_table.specs.declared.cell.Cell.{Cell as Place};
ghost use Rattle.pm_limits.specs.declared.output_limits.OutputLimits.TheVariants.{Unlimited};
ghost use Rattle.pm_limits.specs.Guard.{narrow_fault, narrowed, unlimited, unlimited_fault};
ghost use Rattle.pm_limits.specs.Part.{all_registers};
ghost use Rattle.pm_course.specs.Ends.{busy_end};
ghost use Rattle.pm_driver.specs.Acts.{IsNoWrite, Renewed};
ghost use Rattle.pm_driver.specs.Courses.{RunsCourse};
ghost use Rattle.pm_driver.specs.Driven.{HasNoRestartSince, IsTrueOf, MayBegin, Runs, driven};
ghost use Rattle.pm_driver.specs.Lives.{Leads};
ghost use Rattle.pm_driver.specs.Looks.{Looks};

use crate::bus::Bus;
use crate::frames::{carry_course, carry_out};
use crate::laws::{
    ends_are_true, jobs_lead, laws_of_lives, leads_compose, looks_lead, renewals_lead,
};
use pm_course::{CourseEnd, FrameCourse, Refusal};
use pm_host::{Command, Host, HostFault, Job, JobEnd};
use pm_limits::{Guard, LimitFault};
use pm_rail::PlanFault;
use pm_table::Cell;
use std::marker::Model;

/// A host with its limits, and the bus of its converter. Each call that asks for a job carries it out, and answers how
/// it ended, or why the host or its limits refuse it.
#[derive(Drop)]
pub struct Driver<B: Bus> {
    guard: Guard,
    bus: B,
}

impl<B: Bus> Model for Driver<B> {
    ghost use Rattle.pm_driver.specs.Driven.{Driving};

    ghost Value = { Driving B };

    ghost use Rattle.pm_driver.specs.Driven.{HasLife};

    ghost view = { λ d. record { guard = d.guard; bus = d.bus } };

    ghost invariant = { λ d. HasLife d.guard.host (B.held d.bus) };
}

impl<B: Bus> Driver<B> {
    /// A driver of a new host without limits, which is otherwise as [`guarded`](Driver::guarded).
    pub fn new(host: Host, bus: B) -> Driver<B>
        requires { MayBegin host (B.held bus) }
        ensures guard { result.guard ≡ record { host = host; limits = replicate 8 Unlimited; registers = all_registers } }
        ensures bus { result.bus ≡ bus }
        ensures since { (cell : Place) → HasNoRestartSince cell result.guard.host (B.held result.bus) }
    {
        Driver::guarded(Guard::over(host), bus)
    }

    /// A driver of a new host with its limits, made for the address and the outputs of a part as it is (`MayBegin`). The part
    /// may hold and have stored any words that its cells accept, and have any PAGE, readings and latched status bits, whatever
    /// was there before. A converter as it was made is such a part
    /// ([`new_converters_may_begin`](crate::new_converters_may_begin)), and any life leaves one
    /// ([`lives_lead_on`](crate::lives_lead_on)). The part didn't restart since any cell was read (`since`).
    pub fn guarded(guard: Guard, bus: B) -> Driver<B>
        requires { MayBegin guard.host (B.held bus) }
        ensures guard { result.guard ≡ guard }
        ensures bus { result.bus ≡ bus }
        ensures since { (cell : Place) → HasNoRestartSince cell result.guard.host (B.held result.bus) }
    {
        laws_of_lives();
        Driver { guard, bus }
    }

    /// Carries a job out. How it ended, or why the host or its limits refuse it, which changes nothing: the refusals are
    /// those of [`Guard::begin`], in its order.
    pub fn run(&mut self, job: Job) -> Result<JobEnd, LimitFault>
        ensures { Runs B.gives B.held B.restarts job self.old result self.new }
    {
        ends_are_true();
        jobs_lead::<B>();
        leads_compose::<B>();
        self.guard.begin(job)?;
        match carry_out(&mut self.guard, &mut self.bus) {
            Some(end) => Ok(end),
            None => unreachable!(),
        }
    }

    /// Writes a word to a cell and reads it back, as [`Job::Order`] says. `Done`: the host calls the word confirmed,
    /// and the converter held it when it answered. `Differs`: the same of the word that was read.
    pub fn order(&mut self, cell: Cell, word: u16) -> Result<JobEnd, LimitFault>
        ensures { Runs B.gives B.held B.restarts (asked.Order cell word) self.old result self.new }
    {
        self.run(Job::Order(cell, word))
    }

    /// Orders a number of microvolts, as [`Job::OrderMicro`] says; it ends as an [`order`](Driver::order) does.
    pub fn order_micro(&mut self, cell: Cell, microvolts: i64) -> Result<JobEnd, LimitFault>
        ensures { Runs B.gives B.held B.restarts (asked.OrderMicro cell microvolts) self.old result self.new }
    {
        self.run(Job::OrderMicro(cell, microvolts))
    }

    /// Reads a cell, as [`Job::Check`] says. `Done`: the host calls a word confirmed, and the converter held it when
    /// it answered.
    pub fn check(&mut self, cell: Cell) -> Result<JobEnd, LimitFault>
        ensures { Runs B.gives B.held B.restarts (asked.Check cell) self.old result self.new }
    {
        self.run(Job::Check(cell))
    }

    /// Reads the format of an output's voltages, as [`Job::Learn`] says. `Learned`: the host holds the converter's.
    pub fn learn(&mut self, output: u8) -> Result<JobEnd, LimitFault>
        ensures { Runs B.gives B.held B.restarts (asked.Learn output) self.old result self.new }
    {
        self.run(Job::Learn(output))
    }

    /// Clears an output's latched faults, as [`Command::ClearFaults`] says.
    pub fn clear(&mut self, output: u8) -> Result<JobEnd, LimitFault>
        ensures { Runs B.gives B.held B.restarts (asked.Send (command.ClearFaults output)) self.old result self.new }
    {
        self.run(Job::Send(Command::ClearFaults { output }))
    }

    /// Has the outputs' settings stored, as [`Command::StoreUserAll`] says.
    pub fn store(&mut self) -> Result<JobEnd, LimitFault>
        ensures { Runs B.gives B.held B.restarts (asked.Send command.StoreUserAll) self.old result self.new }
    {
        self.run(Job::Send(Command::StoreUserAll))
    }

    /// Has the outputs' stored settings back, as [`Command::RestoreUserAll`] says.
    pub fn restore(&mut self) -> Result<JobEnd, LimitFault>
        ensures { Runs B.gives B.held B.restarts (asked.Send command.RestoreUserAll) self.old result self.new }
    {
        self.run(Job::Send(Command::RestoreUserAll))
    }

    /// Carries a course out, frame after frame, until it has ended: to voltages and words, to a byte of OPERATION, or to nothing,
    /// which is a survey. It answers how it ended. `Refused` with H3 if a job is open; nothing changes then. The output is there.
    ///
    /// What it does is steps of that course only, in each life that led to the driver. So what the laws of `pm_course_laws` say of
    /// courses holds of it, as [`frame_courses_hold_in_lives`](pm_course_laws::frame_courses_hold_in_lives).
    pub fn run_course(&mut self, course: &mut FrameCourse) -> CourseEnd
        requires { course.old.course.survey.output < self.old.guard.host.setup.outputs }
        ensures runs { spec_is_busy self.old.guard.host ≡ false →
            RunsCourse B.gives B.held B.restarts self.old course.old result self.new course.new }
        ensures busy { spec_is_busy self.old.guard.host ≡ true →
            (result ≡ busy_end) × (self.new ≡ self.old) × (course.new ≡ course.old) }
    {
        if self.is_busy() {
            return CourseEnd::Refused(Refusal {
                number: PlanFault::Busy.number(),
                register: None,
            });
        }
        carry_course(&mut self.guard, &mut self.bus, course)
    }

    /// Reads what no job asks for, as a status or a measured value: one [`Bus::read`] of this request, of which the host hears
    /// nothing. How many bytes came, the read address with them; [`read_plain`](pm_frame::read_plain) and
    /// [`read_block`](pm_frame::read_block) judge them. H3 if a job is open; nothing changes then. There is room for a byte at
    /// least. Give just the room of a whole answer: a bus promises nothing of an answer with fewer bytes. A block that is
    /// shorter than its room is judged by its packet error code only.
    ///
    /// No beginning of the request is a write to the converter, since the bus may cut it off there by a stop. Three requests
    /// have none: that of [`code_request`](pm_frame::code_request), bytes whose code isn't written, as PAGE_PLUS_READ, and
    /// the request of a message that reads ([`requests_are_no_writes`](crate::requests_are_no_writes)).
    ///
    /// The converter latches bits of STATUS_CML at most. Settings, store and PAGE stay, unless it restarts, which the bus
    /// counts.
    ///
    /// STATUS_WORD of the output that PAGE selects, output 0 once the part started:
    ///
    /// ```
    /// fn status<B: Bus>(driver: &mut Driver<B>) -> Option<u16> {
    ///     let code = Code::STATUS_WORD.0;
    ///     let mut room = [0; 4]; // the read address, two bytes and the PEC
    ///     // law: no beginning of the request is a write
    ///     requests_are_no_writes();
    ///     let count = driver.read(&code_request(0x58, code), &mut room).ok()?; // H3: a job is open
    ///     let payload = read_plain(0x58, code, 2, &room[..count]).ok()?; // F5 if a bit changed
    ///     Some(u16::from_le_bytes([payload[0], payload[1]]))
    /// }
    /// ```
    pub fn read(&mut self, request: &[u8], answer: &mut [u8]) -> Result<usize, HostFault>
        requires room { 1 ≤ length answer.old }
        requires reads { IsNoWrite self.old.guard.host.setup.addr request.now }
        ensures { Looks B.gives B.held B.restarts request.now answer.old self.old result answer.new self.new }
    {
        looks_lead::<B>();
        laws_of_lives();
        if self.is_busy() {
            return Err(HostFault::Busy);
        }
        Ok(self.bus.read(request, answer))
    }

    /// Restarts the host, as after a reset of the firmware: nothing is known of the converter then. The limits stay.
    pub fn restart(&mut self)
        ensures leads { Leads B.gives B.held B.restarts (Renewed ∷ []) None (driven self.old) (driven self.new) }
        ensures bus { self.new.bus ≡ self.old.bus }
        ensures over { frames_left self.new.guard.host ≡ 0 }
        ensures limits { self.new.guard.limits ≡ self.old.guard.limits }
        ensures registers { self.new.guard.registers ≡ self.old.guard.registers }
        ensures kept { self.new.guard.host.setup ≡ self.old.guard.host.setup }
    {
        renewals_lead::<B>();
        self.guard.restart();
    }

    /// Gives an output narrower limits, as [`Guard::narrow`].
    pub fn narrow(&mut self, output: u8, least: i64, most: i64) -> Result<(), LimitFault>
        ensures fault { result_err result ≡ narrow_fault self.old.guard output least most }
        ensures ok { OnOk result (self.new ≡ record self.old { guard = narrowed self.old.guard output least most }) }
        ensures err { OnErr result (self.new ≡ self.old) }
    {
        self.guard.narrow(output, least, most)
    }

    /// Says that an output has no limits, as [`Guard::no_limits`].
    pub fn no_limits(&mut self, output: u8) -> Result<(), LimitFault>
        ensures fault { result_err result ≡ unlimited_fault self.old.guard output }
        ensures ok { OnOk result (self.new ≡ record self.old { guard = unlimited self.old.guard output }) }
        ensures err { OnErr result (self.new ≡ self.old) }
    {
        self.guard.no_limits(output)
    }

    /// The host, for what it says of the cells.
    pub fn host(&self) -> &Host
        ensures { result.now ≡ self.now.guard.host }
    {
        self.guard.host()
    }

    /// The host with its limits, for these and for the bands of its outputs.
    pub fn guard(&self) -> &Guard
        ensures { result.now ≡ self.now.guard }
    {
        &self.guard
    }

    /// The bus.
    pub fn bus(&self) -> &B
        ensures { result.now ≡ self.now.bus }
    {
        &self.bus
    }

    // Whether a job is open.
    fn is_busy(&self) -> bool
        ensures { result ≡ spec_is_busy self.now.guard.host }
    {
        self.host().stage().is_some()
    }

    /// Says what is true of the host and the converter, which some life led to. Does nothing.
    pub fn laws(&self)
        ensures { IsTrueOf self.now.guard.host (B.held self.now.bus) }
    {
        laws_of_lives();
        // law: some life led to the host and the converter, which is the driver's invariant
        let _ = &self.guard;
    }
}
