//! A driver over a simulated bus: what the host confirms is held while a plan restarts nothing, also if a status is read
//! between two orders, and over a patient bus whose adapter is a simulated one. A reading over any bus stays one while that
//! counts no restart, and a course over it is worth what the laws of courses in lives say. A new host may begin beside the part that a
//! driver leaves.

ghost use Rattle.std.specs.Prelude.{◌≡◌, ◌<◌, ℕ, false, IfOk, IfSome, length};
ghost use Rattle.pm_table.specs.declared.cell.Cell.{Cell as Place};
ghost use Rattle.pm_table.specs.Cell.{IsCell};
ghost use Rattle.pm_model.specs.Settings.{word_at};
ghost use Rattle.pm_host.specs.declared.knowledge.Standing.TheVariants.{Confirmed};
ghost use Rattle.pm_host.specs.Refusals.{is_busy};
ghost use Rattle.pm_host.specs.Summary.{standing_at};
ghost use Rattle.pm_limits.specs.Part.{all_registers};
ghost use Rattle.pm_law_tests.specs.Drivers.{WishesAreHeld};
ghost use Rattle.pm_driver.specs.Driven.{HasNoRestartSince, MayBegin};
ghost use Rattle.pm_driver.specs.NeverRestarts.{NeverRestarts, PatientNeverRestarts};
ghost use Rattle.pm_driver.specs.Plan.{restarts_of};

use pm_course::{CourseEnd, FrameCourse, Wishes};
use pm_course_laws::frame_courses_hold_in_lives;
use pm_device::Config;
use pm_driver::{
    Bus, Driver, Fault, Patient, SimulatedBus, carry_out, driver_over, lives_lead_on,
    read_without_restart, requests_are_no_writes, restarts_are_counted,
    run_patiently_without_restart, run_without_restart,
};
use pm_frame::code_request;
use pm_host::{Host, HostFault, Job, JobEnd};
use pm_limits::{Guard, whole_parts_miss_nothing};
use pm_table::{Cell, Code, Reg};
use pm_world::plans_hold_in_lives;

/// What the host confirms is held if the plan has no restart.
pub fn confirmed_is_held<'a>(driver: &Driver<SimulatedBus<'a>>)
    requires { NeverRestarts driver.now }
    ensures { (cell : Place) (word : ℕ) → IsCell driver.now.guard.host.setup.outputs cell →
        standing_at driver.now.guard.host cell ≡ Confirmed word → word_at driver.now.bus.device.words cell ≡ word }
{
    driver.laws();
}

/// Two orders over any plan without restarts, and a read of STATUS_WORD between them: what the host confirms is held.
pub fn orders_around_a_read<'a>(
    c: Config,
    passes: u8,
    plan: &'a [Fault],
    word: u16,
) -> Option<Driver<SimulatedBus<'a>>>
    requires { restarts_of plan.now ≡ 0 }
    ensures { IfSome result (λ driver. (cell : Place) (word : ℕ) → IsCell driver.guard.host.setup.outputs cell →
        standing_at driver.guard.host cell ≡ Confirmed word → word_at driver.bus.device.words cell ≡ word) }
{
    let mut driver = driver_over(c, passes, plan)?;
    let _ = run_without_restart(
        &mut driver,
        Job::Order(Cell::Out(0, Reg::VoutCommand), word),
    );
    let mut room = [0; 4];
    // law: no beginning of the request is a write
    requests_are_no_writes();
    let _ = read_without_restart(
        &mut driver,
        &code_request(0x58, Code::STATUS_WORD.0),
        &mut room,
    );
    let _ = run_without_restart(
        &mut driver,
        Job::Order(Cell::Out(1, Reg::VoutCommand), word),
    );
    confirmed_is_held(&driver);
    Some(driver)
}

/// Two checks over a patient bus whose adapter's plan has no restart.
pub fn patient_checks<'a>(driver: &mut Driver<Patient<SimulatedBus<'a>>>)
    requires { PatientNeverRestarts driver.old }
    ensures { PatientNeverRestarts driver.new }
{
    let _ = run_patiently_without_restart(driver, Job::Check(Cell::Out(0, Reg::VoutCommand)));
    let _ = run_patiently_without_restart(driver, Job::Check(Cell::Out(1, Reg::VoutCommand)));
}

/// A cell since whose reading the converter hadn't restarted stays such a cell while an open job is carried out, over any
/// bus, if the bus counts no restart meanwhile.
pub fn a_reading_that_stays<B: Bus>(guard: &mut Guard, bus: &mut B) -> Option<JobEnd>
    ensures { (cell : Place) → B.restarts bus.new ≡ B.restarts bus.old →
        HasNoRestartSince cell guard.old.host (B.held bus.old) → HasNoRestartSince cell guard.new.host (B.held bus.new) }
{
    restarts_are_counted::<B>();
    carry_out(guard, bus)
}

/// The converter holds the word of each wish after a course over any bus that ended `Reached`, if the bus counted no restart meanwhile
/// and the part has every register.
pub fn a_course_over_a_bus<B: Bus>(
    driver: &mut Driver<B>,
    output: u8,
    wishes: &Wishes,
    tries: u16,
) -> CourseEnd
    requires idle { is_busy driver.old.guard.host ≡ false }
    requires there { output < driver.old.guard.host.setup.outputs }
    requires whole { driver.old.guard.registers ≡ all_registers }
    ensures { WishesAreHeld B.held B.restarts output wishes.now driver.old result driver.new }
{
    // law: what a course is worth in each life
    frame_courses_hold_in_lives();
    plans_hold_in_lives();
    whole_parts_miss_nothing();
    let mut course = FrameCourse::new(output, wishes, tries);
    driver.run_course(&mut course)
}

/// A host with other passes, made for the part that a driver leaves, after whatever that did: it may begin beside that part.
pub fn a_host_that_begins_anew<B: Bus>(
    driver: &Driver<B>,
    address: u8,
    outputs: u8,
    passes: u8,
) -> Result<Host, HostFault>
    requires places { length (B.held driver.now.bus).config.starts ≡ 8 }
    requires address { address ≡ (B.held driver.now.bus).config.addr }
    requires outputs { outputs ≡ (B.held driver.now.bus).config.count }
    ensures { IfOk result (λ host. MayBegin host (B.held driver.now.bus)) }
{
    // law: what a life left is a part beside which a host may begin
    lives_lead_on();
    driver.laws();
    Host::new(address, outputs, passes)
}
