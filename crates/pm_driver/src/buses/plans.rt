//! Jobs over plans without restarts, each with what the laws say of it, so that a caller has that with no proof of its own.

ghost use Rattle.std.specs.Prelude.{◌≤◌, length};
ghost use Rattle.pm_driver.specs.Acts.{IsNoWrite};
ghost use Rattle.pm_driver.specs.Driven.{Runs};
ghost use Rattle.pm_driver.specs.Looks.{Looks};
ghost use Rattle.pm_driver.specs.NeverRestarts.{NeverRestarts, PatientNeverRestarts, patient_device, patient_gives, patient_restarts};
ghost use Rattle.pm_driver.specs.Plan.{device_in, gives_so, restarts_so};

use crate::Driver;
use crate::buses::laws::{
    never_restarts_stays, patient_never_restarts_stays, reads_keep_never_restarts,
};
use crate::buses::patient::Patient;
use crate::buses::simulated_bus::SimulatedBus;
use pm_host::{HostFault, Job, JobEnd};
use pm_limits::LimitFault;

/// Carries a job out, as [`Driver::run`], over a plan without restarts: what the host confirms is held on.
pub fn run_without_restart<'a>(
    driver: &mut Driver<SimulatedBus<'a>>,
    job: Job,
) -> Result<JobEnd, LimitFault>
    requires { NeverRestarts driver.old }
    ensures runs { Runs gives_so device_in restarts_so job driver.old result driver.new }
    ensures never { NeverRestarts driver.new }
{
    never_restarts_stays();
    driver.run(job)
}

/// Reads what no job asks for, as [`Driver::read`], over such a plan: what the host confirms is held on.
pub fn read_without_restart<'a>(
    driver: &mut Driver<SimulatedBus<'a>>,
    request: &[u8],
    answer: &mut [u8],
) -> Result<usize, HostFault>
    requires never { NeverRestarts driver.old }
    requires room { 1 ≤ length answer.old }
    requires reads { IsNoWrite driver.old.guard.host.setup.addr request.now }
    ensures looks { Looks gives_so device_in restarts_so request.now answer.old driver.old result answer.new driver.new }
    ensures never { NeverRestarts driver.new }
{
    reads_keep_never_restarts();
    driver.read(request, answer)
}

/// Carries a job out, as [`Driver::run`], over a patient bus whose adapter's plan has no restart: what the host
/// confirms is held on.
pub fn run_patiently_without_restart<'a>(
    driver: &mut Driver<Patient<SimulatedBus<'a>>>,
    job: Job,
) -> Result<JobEnd, LimitFault>
    requires { PatientNeverRestarts driver.old }
    ensures runs { Runs patient_gives patient_device patient_restarts job driver.old result driver.new }
    ensures never { PatientNeverRestarts driver.new }
{
    patient_never_restarts_stays();
    driver.run(job)
}
