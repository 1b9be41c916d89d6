//! Laws of buses: what happens to a converter in parts, put together.

ghost use Rattle.pm_driver.specs.Disturbed.{PartsCompose, RequestsMayBeLost};
ghost use Rattle.pm_driver.specs.NeverRestarts.{NeverRestartsStays, PatientNeverRestartsStays, ReadsKeepNeverRestarts};

use crate::buses::patient::Patient;
use crate::buses::simulated_bus::SimulatedBus;
use crate::{jobs_restart_nothing, reads_restart_nothing};

/// What happens to a converter in parts, put together: a write that is heard in two goes, and times in which it heard
/// nothing: before a write, before a request, or with no frame after them.
pub fn parts_compose()
    ensures { PartsCompose }
{
    requests_may_be_lost();
}

/// A request that is never sent, and of which nothing comes back, is one that a bus may lose: what a queue that gives
/// up, or a layer with too little room, answers by 0 bytes. Its `read` calls this law.
pub fn requests_may_be_lost()
    ensures { RequestsMayBeLost }
{}

/// Each job keeps what the host confirms true of the converter, over a plan without restarts.
pub fn never_restarts_stays()
    ensures { NeverRestartsStays }
{
    jobs_restart_nothing::<SimulatedBus<'static>>();
}

/// Each read that is no job keeps what the host confirms true of the converter, over a plan without restarts.
pub fn reads_keep_never_restarts()
    ensures { ReadsKeepNeverRestarts }
{
    reads_restart_nothing::<SimulatedBus<'static>>();
}

/// A job does over a patient bus too, which counts the restarts of its adapter.
pub fn patient_never_restarts_stays()
    ensures { PatientNeverRestartsStays }
{
    jobs_restart_nothing::<Patient<SimulatedBus<'static>>>();
}
