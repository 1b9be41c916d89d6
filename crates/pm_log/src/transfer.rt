//! What a host learns of a transfer.
ghost use Rattle.std.specs.Prelude.{◌≡◌, Ok, Err, true, false, MatchResult};
ghost use Rattle.pm_table.specs.Address.{IsAddress};
ghost use Rattle.pm_host.specs.Told.{entry_told};
ghost use Rattle.pm_host.specs.Summary.{host_next};
ghost use Rattle.pm_log.specs.Jobs.{job_in_frame, write_job as spec_write_job, request_job as spec_request_job, asks_unknown_code as spec_is_beside};
ghost use Rattle.pm_log.specs.Replays.{begun_with_frame, frame_fits, free as spec_free, is_answer, transferred};
ghost use Rattle.pm_frame.specs.Fault.{write_fault, request_fault};
ghost use Rattle.pm_frame.specs.View.{message_in};
ghost use Rattle.pm_host.specs.Jobs.{begin_fault};

use crate::fault::LogFault;
use crate::jobs::job_named;
use crate::{Act, replay_act};
use pm_frame::{FrameFault, read_request, read_write};
use pm_host::{Host, Job, Told};

/// Has a host hear of a frame that was sent and what came of it: as the open job's next frame, or as the first one of the job
/// that it names, before which an open job is dropped by a restart. False if the host learns nothing: what is read beside
/// its jobs changes nothing.
///
/// # Errors
///
/// Why no host sends this frame. What the host then holds isn't said.
pub(crate) fn take_transfer(host: &mut Host, frame: &[u8], told: Told<'_>) -> Result<bool, LogFault>
    ensures { MatchResult result
        (λ is_told. transferred host.old frame.now (entry_told told.entry) ≡ Ok (host.new, is_told))
        (λ fault. transferred host.old frame.now (entry_told told.entry) ≡ Err fault) }
{
    if takes(host, frame, told) {
        return Ok(true);
    }
    match job_of(host, frame, told) {
        Ok(Some(job)) => begin(host, job, frame, told),
        Ok(None) => Ok(false),
        Err(fault) => Err(fault),
    }
}

// Whether the frame is the one that the host sends, which then hears what came of it.
fn takes(host: &mut Host, frame: &[u8], told: Told<'_>) -> bool
    ensures fits { result ≡ frame_fits host.old frame.now (entry_told told.entry) }
    ensures told { result ≡ true → host.new ≡ host_next host.old (entry_told told.entry) }
    ensures kept { result ≡ false → host.new ≡ host.old }
{
    replay_act(host, &Act::Sent(frame, told)).is_ok()
}

// A job begins with this frame.
fn begin(host: &mut Host, job: Job, frame: &[u8], told: Told<'_>) -> Result<bool, LogFault>
    ensures { MatchResult result
        (λ is_told. begun_with_frame (begin_fault (spec_free host.old) job) (spec_free host.old) job frame.now (entry_told told.entry)
        ≡ Ok (host.new, is_told))
        (λ fault. begun_with_frame (begin_fault (spec_free host.old) job) (spec_free host.old) job frame.now (entry_told told.entry)
        ≡ Err fault) }
{
    free(host);
    if let Err(fault) = host.begin(job) {
        return Err(LogFault::Refused(fault));
    }
    if takes(host, frame, told) {
        Ok(true)
    } else {
        Err(LogFault::NoJob)
    }
}

// No job is open then.
fn free(host: &mut Host)
    ensures { host.new ≡ spec_free host.old }
{
    if host.stage().is_some() {
        host.restart();
    }
}

// The job that a frame names; `None` of a read that is none of a job's.
fn job_of(host: &Host, frame: &[u8], told: Told<'_>) -> Result<Option<Job>, LogFault>
    ensures { result ≡ job_in_frame host.now.setup.addr frame.now (is_answer (entry_told told.entry)) }
{
    // law: the address of a host is one that a part may have
    let _state = host.state();
    match told {
        Told::Finished { .. } => write_job(host.address(), frame),
        Told::Got(_) => request_job(host.address(), frame),
    }
}

// The job that a write names.
fn write_job(addr: u8, frame: &[u8]) -> Result<Option<Job>, LogFault>
    requires { IsAddress addr }
    ensures { result ≡ spec_write_job (write_fault addr frame.now) (message_in frame.now) }
{
    match read_write(addr, frame) {
        Ok(view) => match job_named(view.message()) {
            Some(job) => Ok(Some(job)),
            None => Err(LogFault::NoJob),
        },
        Err(fault) => Err(LogFault::Frame(fault)),
    }
}

// The job that a request names. A code that the command table lacks names none, if it ends the request.
fn request_job(addr: u8, frame: &[u8]) -> Result<Option<Job>, LogFault>
    requires { IsAddress addr }
    ensures { result ≡ spec_request_job frame.now (request_fault addr frame.now) (message_in frame.now) }
{
    match read_request(addr, frame) {
        Ok(view) => Ok(job_named(view.message())),
        Err(fault) => {
            if is_beside(frame, fault) {
                Ok(None)
            } else {
                Err(LogFault::Frame(fault))
            }
        }
    }
}

// Whether the last byte of a request is a code that the command table lacks.
fn is_beside(frame: &[u8], fault: FrameFault) -> bool
    ensures { result ≡ spec_is_beside frame.now fault }
{
    match fault {
        FrameFault::UnknownCode(at) => at < frame.len() && at + 1 == frame.len(),
        _ => false,
    }
}
