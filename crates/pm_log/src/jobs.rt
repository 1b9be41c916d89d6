//! Which job begins with a message.

ghost use Rattle.std.specs.Prelude.{◌≡◌};
ghost use Rattle.pm_log.specs.Jobs as spec;

use pm_frame::{Message, Payload};
use pm_host::{Command, Job};
use pm_table::{Cell, Code, cell_of};

/// The job whose first frame has this message; `None` if no job begins with it. A job that a host holds open doesn't matter.
pub fn job_named(message: Message) -> Option<Job>
    ensures { result ≡ spec.job_of_message message }
{
    match message {
        Message::SendByte { code } => sent_job(Code(code), None),
        Message::WriteByte { code, byte } => order_of(Code(code), 0, u16::from(byte)),
        Message::PagePlusWrite {
            page,
            code,
            payload,
        } => written_job(page, Code(code), payload),
        Message::ReadCommand { code } => check_of(Code(code), 0),
        Message::PagePlusRead { page, code } => read_job(page, Code(code)),
        Message::WriteWord { .. } | Message::ReadCoefficients { .. } => None,
    }
}

// What a write at an output begins.
fn written_job(page: u8, code: Code, payload: Payload) -> Option<Job>
    ensures { result ≡ spec.written_at page code.0 payload }
{
    match payload {
        Payload::Empty => sent_job(code, Some(page)),
        Payload::Byte(byte) => order_of(code, page, u16::from(byte)),
        Payload::Word(word) => order_of(code, page, word),
    }
}

// What a command begins that is sent, at an output or at the device.
fn sent_job(code: Code, output: Option<u8>) -> Option<Job>
    ensures { result ≡ spec.sending_of_code code.0 output }
{
    match (code, output) {
        (Code::CLEAR_FAULTS, Some(output)) => Some(Job::Send(Command::ClearFaults { output })),
        (Code::STORE_USER_ALL, None) => Some(Job::Send(Command::StoreUserAll)),
        (Code::RESTORE_USER_ALL, None) => Some(Job::Send(Command::RestoreUserAll)),
        _ => None,
    }
}

// What a read at an output begins.
fn read_job(page: u8, code: Code) -> Option<Job>
    ensures { result ≡ spec.job_of_read page code.0 }
{
    if code == Code::VOUT_MODE {
        Some(Job::Learn(page))
    } else {
        check_of(code, page)
    }
}

// An order of the cell that the code writes.
fn order_of(code: Code, output: u8, word: u16) -> Option<Job>
    ensures { result ≡ spec.order_of_code code.0 output word }
{
    let cell = cell_of(code, output)?;
    Some(Job::Order(cell, word))
}

// A check of the cell that the code reads.
fn check_of(code: Code, output: u8) -> Option<Job>
    ensures { result ≡ spec.check_of code.0 output }
{
    let cell = cell_of(code, output)?;
    Some(Job::Check(cell))
}
