//! What came back for a question.

ghost use Rattle.std.specs.Prelude.{◌≡◌, ◌≤◌, length};
ghost use Rattle.pm_frame.specs.PagedRead.{paged_request as spec_paged_request};
ghost use Rattle.pm_table.specs.Address.{IsAddress};
ghost use Rattle.pm_delivery.specs.Questions.{answer_to_question, answers_off as spec_answers_off, question_code, question_size, word_in_payload};

use crate::question::Question;
use pm_frame::{paged_request, read_paged};
use pm_table::{Code, Operation};

/// The number of an answer that didn't come.
pub const NO_ANSWER: u8 = 1;

/// What is sent before the repeated start to ask a question of an output of the device of this address.
pub fn request(addr: u8, output: u8, question: Question) -> [u8; 5]
    requires { IsAddress addr }
    ensures { result ≡ spec_paged_request addr output (question_code question) }
{
    paged_request(addr, output, question.code().0)
}

/// What the bytes that came back say, the read address first: the word or byte of a good answer, or the number of what was wrong,
/// 1 if none came.
pub fn answer_of(addr: u8, output: u8, question: Question, bytes: &[u8]) -> Result<u16, u8>
    requires { IsAddress addr }
    ensures { result ≡ answer_to_question addr output question bytes.now }
{
    if bytes.is_empty() {
        return Err(NO_ANSWER);
    }
    match read_paged(
        addr,
        output,
        question.code().0,
        Some(question.size()),
        bytes,
    ) {
        Ok(payload) => Ok(word_of(payload)),
        Err(fault) => Err(fault.number()),
    }
}

/// Whether the bytes that came back for a read of an output's OPERATION, the read address first, are a good answer with a byte that leaves
/// the output off.
pub fn answers_off(addr: u8, output: u8, bytes: &[u8]) -> bool
    requires { IsAddress addr }
    ensures { result ≡ spec_answers_off addr output bytes.now }
{
    match read_paged(addr, output, Code::OPERATION.0, Some(1), bytes) {
        Ok(payload) => !Operation::has_on(word_of(payload)),
        Err(_) => false,
    }
}

// The word of one byte or two, the low one first.
fn word_of(payload: &[u8]) -> u16
    ensures { result ≡ word_in_payload payload.now }
{
    match payload {
        [] => 0,
        [low] => u16::from(*low),
        [low, high, ..] => u16::from(*low) + u16::from(*high) * 256,
    }
}
