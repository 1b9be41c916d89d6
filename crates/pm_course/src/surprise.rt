//! An answer that shows that the part restarted or was exchanged.

ghost use Rattle.std.specs.Prelude.{◌≡◌, true, Some, None};
ghost use Rattle.pm_table.specs.Cell.{IsCell};
ghost use Rattle.pm_host.specs.Answers.{word_in as spec_word_in};
ghost use Rattle.pm_host.specs.Image.{held};
ghost use Rattle.pm_host.specs.Possible.{is_possible as spec_is_possible};
ghost use Rattle.pm_host.specs.Sound.{IsSound};
ghost use Rattle.pm_host.specs.Summary.{possible_at};
ghost use Rattle.pm_host.specs.Told.{entry_told, is_awaited};
ghost use Rattle.pm_frame.specs.Layout.{is_read_message};
ghost use Rattle.pm_host.specs.Summary.{stage_message};
ghost use Rattle.pm_course.specs.Heard.{bytes_fault, entry_fault};
ghost use Rattle.pm_course.specs.Surprise.{cell_of_read as spec_cell_read, is_word_new as is_new_in, looks_new as spec_looks_new, surprises as spec_surprises, surprises_at};
ghost use Rattle.pm_frame.specs.View.{answer_payload};
ghost use Rattle.pm_host.specs.Messages.{cell_read as message_of};

use crate::answer_fault::AnswerFault;
use pm_frame::read_answer;
use pm_host::{Question, Stage, State, Told};
use pm_table::Cell;

/// Whether what came back for the frame of a stage is a good answer with a word that its cell couldn't hold, by what the host
/// knows before it hears the answer. The part then restarted or was exchanged since the cell was read.
pub fn surprises(host: &State, stage: Stage, told: Told<'_>) -> bool
    requires sound { IsSound (held (Some stage) host.now) }
    requires awaited { is_awaited stage told ≡ true }
    ensures { result ≡ spec_surprises (held (Some stage) host.now) stage (entry_told told.entry) }
{
    notices(host, stage, told).surprised
}

/// What a course notes of what became of a frame.
#[derive(Clone, Copy, Debug, PartialEq, Eq)]
pub struct Noticed {
    /// Whether it [`surprises`].
    pub surprised: bool,
    /// What was wrong with it.
    pub fault: Option<AnswerFault>,
}

/// What a course is to note of what became of the frame of a stage, by what the host knows before it hears that.
pub fn notices(host: &State, stage: Stage, told: Told<'_>) -> Noticed
    requires sound { IsSound (held (Some stage) host.now) }
    requires awaited { is_awaited stage told ≡ true }
    ensures surprised { result.surprised ≡ spec_surprises (held (Some stage) host.now) stage (entry_told told.entry) }
    ensures fault { result.fault ≡ entry_fault host.now.address stage (entry_told told.entry) }
{
    match told {
        Told::Finished { acked: true } => Noticed {
            surprised: false,
            fault: None,
        },
        Told::Finished { acked: false } => Noticed {
            surprised: false,
            fault: Some(AnswerFault::NotAcknowledged),
        },
        Told::Got(bytes) => noticed_in(host, stage, bytes),
    }
}

// What is to be noted of what came back for the request of a stage.
#[tactic(auto, unfolding(pm_host::specs::Answers::good_payload))]
fn noticed_in(host: &State, stage: Stage, bytes: &[u8]) -> Noticed
    requires sound { IsSound (held (Some stage) host.now) }
    requires read { is_read_message (stage_message stage) ≡ true }
    ensures surprised { result.surprised ≡ surprises_at (held (Some stage) host.now) (spec_cell_read stage) bytes.now }
    ensures fault { result.fault ≡ bytes_fault host.now.address (stage_message stage) bytes.now }
{
    match read_answer(host.address, &stage.message(), bytes) {
        Ok(payload) => Noticed {
            surprised: is_new(host, stage, payload),
            fault: None,
        },
        Err(_) if bytes.is_empty() => Noticed {
            surprised: false,
            fault: Some(AnswerFault::NoAnswer),
        },
        Err(fault) => Noticed {
            surprised: false,
            fault: AnswerFault::of_frame(fault),
        },
    }
}

// Whether the cell that a stage reads couldn't hold the word of a payload.
fn is_new(host: &State, stage: Stage, payload: &[u8]) -> bool
    requires sound { IsSound (held (Some stage) host.now) }
    ensures { result ≡ is_new_in (held (Some stage) host.now) (spec_cell_read stage) payload.now }
{
    match cell_read(stage) {
        Some(cell) => !is_possible(host, cell, word_in(payload)),
        None => false,
    }
}

// The cell whose word is read by the frame of a stage.
fn cell_read(stage: Stage) -> Option<Cell>
    ensures { result ≡ spec_cell_read stage }
{
    match stage {
        Stage::Reads { cell, .. } => Some(cell),
        Stage::Asks { question, .. } => match question {
            Question::Word(cell) => Some(cell),
            Question::Mode(_) | Question::Coefficients(_) => None,
        },
        Stage::Writes { .. } | Stage::Sends { .. } => None,
    }
}

/// Whether a cell couldn't hold the word that came back for a check of it, if the answer is good. That isn't judged here.
pub(crate) fn looks_new(host: &State, cell: Cell, bytes: &[u8]) -> bool
    requires { IsCell 8 cell }
    ensures { result ≡ spec_looks_new (held None host.now) cell bytes.now }
{
    !is_possible(host, cell, word_in(payload_in(cell, bytes)))
}

// What stands where the payload of a good answer does.
fn payload_in<'a>(cell: Cell, bytes: &'a [u8]) -> &'a [u8]
    ensures { result.now ≡ answer_payload (message_of cell) bytes.entry.now }
{
    let place = match cell {
        Cell::Out(..) => 2,
        Cell::Protect => 1,
    };
    if bytes.len() <= place {
        &bytes[..0]
    } else {
        &bytes[place..bytes.len() - 1]
    }
}

// Whether a cell may hold this word.
fn is_possible(host: &State, cell: Cell, word: u16) -> bool
    requires { IsCell 8 cell }
    ensures { result ≡ spec_is_possible word (possible_at (held None host.now) cell) }
{
    host.known.possible(cell).allows(word)
}

// The word of a payload of one byte or two, low byte first.
fn word_in(payload: &[u8]) -> u16
    ensures { result ≡ spec_word_in payload.now }
{
    match payload {
        [] => 0,
        [byte] => u16::from(*byte),
        [low, high, ..] => u16::from_le_bytes([*low, *high]),
    }
}
