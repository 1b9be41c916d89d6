//! For which registers a part answered, with the lines.
ghost use Rattle.std.specs.Prelude.{◌≡◌, None, true};
ghost use Rattle.pm_frame.specs.Fault.{answer_fault};
ghost use Rattle.pm_frame.specs.Layout.{fits_layout, is_read_message};
ghost use Rattle.pm_table.specs.Address.{IsAddress};
ghost use Rattle.pm_log.specs.Answered as spec;

use pm_frame::{Message, read_answer, read_request};
use pm_limits::PartRegisters;
use pm_table::{Cell, Code, Reg, cell_of};
use std::marker::Model;

/// The line of the last good answer for each cell.
#[derive(Debug, Drop)]
pub(crate) struct Answers {
    lines: [Option<u64>; Cell::PLACES],
}

impl Model for Answers {
    ghost use Rattle.std.specs.Prelude.{ℕ, List, Option};

    ghost Value = { List (Option ℕ) };

    ghost view = { λ a. a.lines };
}

impl Answers {
    ghost use Rattle.pm_log.specs.Answered.{answer_line, belied, belied_at, no_answers, with_answer};

    /// No answer.
    #[tactic(auto, unfolding(crate::specs::Answered::no_answers))]
    pub(crate) fn new() -> Answers
        ensures { result ≡ no_answers }
    {
        Answers {
            lines: [None; Cell::PLACES],
        }
    }

    /// The line with this number was an answer for the cell, if for one.
    pub(crate) fn add(&mut self, number: u64, cell: Option<Cell>)
        ensures { self.new ≡ with_answer number self.old cell }
    {
        if let Some(cell) = cell {
            if cell.is_there(8) {
                self.lines[cell.place()] = Some(number);
            }
        }
    }

    /// A register of an output that a part is said to lack, and for which it answered, with the line.
    pub(crate) fn belied(&self, part: PartRegisters, output: u8) -> Option<(Cell, u64)>
        ensures { result ≡ belied self.now part output }
    {
        self.belied_at(part, output, Reg::VoutMax)
            .or(self.belied_at(part, output, Reg::MarginHigh))
            .or(self.belied_at(part, output, Reg::MarginLow))
            .or(self.belied_at(part, output, Reg::VoutMin))
    }

    // The register, if it is said to be lacking and there was an answer for it.
    fn belied_at(&self, part: PartRegisters, output: u8, register: Reg) -> Option<(Cell, u64)>
        ensures { result ≡ belied_at self.now part output register }
    {
        if part.has(register) {
            return None;
        }
        let cell = Cell::Out(output, register);
        match self.line(cell) {
            Some(line) => Some((cell, line)),
            None => None,
        }
    }

    // The line of the last answer for the cell.
    fn line(&self, cell: Cell) -> Option<u64>
        ensures { result ≡ answer_line self.now cell }
    {
        if cell.is_there(8) {
            self.lines[cell.place()]
        } else {
            None
        }
    }
}

/// The cell for which the part at an address answered: this request was one for it, and these bytes are a good answer.
#[tactic(auto, unfolding(crate::specs::Answered::answered_cell))]
pub(crate) fn answered_cell(addr: u8, frame: &[u8], bytes: &[u8]) -> Option<Cell>
    requires { IsAddress addr }
    ensures { result ≡ spec.answered_cell addr frame.now bytes.now }
{
    match read_request(addr, frame) {
        Ok(view) => answered_by(addr, view.message(), bytes),
        Err(_) => None,
    }
}

// The cell for which these bytes are a good answer to a request.
fn answered_by(addr: u8, request: Message, bytes: &[u8]) -> Option<Cell>
    requires address { IsAddress addr }
    requires read { is_read_message request ≡ true }
    requires fits { fits_layout request ≡ true }
    ensures { result ≡ spec.cell_well_answered None (answer_fault addr request bytes.now) request }
{
    match read_answer(addr, &request, bytes) {
        Ok(_) => read_cell(request),
        Err(_) => None,
    }
}

// The cell that a read at an output reads.
fn read_cell(request: Message) -> Option<Cell>
    ensures { result ≡ spec.read_cell request }
{
    match request {
        Message::PagePlusRead { page, code } => cell_of(Code(code), page),
        _ => None,
    }
}
