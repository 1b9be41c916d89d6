//! How packets were received: answers of nothing but FFh, and refusals.
ghost use Rattle.std.specs.Prelude.{◌≡◌, ◌≤◌, length, option_map};
ghost use Rattle.pm_trace.specs.ShownLines.{judged_in};
ghost use Rattle.pm_trace.specs.Trace.{parts_judged};
ghost use Rattle.pm_trace.specs.Answers.{is_written_back as spec_is_answer, leading_ones as spec_leading_ones, written_part as spec_written_part};
ghost use Rattle.pm_trace.specs.Otherwise.{are_strange, ones_are_answer as was_answered, is_heeded, is_refused};
ghost use Rattle.pm_trace.specs.Modes.{key_of as spec_key_of};

use crate::otherwise::completed_part;
use crate::packet::Packet;
use crate::{Shown, key_of};
use indexmap::IndexMap;
use pm_table::Code;
use std::alloc::{AllocError, Global};
use std::marker::Model;

/// The first byte of a packet that wasn't acknowledged.
#[derive(Clone, Copy, Debug, PartialEq, Eq)]
pub struct Refusal {
    /// Its place in its part.
    pub place: u16,
    /// It is in the read part.
    pub of_answer: bool,
}

/// How a packet was received, and what an answer of nothing but FFh is taken for.
#[derive(Clone, Copy, Debug, PartialEq, Eq)]
pub enum Ones {
    /// It was answered: ones are those that were written last to its code. Each other packet counts so too.
    Answer,
    /// Ones may be an answer: its address never sent a right PEC, or only the PEC is missing.
    Doubtful,
    /// Nobody answered.
    Nobody,
    /// A byte of it wasn't acknowledged.
    Refused(Refusal),
}

impl Ones {
    /// Whether the packet was answered, or taken.
    pub fn is_answer(self) -> bool
        ensures { result ≡ was_answered self }
    {
        matches!(self, Ones::Answer)
    }

    /// Whether its bytes say something: it was neither refused nor nobody's.
    pub fn is_heeded(self) -> bool
        ensures { result ≡ is_heeded self }
    {
        matches!(self, Ones::Answer | Ones::Doubtful)
    }

    /// Whether a byte of it wasn't acknowledged.
    pub fn is_refused(self) -> bool
        ensures { result ≡ is_refused self }
    {
        matches!(self, Ones::Refused(_))
    }

    /// Whether it is an answer of ones that is nobody's, or may be.
    pub(crate) fn are_strange(self) -> bool
        ensures { result ≡ are_strange self }
    {
        matches!(self, Ones::Doubtful | Ones::Nobody)
    }
}

/// The bytes that were written last to a code.
#[derive(Clone, Copy, Debug)]
pub(crate) struct WrittenOnes {
    // How many of the first ones are FFh.
    ones: usize,
    // How many there are; the last one may be the PEC.
    bytes: usize,
}

/// Which addresses sent a right PEC, what was written last to codes since one was written with FFh, and which codes were answered. It
/// takes memory for an address and a code that is new.
#[derive(Debug, Drop)]
pub struct Answers {
    checked: IndexMap<u8, bool>,
    written: IndexMap<u16, WrittenOnes>,
    answered: IndexMap<u16, bool>,
}

impl Model for Answers {
    ghost use Rattle.pm_trace.specs.Answers.{Answers};

    ghost Value = { Answers };

    ghost view = { λ a. record { checked = a.checked.entries; written = a.written.entries; answered = a.answered.entries } };
}

impl Answers {
    ghost use Rattle.indexmap.specs.IndexMap.{insert_entry};
    ghost use Rattle.std.specs.Map.{lookup};
    ghost use Rattle.std.specs.Prelude.{OnOk, Some, is_some, nat_eq, true};
    ghost use Rattle.pm_trace.specs.Answers.{answered_by, answers_by, checked_at, has_answered, none_heard, ones_at, ones_of, part_written};

    /// No answer yet. Takes no memory.
    pub fn new(alloc: Global) -> Answers
        ensures { result ≡ none_heard }
    {
        Answers {
            checked: IndexMap::new(alloc),
            written: IndexMap::new(alloc),
            answered: IndexMap::new(alloc),
        }
    }

    /// What the answer of a packet is taken for; `shown` is what it says.
    pub fn ones(&self, packet: &Packet<'_>, shown: &Shown<'_>) -> Ones
        requires { judged_in shown.now ≡ parts_judged packet.now.write.now (option_map (λ bytes. bytes.now) packet.now.read) }
        ensures { result ≡ ones_of self.now packet.now.write.now (option_map (λ bytes. bytes.now) packet.now.read) }
    {
        if packet.is_all_ones() {
            let lacks = completed_part(packet, shown, Ones::Answer).is_some();
            self.ones_at(packet.address(), packet.code(), packet.answer_len(), lacks)
        } else {
            Ones::Answer
        }
    }

    // What an answer of this many ones is taken for; `lacks` is whether it lacks just its PEC.
    fn ones_at(&self, addr: u8, code: u8, count: usize, lacks: bool) -> Ones
        ensures { result ≡ ones_at self.now addr code count lacks }
    {
        if is_answer(self.written.get(&key_of(addr, code)).copied(), count) {
            Ones::Answer
        } else if self.checked.get(&addr).is_some() && !lacks {
            Ones::Nobody
        } else {
            Ones::Doubtful
        }
    }

    /// Hears a clear packet; `is_checked` is whether its PEC is right, and its length known. Takes memory for an address and a code
    /// that is new.
    pub fn hear(&mut self, packet: &Packet<'_>, is_checked: bool) -> Result<(), AllocError>
        ensures { OnOk result (self.new ≡ answers_by packet.now.write.now (option_map (λ bytes. bytes.now) packet.now.read) is_checked self.old) }
    {
        match packet.read {
            None => {
                let (code, part) = written_part(packet.write);
                self.hear_write(packet.address(), code, part)
            }
            Some(_) => self.hear_answer(packet.address(), is_checked),
        }
    }

    /// Whether the address of a packet answered its code before, or took it.
    pub fn has_answered(&self, packet: &Packet<'_>) -> bool
        ensures { result ≡ has_answered self.now packet.now.write.now }
    {
        self.answered
            .get(&key_of(packet.address(), packet.code()))
            .is_some()
    }

    /// Hears that the address of a packet answered its code, or took it. Takes memory for a code that is new.
    pub fn hear_answered(&mut self, packet: &Packet<'_>) -> Result<(), AllocError>
        ensures { OnOk result (self.new ≡ answered_by packet.now.write.now self.old) }
    {
        let key = key_of(packet.address(), packet.code());
        if !self.is_first_answered(key) && self.answered.get(&key).is_none() {
            self.answered.insert(key, true)?;
        }
        Ok(())
    }

    // Whether the first code that was answered is this one, which needs no look-up then.
    fn is_first_answered(&self, key: u16) -> bool
        ensures { result ≡ true → is_some (lookup (nat_eq key) self.now.answered) ≡ true }
    {
        match self.answered.get_index(0) {
            Some((first, _)) => *first == key,
            None => false,
        }
    }

    // Hears an answer of an address.
    fn hear_answer(&mut self, addr: u8, is_checked: bool) -> Result<(), AllocError>
        ensures { OnOk result (self.new ≡ checked_at addr is_checked self.old) }
    {
        if is_checked && self.checked.get(&addr).is_none() {
            self.checked.insert(addr, true)?;
        }
        Ok(())
    }

    // Hears a write of a code, with the bytes after it.
    fn hear_write(&mut self, addr: u8, code: u8, part: &[u8]) -> Result<(), AllocError>
        ensures { OnOk result (self.new ≡ part_written addr (code, part.now) self.old) }
    {
        let ones = leading_ones(part);
        if ones == 0 && self.written.is_empty() {
            return Ok(());
        }
        let written = WrittenOnes {
            ones,
            bytes: part.len(),
        };
        let key = key_of(addr, code);
        if !self.is_first_written(key, written) {
            self.written.insert(key, written)?;
        }
        Ok(())
    }

    // Whether these bytes were written last to the first code that was written so, which needs no look-up then.
    #[tactic(auto, using(crate::proofs::ValueLemmas::kept_first))]
    fn is_first_written(&self, key: u16, written: WrittenOnes) -> bool
        ensures { result ≡ true → insert_entry nat_eq self.now.written key written ≡ self.now.written }
    {
        match self.written.get_index(0) {
            Some((first, last)) if *first == key && last.ones == written.ones => {
                last.bytes == written.bytes
            }
            _ => false,
        }
    }
}

// The code that a write carries, and its bytes.
fn written_part<'a>(write: &'a [u8]) -> (u8, &'a [u8])
    ensures { (result.0, result.1.now) ≡ spec_written_part write.entry.now }
{
    match write {
        [_, code, _, _, carried, bytes @ ..] if Code(*code) == Code::PAGE_PLUS_WRITE => {
            (*carried, bytes)
        }
        [_, code, bytes @ ..] => (*code, bytes),
        _ => (0, &[]),
    }
}

// Whether this many bytes of ones are those that were written last, of which the last one may have been the PEC.
fn is_answer(written: Option<WrittenOnes>, count: usize) -> bool
    ensures { result ≡ spec_is_answer written count }
{
    match written {
        Some(written) => {
            count <= written.ones && count <= written.bytes && written.bytes - count <= 1
        }
        None => false,
    }
}

// How many of the first bytes are FFh.
fn leading_ones(bytes: &[u8]) -> usize
    ensures ones { result ≡ spec_leading_ones bytes.now }
    ensures few { result ≤ length bytes.now }
{
    match bytes {
        [0xFF, rest @ ..] => leading_ones(rest) + 1,
        _ => 0,
    }
}
