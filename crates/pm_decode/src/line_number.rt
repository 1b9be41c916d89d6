//! The digits of a line's number, from line to line.

ghost use Rattle.std.specs.Prelude.{[], ◌≡◌, ◌+◌, ◌<◌, ◌^◌, ℕ, true, decimal, length, OnOk, OnErr};

use itoa::Buffer;
use std::alloc::{AllocError, Global};
use std::marker::Model;

/// The decimal digits of a line's number, kept for the next line: most lines have the next number, and nine in ten of these
/// differ in the last digit only.
#[derive(Debug, Drop)]
pub(crate) struct LineNumber {
    // None at first, and after memory for them was refused.
    digits: Vec<u8>,
    number: u64,
}

impl Model for LineNumber {
    ghost use Rattle.std.specs.Prelude.{◌≡◌, ◌<◌, ℕ, decimal, length};

    ghost Value = { ℕ };

    ghost view = { λ n. n.number };

    ghost invariant = { λ n. 0 < length n.digits.items → n.digits.items ≡ decimal n.number };
}

impl LineNumber {
    ghost use Rattle.std.specs.Prelude.{IfOk};

    /// No number yet. Takes no memory.
    pub(crate) fn new(alloc: Global) -> LineNumber {
        LineNumber {
            digits: Vec::new(alloc),
            number: 0,
        }
    }

    /// The digits of a number. Takes memory for them as they grow.
    pub(crate) fn digits(&mut self, number: u64) -> Result<&[u8], AllocError>
        ensures { IfOk result (λ digits. digits.now ≡ decimal number) }
    {
        if number == 0 || number - 1 != self.number || !count_up(&mut self.digits) {
            write_number(&mut self.digits, number)?;
        }
        self.number = number;
        Ok(&self.digits)
    }
}

// Makes a number's digits those of the next one, if only the last digit changes; otherwise they stay.
#[tactic(auto, using(crate::proofs::Shown::next_decimal))]
fn count_up(digits: &mut Vec<u8>) -> bool
    ensures up { result ≡ true → (number : ℕ) → number + 1 < 2 ^ 64 → digits.old.items ≡ decimal number
        → digits.new.items ≡ decimal (number + 1) }
    ensures some { result ≡ true → 0 < length digits.old.items }
{
    let Some(last) = digits.last_mut() else {
        return false;
    };
    if *last >= b'9' {
        return false;
    }
    *last += 1;
    true
}

// Writes a number's digits in the place of those that are there.
#[inline(never)]
fn write_number(digits: &mut Vec<u8>, number: u64) -> Result<(), AllocError>
    ensures all { OnOk result (digits.new.items ≡ decimal number) }
    ensures none { OnErr result (digits.new.items ≡ []) }
{
    let mut buffer = Buffer::new();
    digits.clear();
    digits.extend_from_slice(buffer.format(number).as_bytes())
}
