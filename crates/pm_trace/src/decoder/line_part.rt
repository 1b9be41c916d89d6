//! The first bytes of a part of a line.

ghost use Rattle.std.specs.Prelude.{◌≡◌, ◌≤◌, length};
ghost use Rattle.pm_lines.specs.Pairs.{paired_bytes, behind_pairs};

use pm_lines::{four_pairs, pair_of};
use std::marker::Model;

/// The most bytes that a part of a trace line may have.
pub const PART_BYTES: usize = 300;

/// The first bytes of a part, and whether it had more than one may have.
#[derive(Debug, Drop)]
pub struct LinePart {
    // The bytes, and room for more.
    bytes: [u8; PART_BYTES],
    length: usize,
    is_long: bool,
}

impl Model for LinePart {
    ghost use Rattle.std.specs.Prelude.{◌≤◌, take};
    ghost use Rattle.pm_trace.specs.Parts.{Collected};
    ghost use Rattle.pm_trace.specs.declared.decoder.line_part.TheConstants.{PART_BYTES};

    ghost Value = { Collected };

    ghost view = { λ p. record { bytes = take p.length p.bytes; is_long = p.is_long } };

    ghost invariant = { λ p. p.length ≤ PART_BYTES };
}

impl LinePart {
    ghost use Rattle.pm_lines.specs.Pairs.{paired_bytes, behind_pairs};
    ghost use Rattle.pm_trace.specs.Parts.{part_of, part_takes};
    ghost use Rattle.std.specs.List.{fold};
    ghost use Rattle.std.specs.Prelude.{[]};

    /// A part without bytes.
    #[tactic(auto, unfolding(crate::specs::Parts::part_of))]
    pub fn new() -> LinePart
        ensures { result ≡ part_of [] }
    {
        LinePart {
            bytes: [0; PART_BYTES],
            length: 0,
            is_long: false,
        }
    }

    /// Takes one byte more, of which only the first ones are kept.
    #[tactic(auto, unfolding(crate::specs::Parts::part_takes))]
    pub fn take(&mut self, byte: u8)
        ensures { self.new ≡ part_takes self.old byte }
    {
        if self.length == PART_BYTES {
            self.is_long = true;
            return;
        }
        self.bytes[self.length] = byte;
        self.length += 1;
    }

    // Takes four bytes more.
    #[tactic(auto, using(crate::proofs::Pieces::four_taken))]
    fn take_four(&mut self, first: u8, second: u8, third: u8, fourth: u8)
        ensures { self.new ≡ part_takes (part_takes (part_takes (part_takes self.old first) second) third) fourth }
    {
        let at = self.length;
        let end = at + 4;
        if end > PART_BYTES {
            self.take(first);
            self.take(second);
            self.take(third);
            self.take(fourth);
            return;
        }
        self.bytes[at] = first;
        self.bytes[at + 1] = second;
        self.bytes[at + 2] = third;
        self.bytes[at + 3] = fourth;
        self.length = end;
    }

    /// Takes the bytes that the pairs of digits at the front write, up to what is no such pair, and
    /// gives what follows them.
    pub(crate) fn take_pairs<'a>(&mut self, digits: &'a [u8]) -> &'a [u8]
        ensures taken { self.new ≡ fold part_takes self.old (paired_bytes digits.entry.now) }
        ensures rest { result.now ≡ behind_pairs digits.entry.now }
    {
        let mut rest = digits;
        'pairs: loop {
            rest = past_space(rest);
            // most bytes come as pairs with a space between them
            if let Some((first, second, third, fourth, more)) = four_pairs(rest) {
                self.take_four(first, second, third, fourth);
                rest = more;
                continue 'pairs;
            }
            match rest {
                [b'\n', ..] => return rest,
                [b' ', more @ ..] => rest = more,
                [high, low, more @ ..] => {
                    let Some(byte) = pair_of(*high, *low) else {
                        return rest;
                    };
                    self.take(byte);
                    rest = more;
                }
                _ => return rest,
            }
        }
    }

    /// Leaves no byte.
    #[tactic(auto, unfolding(crate::specs::Parts::part_of))]
    pub fn clear(&mut self)
        ensures { self.new ≡ part_of [] }
    {
        self.length = 0;
        self.is_long = false;
    }

    /// The bytes that were kept.
    pub fn bytes(&self) -> &[u8]
        ensures { result.now ≡ self.now.bytes }
    {
        &self.bytes[..self.length]
    }

    /// Whether it had more bytes than a part may have.
    pub fn is_long(&self) -> bool
        ensures { result ≡ self.now.is_long }
    {
        self.is_long
    }
}

// What follows the space that stands first, or all if none does.
fn past_space(digits: &[u8]) -> &[u8]
    ensures bytes { paired_bytes result.now ≡ paired_bytes digits.now }
    ensures rest { behind_pairs result.now ≡ behind_pairs digits.now }
    ensures fewer { length result.now ≤ length digits.now }
{
    match digits {
        [b' ', more @ ..] => more,
        _ => digits,
    }
}
