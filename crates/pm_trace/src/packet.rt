//! A packet by its bytes.
ghost use Rattle.std.specs.List.{list_all};
ghost use Rattle.std.specs.Prelude.{[], ◌≡◌, ◌==◌, ◌-◌, ◌/◌, ◌≤◌, IfSome, drop, is_some, length, nat_lt, option_map, slice_index, take, unwrap_or};
ghost use Rattle.pm_trace.specs.Otherwise.{IsCompleted, are_ones as spec_are_ones, ends_in_pec as spec_ends_in_pec, fewest_read as spec_fewest_read, fewest_written as spec_fewest_written, has_pec as spec_has_pec, is_all_ones as spec_is_all_ones, is_of_word as spec_is_of_word, last_part, shown_of as spec_shown_of};
ghost use Rattle.pm_frame.specs.Layout.{with_pec as spec_with_pec};

use arrayvec::ArrayVec;
use pm_frame::{pec, pec_after};
use pm_table::Code;

/// The bytes of a packet, as they went over the bus; they may be any.
#[derive(Clone, Copy, Debug)]
pub struct Packet<'a> {
    /// The write part: the address byte, the code, what is written, and maybe the PEC.
    pub write: &'a [u8],
    /// The read part, if there is one: the address byte, what was answered, and maybe the PEC.
    pub read: Option<&'a [u8]>,
}

impl Packet<'_> {
    /// The code, 0 if there is none.
    pub fn code(&self) -> u8
        ensures { result ≡ slice_index self.now.write.now 1 }
    {
        self.write.get(1).copied().unwrap_or(0)
    }

    /// The address, by the first byte; 0 if there is none.
    pub fn address(&self) -> u8
        ensures { result ≡ slice_index self.now.write.now 0 / 2 }
    {
        self.write.first().copied().unwrap_or(0) / 2
    }

    /// How many bytes were read after the address.
    pub(crate) fn answer_len(&self) -> usize
        ensures { result ≡ length (drop 1 (unwrap_or (option_map (λ bytes. bytes.now) self.now.read) [])) }
    {
        match self.read {
            Some([_, bytes @ ..]) => bytes.len(),
            _ => 0,
        }
    }

    /// Whether there is a read part.
    pub fn is_read(&self) -> bool
        ensures { result ≡ is_some (option_map (λ bytes. bytes.now) self.now.read) }
    {
        self.read.is_some()
    }

    /// Whether the last byte is the PEC of all bytes before it, and follows the code of a write, or the address of
    /// what was read, and as many bytes as the code has at least.
    pub fn has_pec(&self) -> bool
        ensures { result ≡ spec_has_pec self.now.write.now (option_map (λ bytes. bytes.now) self.now.read) }
    {
        match self.read {
            None => ends_in_pec(&[], fewest_written(self.code()) + 2, self.write),
            Some(read) => ends_in_pec(self.write, fewest_read(self.code()) + 1, read),
        }
    }

    /// Whether what was read after the address is nothing but FFh. An answer that ends in the right PEC isn't.
    pub fn is_all_ones(&self) -> bool
        ensures { result ≡ spec_is_all_ones self.now.write.now (option_map (λ bytes. bytes.now) self.now.read) }
    {
        match self.read {
            Some([_, bytes @ ..]) => are_ones(bytes) && !self.has_pec(),
            _ => false,
        }
    }

    /// The last part with the PEC that it would have, if it has fewer than 16 bytes.
    pub(crate) fn with_pec(&self) -> Option<ArrayVec<u8, 16>>
        ensures few { nat_lt (length (last_part self.now.write.now (option_map (λ bytes. bytes.now) self.now.read))) 16 ≡ is_some result }
        ensures part { IfSome result (λ part. IsCompleted self.now.write.now (option_map (λ bytes. bytes.now) self.now.read) part.items) }
    {
        match self.read {
            None => part_with_pec(&[], self.write),
            Some(read) => part_with_pec(self.write, read),
        }
    }
}

// A part with the PEC of what was before it and of its bytes, if it has fewer than 16.
fn part_with_pec(before: &[u8], part: &[u8]) -> Option<ArrayVec<u8, 16>>
    ensures few { nat_lt (length part.now) 16 ≡ is_some result }
    ensures part { IfSome result (λ made. made.items ≡ spec_with_pec before.now part.now) }
{
    if part.len() > 15 {
        return None;
    }
    let mut made = ArrayVec::new();
    made.try_extend_from_slice(part).unwrap();
    made.push(pec_after(pec(before), part));
    Some(made)
}

// Whether there is a byte, and each is FFh.
fn are_ones(bytes: &[u8]) -> bool
    ensures { result ≡ spec_are_ones bytes.now }
{
    !bytes.is_empty() && all_are_ones(bytes)
}

// Whether each byte is FFh.
fn all_are_ones(bytes: &[u8]) -> bool
    ensures { result ≡ list_all (λ byte. byte == 0xFF) bytes.now }
{
    bytes.iter().all(|byte| *byte == 0xFF)
}

// Whether the last byte of a part is the PEC of all bytes before it, and follows this many bytes of the part.
fn ends_in_pec(before: &[u8], fewest: usize, part: &[u8]) -> bool
    requires { fewest ≤ 4 }
    ensures { result ≡ spec_ends_in_pec before.now fewest part.now }
{
    if part.len() < fewest + 1 {
        return false;
    }
    let last = part.len() - 1;
    part[last] == pec_after(pec(before), &part[..last])
}

// How many bytes a code has at least, as far as that is judged: two of READ_VIN to READ_PIN, one of ON_OFF_CONFIG and of
// STATUS_IOUT to STATUS_FANS_3_4.
fn fewest_written(code: u8) -> usize
    ensures bytes { result ≡ spec_fewest_written code }
    ensures few { result ≤ 2 }
{
    if is_of_word(code) {
        2
    } else if code == 0x02 || (0x7B <= code && code <= 0x82) {
        1
    } else {
        0
    }
}

// How many an answer has at least.
fn fewest_read(code: u8) -> usize
    ensures bytes { result ≡ spec_fewest_read code }
    ensures few { result ≤ 2 }
{
    if is_of_word(code) { 2 } else { 1 }
}

// Whether a code's answer is a word: READ_VIN to READ_PIN.
fn is_of_word(code: u8) -> bool
    ensures { result ≡ spec_is_of_word code }
{
    Code::READ_VIN.0 <= code && code <= 0x97
}

// A part without its first bytes, and without its PEC if it ends in it.
#[tactic(auto, using(std::proofs::lemmas::List::drop_all))]
pub(crate) fn shown_of(fewest: usize, is_right: bool, part: &[u8]) -> &[u8]
    ensures { result.now ≡ spec_shown_of fewest is_right part.now }
{
    let shown = if is_right { without_last(part) } else { part };
    if shown.len() < fewest {
        &[]
    } else {
        &shown[fewest..]
    }
}

// The bytes before the last one.
pub(crate) fn without_last(part: &[u8]) -> &[u8]
    ensures { result.now ≡ take (length part.now - 1) part.now }
{
    match part {
        [front @ .., _] => front,
        [] => part,
    }
}
