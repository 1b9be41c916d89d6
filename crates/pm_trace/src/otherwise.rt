//! Packets that the command table doesn't have with their bytes: those that lack their PEC, and those that are shown by
//! their code and bytes.
ghost use Rattle.std.specs.Prelude.{◌≡◌, ◌++◌, ◌&&◌, ◌||◌, not, IfSome, is_some, option_map, slice_index, string_bytes, OnOk};
ghost use Rattle.pm_trace.specs.ShownLines.{judged_in};
ghost use Rattle.pm_trace.specs.Trace.{parts_judged};
ghost use Rattle.pm_trace.specs.Contents.{content_in};
ghost use Rattle.pm_trace.specs.Otherwise.{IsCompleted, address_otherwise as spec_address_otherwise, carried_by, content_meaning, content_page, content_text, has_address_and_code as spec_has_code, is_accepted, are_strange, is_miscounted as spec_is_miscounted, is_of_code as spec_is_of_code, is_read_from, is_short as spec_is_short, judged_with, lacks_pec, letters_text, named_by, ones_text, other_text, sent_text, spaced, pec_verdict_text, written_bytes_text};

use crate::answers::Ones;
use crate::code_names::standard_name;
use crate::content::Content;
use crate::packet::Packet;
use crate::{Shown, other_value, packet_shown, push_known};
use arrayvec::ArrayVec;
use pm_frame::FrameFault;
use pm_lines::{push_decimal, push_hex};
use pm_table::Code;
use std::alloc::AllocError;

/// How a packet is shown by its code and bytes.
#[derive(Clone, Copy, Debug)]
pub struct Otherwise {
    /// What the bytes say is shown too.
    pub values: bool,
    /// The address.
    pub addr: u8,
    /// The output that PAGE selects, if that is followed.
    pub reached: Option<u8>,
    /// What an answer of ones is taken for.
    pub ones: Ones,
}

/// The last part of a packet with its PEC, if it lacks only its PEC; `shown` is what it says without, and `ones`
/// what an answer of ones is taken for.
pub fn completed_part(
    packet: &Packet<'_>,
    shown: &Shown<'_>,
    ones: Ones,
) -> Option<ArrayVec<u8, 16>>
    requires { judged_in shown.now ≡ parts_judged packet.now.write.now (option_map (λ bytes. bytes.now) packet.now.read) }
    ensures lacks { is_some result ≡ lacks_pec ones packet.now.write.now (option_map (λ bytes. bytes.now) packet.now.read) }
    ensures part { IfSome result (λ part.
        IsCompleted packet.now.write.now (option_map (λ bytes. bytes.now) packet.now.read) part.items) }
{
    if !is_short(shown) {
        return None;
    }
    let part = packet.with_pec()?;
    if !matches!(ones, Ones::Nobody) && is_good_with(packet.write, packet.is_read(), &part) {
        Some(part)
    } else {
        None
    }
}

/// What a packet says with this last part, which is read or written.
pub fn shown_with<'a>(write: &'a [u8], is_read: bool, part: &'a [u8]) -> Shown<'a>
    ensures { judged_in result ≡ judged_with write.entry.now is_read part.entry.now }
{
    if is_read {
        packet_shown(write, Some(part))
    } else {
        packet_shown(part, None)
    }
}

// Whether a packet ends too early.
fn is_short(shown: &Shown<'_>) -> bool
    ensures { result ≡ spec_is_short (judged_in shown.now) }
{
    match shown {
        Shown::Faulty {
            addr: _,
            read: _,
            fault,
        } => matches!(fault, FrameFault::Short(_)),
        _ => false,
    }
}

// Whether a packet is good with this last part.
fn is_good_with(write: &[u8], is_read: bool, part: &[u8]) -> bool
    ensures { result ≡ is_accepted (judged_with write.now is_read part.now) }
{
    matches!(shown_with(write, is_read, part), Shown::Accepted { .. })
}

/// The address of a packet that is shown by its code and bytes: it has a fault of its code, its direction or its length, or
/// maybe nobody answered, and it has an address and a code. A write of PAGE_PLUS isn't shown so if its count says that its last
/// byte is the PEC, which is wrong.
pub fn address_otherwise(packet: &Packet<'_>, shown: &Shown<'_>, ones: Ones) -> Option<u8>
    ensures { result ≡ spec_address_otherwise ones packet.now.write.now (option_map (λ bytes. bytes.now) packet.now.read)
        (judged_in shown.now) }
{
    match shown {
        Shown::Faulty {
            addr: Some(addr),
            read: _,
            fault,
        } if has_code(packet) && is_otherwise(packet, *fault, ones) => Some(*addr),
        _ => None,
    }
}

// Whether a fault is of a packet's code, direction or length, or maybe nobody answered.
fn is_otherwise(packet: &Packet<'_>, fault: FrameFault, ones: Ones) -> bool
    ensures { result ≡ ((spec_is_of_code (slice_index packet.now.write.now 1) (option_map (λ bytes. bytes.now) packet.now.read) fault
        || are_strange ones) && not (spec_is_miscounted packet.now.write.now (option_map (λ bytes. bytes.now) packet.now.read))) }
{
    (is_of_code(packet.code(), packet.read, fault) || ones.are_strange()) && !is_miscounted(packet)
}

// Whether a packet is a write of PAGE_PLUS whose count says that its last byte is the PEC, which is wrong.
fn is_miscounted(packet: &Packet<'_>) -> bool
    ensures { result ≡ spec_is_miscounted packet.now.write.now (option_map (λ bytes. bytes.now) packet.now.read) }
{
    if packet.read.is_some() || Code(packet.code()) != Code::PAGE_PLUS_WRITE {
        return false;
    }
    let count = packet.write.get(2).copied().unwrap_or(0);
    usize::from(count) + 4 == packet.write.len() && !packet.has_pec()
}

// Whether a fault is of another code or another length than the table has, or of the other direction.
fn is_of_code(code: u8, read: Option<&[u8]>, fault: FrameFault) -> bool
    ensures { result ≡ spec_is_of_code code (option_map (λ bytes. bytes.now) read.entry) fault }
{
    match fault {
        FrameFault::Short(_)
        | FrameFault::Long(_)
        | FrameFault::WrongCount(_)
        | FrameFault::UnknownCode(_)
        | FrameFault::WrongDirection(_)
        | FrameFault::Nested(_) => true,
        FrameFault::WrongPec(_) => read.is_none() && !Code(code).is_written(),
        FrameFault::NotOurs => false,
    }
}

// Whether a packet has an address and a code, and what was read begins with that address.
fn has_code(packet: &Packet<'_>) -> bool
    ensures { result ≡ spec_has_code packet.now.write.now (option_map (λ bytes. bytes.now) packet.now.read) }
{
    match packet.write {
        [first, _, ..] => reads_from(*first, packet.read),
        _ => false,
    }
}

// Whether the read part, if there is one, begins with the address byte that belongs to this one.
fn reads_from(first: u8, read: Option<&[u8]>) -> bool
    ensures { result ≡ is_read_from first (option_map (λ bytes. bytes.now) read.entry) }
{
    match read {
        None => true,
        Some([]) => false,
        Some([byte, ..]) => u16::from(*byte) == u16::from(first) + 1,
    }
}

/// Appends bytes in hexadecimal to a text, each with a space before it.
#[tactic(auto, using(pm_lines::specs::Lemmas::Joins::joins))]
pub fn push_spaced(text: &mut String, bytes: &[u8]) -> Result<(), AllocError>
    ensures { OnOk result (string_bytes text.new ≡ string_bytes text.old ++ spaced bytes.now) }
{
    let [byte, rest @ ..] = bytes else {
        return Ok(());
    };
    text.push_str(" ")?;
    push_hex(text, *byte)?;
    push_spaced(text, rest)
}

/// Appends a packet by its code and bytes to a text.
#[tactic(auto, using(pm_lines::specs::Lemmas::Joins::joins), unfolding(crate::specs::Otherwise::other_text))]
pub fn push_otherwise(
    text: &mut String,
    otherwise: &Otherwise,
    packet: &Packet<'_>,
) -> Result<(), AllocError>
    ensures { OnOk result (string_bytes text.new ≡ string_bytes text.old
        ++ other_text otherwise.now packet.now.write.now (option_map (λ bytes. bytes.now) packet.now.read)) }
{
    let has_pec = packet.has_pec();
    push_hex(text, otherwise.addr)?;
    push_content(
        text,
        otherwise.values,
        otherwise.reached,
        &packet.content(has_pec),
    )?;
    text.push_str(verdict(has_pec, otherwise.ones))
}

// What is said of a packet's PEC.
fn verdict(is_right: bool, ones: Ones) -> &'static str
    ensures { result.now ≡ pec_verdict_text is_right ones }
{
    if is_right {
        ", PEC right"
    } else {
        ones_words(ones)
    }
}

/// What is said of a packet that has no right PEC.
pub fn ones_words(ones: Ones) -> &'static str
    ensures { result.now ≡ ones_text ones }
{
    match ones {
        Ones::Answer | Ones::Refused(_) => ", no PEC",
        Ones::Doubtful => ", all ones: nobody answered?",
        Ones::Nobody => ", all ones: nobody answered",
    }
}

// The page, the code and the bytes of a packet, and what they say.
#[tactic(auto, using(pm_lines::specs::Lemmas::Joins::joins), unfolding(crate::specs::Otherwise::content_text))]
fn push_content(
    text: &mut String,
    values: bool,
    reached: Option<u8>,
    content: &Content<'_>,
) -> Result<(), AllocError>
    ensures { OnOk result (string_bytes text.new ≡ string_bytes text.old ++ content_text values reached (content_in content.now)) }
{
    push_page(text, reached, content.page)?;
    text.push_str(" code ")?;
    push_hex(text, content.code)?;
    push_named(text, standard_name(content.code))?;
    push_carried(text, content.written, content.answer)?;
    push_meaning(text, values, content)
}

// The page of a carried code, or with a question mark the output that PAGE selects.
#[tactic(auto, using(pm_lines::specs::Lemmas::Joins::joins))]
fn push_page(text: &mut String, reached: Option<u8>, named: Option<u8>) -> Result<(), AllocError>
    ensures { OnOk result (string_bytes text.new ≡ string_bytes text.old ++ content_page reached named) }
{
    match (reached, named) {
        (Some(page), _) => {
            text.push_str(" page ")?;
            push_decimal(text, u64::from(page))?;
            text.push_str("?")
        }
        (None, None) => Ok(()),
        (None, Some(page)) => {
            text.push_str(" page ")?;
            push_decimal(text, u64::from(page))
        }
    }
}

// The name of a code, if it has one.
#[tactic(auto, using(pm_lines::specs::Lemmas::Joins::joins))]
fn push_named(text: &mut String, name: &str) -> Result<(), AllocError>
    ensures { OnOk result (string_bytes text.new ≡ string_bytes text.old ++ named_by name.now) }
{
    if name.is_empty() {
        return Ok(());
    }
    text.push_str(" ")?;
    text.push_str(name)
}

/// Appends what was written and read to a text: ` write 20 read 14`, or ` send` if there is nothing.
#[tactic(auto, using(pm_lines::specs::Lemmas::Joins::joins))]
pub fn push_carried(
    text: &mut String,
    written: &[u8],
    answer: Option<&[u8]>,
) -> Result<(), AllocError>
    ensures { OnOk result (string_bytes text.new ≡ string_bytes text.old
        ++ carried_by written.now (option_map (λ bytes. bytes.now) answer.entry)) }
{
    match answer {
        None => push_sent(text, written),
        Some(answer) => {
            push_written(text, written)?;
            text.push_str(" read")?;
            push_spaced(text, answer)
        }
    }
}

// What the bytes say, if that is asked for.
fn push_meaning(text: &mut String, values: bool, content: &Content<'_>) -> Result<(), AllocError>
    ensures { OnOk result (string_bytes text.new ≡ string_bytes text.old ++ content_meaning values (content_in content.now)) }
{
    if !values {
        return Ok(());
    }
    match content.letters() {
        Some(letters) => push_letters(text, letters),
        None => push_known(text, other_value(content.code, content.said())),
    }
}

// Letters in quotation marks.
#[tactic(auto, using(pm_lines::specs::Lemmas::Joins::joins))]
fn push_letters(text: &mut String, letters: &str) -> Result<(), AllocError>
    ensures { OnOk result (string_bytes text.new ≡ string_bytes text.old ++ letters_text letters.now) }
{
    text.push_str(" \"")?;
    text.push_str(letters)?;
    text.push_str("\"")
}

// What was written, or that nothing was.
fn push_sent(text: &mut String, bytes: &[u8]) -> Result<(), AllocError>
    ensures { OnOk result (string_bytes text.new ≡ string_bytes text.old ++ sent_text bytes.now) }
{
    if bytes.is_empty() {
        return text.push_str(" send");
    }
    push_written(text, bytes)
}

// What was written, if anything was.
#[tactic(auto, using(pm_lines::specs::Lemmas::Joins::joins))]
fn push_written(text: &mut String, bytes: &[u8]) -> Result<(), AllocError>
    ensures { OnOk result (string_bytes text.new ≡ string_bytes text.old ++ written_bytes_text bytes.now) }
{
    if bytes.is_empty() {
        return Ok(());
    }
    text.push_str(" write")?;
    push_spaced(text, bytes)
}
