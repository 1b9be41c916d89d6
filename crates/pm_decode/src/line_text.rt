//! The text of a line.
ghost use Rattle.std.specs.Prelude.{◌≡◌, ◌++◌, [], ℕ, ℤ, true, Option, Err, Ok, OnOk, codes, decimal, option_map, string_bytes};
ghost use Rattle.pm_trace.specs.ShownLines.{judged_in};
ghost use Rattle.pm_trace.specs.Trace.{reading_judged};
ghost use Rattle.pm_trace.specs.TraceText.{judged_text};
ghost use Rattle.pm_trace.specs.Taught.{Taught};
ghost use Rattle.pm_decode.specs.CaptureText.{assumed_text, bytes_text, changed_text, extra_text, failed_line, forbidden_text, json_failed, plain_failed, json_line, lack_text, marks_text, phase_text, plain_capture_line, meaning_text, otherwise_by as spec_otherwise_by, packet_fields_by, packet_text_by, reached_text, read_bytes_text, received_text, refused_words as spec_refused_words, time_text, told_line, two_lines, wrong_text};
ghost use Rattle.pm_decode.specs.Readings.{judged_by, other_address};
ghost use Rattle.pm_decode.specs.Hearing.{time_since};
ghost use Rattle.pm_decode.specs.ShownReadings.{packet_in};
ghost use Rattle.pm_decode.specs.declared.page_steps.Marks.{Marks};

use crate::{
    Marks, PacketLine, TellOptions, Why, push_judged_fields, push_lack_field, push_marks_fields,
    push_other_fields, push_signed_field_if, push_text_field,
};
use pm_lines::{TextFault, push_decimal, push_hex, push_signed};
use pm_trace::{
    GoodPacket, Lessons, LineFault, Ones, Otherwise, Packet, Shown, ones_words, packet_value,
    push_known, push_otherwise, push_packet, push_shown, push_spaced,
};
use std::alloc::AllocError;

/// Appends a line that can't be read to a text, with its number and without a line feed.
#[tactic(auto, unfolding(crate::specs::CaptureText::told_line))]
pub(crate) fn push_bad_line(
    text: &mut String,
    options: &TellOptions,
    number: u64,
    fault: LineFault,
) -> Result<(), AllocError>
    ensures { OnOk result ((taught : Taught) (marks : Marks) (time : Option ℤ) → string_bytes text.new ++ codes "\n"
        ≡ string_bytes text.old ++ told_line options.now taught marks number time (Err fault)) }
{
    if options.json {
        push_bad_json(text, options, number, fault)
    } else {
        push_bad_plain(text, options, number, fault)
    }
}

// A bad line as an object of JSON.
#[tactic(auto, using(pm_lines::specs::Lemmas::Joins::joins), unfolding(crate::specs::CaptureText::json_line))]
fn push_bad_json(
    text: &mut String,
    options: &TellOptions,
    number: u64,
    fault: LineFault,
) -> Result<(), AllocError>
    ensures { OnOk result ((taught : Taught) (marks : Marks) (time : Option ℤ) → string_bytes text.new ++ codes "\n"
        ≡ string_bytes text.old ++ json_line options.now taught marks number time (Err fault)) }
{
    text.push_str("{\"line\":")?;
    push_decimal(text, number)?;
    push_text_field(text, "fault", fault_words(number, fault))?;
    text.push_str("}")
}

// A bad line as it is shown to a person.
#[tactic(auto, using(pm_lines::specs::Lemmas::Joins::joins), unfolding(crate::specs::CaptureText::plain_capture_line))]
fn push_bad_plain(
    text: &mut String,
    options: &TellOptions,
    number: u64,
    fault: LineFault,
) -> Result<(), AllocError>
    ensures { OnOk result ((taught : Taught) (marks : Marks) (time : Option ℤ) → string_bytes text.new ++ codes "\n"
        ≡ string_bytes text.old ++ plain_capture_line options.now taught marks number time (Err fault)) }
{
    push_decimal(text, number)?;
    text.push_str(" ")?;
    text.push_str(fault_words(number, fault))
}

// The words of a fault of the line of this number.
fn fault_words(number: u64, fault: LineFault) -> &'static str
    ensures { result.now ≡ judged_text number (reading_judged (Err fault)) }
{
    match fault {
        LineFault::Syntax => TextFault::Syntax(number).words(),
        LineFault::BadHex => TextFault::BadHex(number).words(),
    }
}

/// Appends the line of a transfer that failed to a text, with its number and time.
pub(crate) fn push_failed(
    text: &mut String,
    json: bool,
    number: u64,
    time: Option<i128>,
    why: Why,
) -> Result<(), AllocError>
    ensures { OnOk result (string_bytes text.new ≡ string_bytes text.old ++ failed_line json number time why) }
{
    if json {
        push_failed_json(text, number, time, why)
    } else {
        push_failed_plain(text, number, time, why)
    }
}

// A transfer that failed as an object of JSON.
#[tactic(auto, using(pm_lines::specs::Lemmas::Joins::joins), unfolding(crate::specs::CaptureText::json_failed))]
fn push_failed_json(
    text: &mut String,
    number: u64,
    time: Option<i128>,
    why: Why,
) -> Result<(), AllocError>
    ensures { OnOk result (string_bytes text.new ≡ string_bytes text.old ++ json_failed number time why) }
{
    text.push_str("{\"line\":")?;
    push_decimal(text, number)?;
    push_signed_field_if(text, "time", time)?;
    push_text_field(text, "failed", why.words())?;
    text.push_str("}\n")
}

// A transfer that failed as it is shown to a person.
#[tactic(auto, using(pm_lines::specs::Lemmas::Joins::joins), unfolding(crate::specs::CaptureText::plain_failed))]
fn push_failed_plain(
    text: &mut String,
    number: u64,
    time: Option<i128>,
    why: Why,
) -> Result<(), AllocError>
    ensures { OnOk result (string_bytes text.new ≡ string_bytes text.old ++ plain_failed number time why) }
{
    push_decimal(text, number)?;
    push_time(text, time)?;
    text.push_str(" failed: ")?;
    text.push_str(why.words())?;
    text.push_str("\n")
}

/// Appends a packet's line to a text, with its number and without a line feed: as the command table has the packet, or by
/// its address, code and bytes.
#[tactic(auto, unfolding(crate::specs::CaptureText::told_line))]
pub(crate) fn push_packet_line(
    text: &mut String,
    options: &TellOptions,
    lessons: &Lessons,
    marks: &Marks,
    first: Option<u64>,
    line: &PacketLine<'_>,
) -> Result<(), AllocError>
    requires shown { judged_in line.now.shown.now ≡ judged_by options.now.all marks.now.ones (packet_in line.now.packet) }
    requires other { line.now.other ≡ other_address options.now.all marks.now.ones (packet_in line.now.packet) }
    ensures { OnOk result (string_bytes text.new ++ codes "\n" ≡ string_bytes text.old
        ++ told_line options.now lessons.now marks.now line.now.number (time_since first line.now.time) (Ok (packet_in line.now.packet))) }
{
    if options.json {
        push_packet_json(text, options, lessons, marks, first, line)
    } else {
        push_packet_plain(text, options, lessons, marks, first, line)
    }
}

// The packet as an object of JSON.
#[tactic(auto, using(pm_lines::specs::Lemmas::Joins::joins), unfolding(crate::specs::CaptureText::json_line))]
fn push_packet_json(
    text: &mut String,
    options: &TellOptions,
    lessons: &Lessons,
    marks: &Marks,
    first: Option<u64>,
    line: &PacketLine<'_>,
) -> Result<(), AllocError>
    requires shown { judged_in line.now.shown.now ≡ judged_by options.now.all marks.now.ones (packet_in line.now.packet) }
    requires other { line.now.other ≡ other_address options.now.all marks.now.ones (packet_in line.now.packet) }
    ensures { OnOk result (string_bytes text.new ++ codes "\n" ≡ string_bytes text.old
        ++ json_line options.now lessons.now marks.now line.now.number (time_since first line.now.time) (Ok (packet_in line.now.packet))) }
{
    text.push_str("{\"line\":")?;
    push_decimal(text, line.number)?;
    push_signed_field_if(text, "time", since_first(first, line.time))?;
    push_packet_fields(text, options, lessons, marks, line)?;
    text.push_str("}")
}

// The fields of a packet.
#[tactic(auto, using(pm_lines::specs::Lemmas::Joins::joins))]
fn push_packet_fields(
    text: &mut String,
    options: &TellOptions,
    lessons: &Lessons,
    marks: &Marks,
    line: &PacketLine<'_>,
) -> Result<(), AllocError>
    requires shown { judged_in line.now.shown.now ≡ judged_by options.now.all marks.now.ones (packet_in line.now.packet) }
    ensures { OnOk result (string_bytes text.new ≡ string_bytes text.old
        ++ packet_fields_by options.now lessons.now marks.now line.now.number (packet_in line.now.packet) line.now.other) }
{
    match line.other {
        None => {
            push_judged_fields(text, options, lessons, marks, line)?;
            push_lack_field(text, marks)?;
            push_marks_fields(text, line.number, line.packet.write, marks)
        }
        Some(addr) => {
            push_other_fields(text, &otherwise_by(options, marks, addr), &line.packet)?;
            push_marks_fields(text, line.number, line.packet.write, marks)
        }
    }
}

// The packet as it is shown to a person.
#[tactic(auto, using(pm_lines::specs::Lemmas::Joins::joins), unfolding(crate::specs::CaptureText::plain_capture_line))]
fn push_packet_plain(
    text: &mut String,
    options: &TellOptions,
    lessons: &Lessons,
    marks: &Marks,
    first: Option<u64>,
    line: &PacketLine<'_>,
) -> Result<(), AllocError>
    requires shown { judged_in line.now.shown.now ≡ judged_by options.now.all marks.now.ones (packet_in line.now.packet) }
    requires other { line.now.other ≡ other_address options.now.all marks.now.ones (packet_in line.now.packet) }
    ensures { OnOk result (string_bytes text.new ++ codes "\n" ≡ string_bytes text.old
        ++ plain_capture_line options.now lessons.now marks.now line.now.number (time_since first line.now.time)
        (Ok (packet_in line.now.packet))) }
{
    push_decimal(text, line.number)?;
    if line.time.is_some() {
        push_time(text, since_first(first, line.time))?;
    }
    text.push_str(" ")?;
    push_packet_text(text, options, lessons, marks, line)
}

// The text of a packet.
#[tactic(auto, using(pm_lines::specs::Lemmas::Joins::joins))]
fn push_packet_text(
    text: &mut String,
    options: &TellOptions,
    lessons: &Lessons,
    marks: &Marks,
    line: &PacketLine<'_>,
) -> Result<(), AllocError>
    requires shown { judged_in line.now.shown.now ≡ judged_by options.now.all marks.now.ones (packet_in line.now.packet) }
    ensures { OnOk result (string_bytes text.new ≡ string_bytes text.old
        ++ packet_text_by options.now lessons.now marks.now line.now.number (packet_in line.now.packet) line.now.other) }
{
    match line.other {
        None => {
            push_reached(text, marks.reached, line.number, line.shown)?;
            push_extra(text, options, lessons, marks, line)?;
            push_lack(text, marks)?;
        }
        Some(addr) => {
            push_otherwise(text, &otherwise_by(options, marks, addr), &line.packet)?;
        }
    }
    push_marks(text, line.number, marks)
}

// How a packet with these marks is shown by its code and bytes.
fn otherwise_by(options: &TellOptions, marks: &Marks, addr: u8) -> Otherwise
    ensures { result ≡ spec_otherwise_by options.now marks.now addr }
{
    Otherwise {
        values: options.values && marks.ones.is_heeded(),
        addr,
        reached: marks.reached,
        ones: marks.ones,
    }
}

// What a packet says, with the output that it reaches if PAGE is followed.
#[tactic(auto, using(pm_lines::specs::Lemmas::Joins::joins))]
fn push_reached(
    text: &mut String,
    reached: Option<u8>,
    number: u64,
    shown: &Shown<'_>,
) -> Result<(), AllocError>
    ensures { OnOk result (string_bytes text.new ≡ string_bytes text.old
        ++ reached_text reached number (judged_in shown.now)) }
{
    match (reached, shown) {
        (Some(page), Shown::Accepted { addr, view, answer }) => {
            push_hex(text, *addr)?;
            text.push_str(" page ")?;
            push_decimal(text, u64::from(page))?;
            text.push_str("?")?;
            push_packet(text, view, *answer)
        }
        _ => push_shown(text, number, shown),
    }
}

// What follows a packet that lacks its PEC.
fn push_lack(text: &mut String, marks: &Marks) -> Result<(), AllocError>
    ensures { OnOk result (string_bytes text.new ≡ string_bytes text.old ++ lack_text marks.now.ones marks.now.lacks) }
{
    if marks.lacks {
        text.push_str(ones_words(marks.ones))
    } else {
        Ok(())
    }
}

// What follows a packet for its phase, for how it was received, and for the line that it contradicts.
#[tactic(auto, using(pm_lines::specs::Lemmas::Joins::joins))]
fn push_marks(text: &mut String, number: u64, marks: &Marks) -> Result<(), AllocError>
    ensures { OnOk result (string_bytes text.new ≡ string_bytes text.old ++ marks_text number marks.now) }
{
    if is_unmarked(marks) {
        return Ok(());
    }
    push_phase(text, marks.phase)?;
    push_received(text, marks.ones)?;
    push_forbidden(text, marks.is_forbidden)?;
    push_wrong_if(text, number, marks.wrong)?;
    push_changed_if(text, number, marks.changed)
}

// Whether nothing follows a packet for its marks.
fn is_unmarked(marks: &Marks) -> bool
    ensures { result ≡ true → (number : ℕ) → marks_text number marks.now ≡ [] }
{
    marks.phase.is_none()
        && !marks.ones.is_refused()
        && !marks.is_forbidden
        && marks.wrong.is_none()
        && marks.changed.is_none()
}

// What follows a reading of a phase.
#[tactic(auto, using(pm_lines::specs::Lemmas::Joins::joins))]
fn push_phase(text: &mut String, phase: Option<u8>) -> Result<(), AllocError>
    ensures { OnOk result (string_bytes text.new ≡ string_bytes text.old ++ phase_text phase) }
{
    let Some(phase) = phase else {
        return Ok(());
    };
    text.push_str(", phase ")?;
    push_decimal(text, u64::from(phase))
}

/// What follows a packet of which a byte wasn't acknowledged.
#[tactic(auto, using(pm_lines::specs::Lemmas::Joins::joins))]
pub(crate) fn push_received(text: &mut String, ones: Ones) -> Result<(), AllocError>
    ensures { OnOk result (string_bytes text.new ≡ string_bytes text.old ++ received_text ones) }
{
    let Ones::Refused(refusal) = ones else {
        return Ok(());
    };
    text.push_str(", byte ")?;
    push_decimal(text, u64::from(refusal.place))?;
    text.push_str(refused_words(refusal.of_answer))
}

// What is said of a byte that wasn't acknowledged, of the answer or of the write part.
fn refused_words(of_answer: bool) -> &'static str
    ensures { result.now ≡ spec_refused_words of_answer }
{
    if of_answer {
        " of the answer not acknowledged"
    } else {
        " not acknowledged"
    }
}

// What follows a write of PAGE that WRITE_PROTECT forbids.
fn push_forbidden(text: &mut String, is_forbidden: bool) -> Result<(), AllocError>
    ensures { OnOk result (string_bytes text.new ≡ string_bytes text.old ++ forbidden_text is_forbidden) }
{
    if is_forbidden {
        text.push_str(", WRITE_PROTECT forbids it")
    } else {
        Ok(())
    }
}

// What follows a read in this line that gives another word than the one before, if it does.
fn push_changed_if(text: &mut String, number: u64, changed: Option<u64>) -> Result<(), AllocError>
    ensures { OnOk result (string_bytes text.new ≡ string_bytes text.old ++ changed_text number changed) }
{
    match changed {
        None => Ok(()),
        Some(line) => push_lines(text, " CHANGED? lines ", number, line),
    }
}

// What follows a packet in this line for the earlier one that it contradicts, if there is one.
fn push_wrong_if(text: &mut String, number: u64, wrong: Option<u64>) -> Result<(), AllocError>
    ensures { OnOk result (string_bytes text.new ≡ string_bytes text.old ++ wrong_text number wrong) }
{
    match wrong {
        None => Ok(()),
        Some(line) => push_lines(text, " WRONG PAGE? lines ", number, line),
    }
}

// Words, and the two lines that they speak of.
#[tactic(auto, using(pm_lines::specs::Lemmas::Joins::joins))]
fn push_lines(text: &mut String, words: &str, number: u64, line: u64) -> Result<(), AllocError>
    ensures { OnOk result (string_bytes text.new ≡ string_bytes text.old ++ (words.now ++ two_lines line number)) }
{
    text.push_str(words)?;
    push_two_lines(text, line, number)
}

// The two lines of which one contradicts the other.
#[tactic(auto, using(pm_lines::specs::Lemmas::Joins::joins), unfolding(crate::specs::CaptureText::two_lines))]
fn push_two_lines(text: &mut String, line: u64, number: u64) -> Result<(), AllocError>
    ensures { OnOk result (string_bytes text.new ≡ string_bytes text.old ++ two_lines line number) }
{
    push_decimal(text, line)?;
    text.push_str(" and ")?;
    push_decimal(text, number)
}

/// A time, counted from the first one.
pub(crate) fn since_first(first: Option<u64>, time: Option<u64>) -> Option<i128>
    ensures { result ≡ time_since first time }
{
    let time = time?;
    Some(i128::from(time) - i128::from(first.unwrap_or(time)))
}

/// The time of a packet, from the first one on, if it is known.
#[tactic(auto, using(pm_lines::specs::Lemmas::Joins::joins))]
pub(crate) fn push_time(text: &mut String, time: Option<i128>) -> Result<(), AllocError>
    ensures { OnOk result (string_bytes text.new ≡ string_bytes text.old ++ time_text time) }
{
    let Some(time) = time else {
        return Ok(());
    };
    text.push_str(" ")?;
    push_signed(text, time)?;
    text.push_str(" us")
}

// What follows a packet's text: its value if it wasn't refused, or its bytes if it has a fault.
#[tactic(auto, using(pm_lines::specs::Lemmas::Joins::joins))]
fn push_extra(
    text: &mut String,
    options: &TellOptions,
    lessons: &Lessons,
    marks: &Marks,
    line: &PacketLine<'_>,
) -> Result<(), AllocError>
    ensures { OnOk result (string_bytes text.new ≡ string_bytes text.old
        ++ extra_text options.now lessons.now marks.now (packet_in line.now.packet) (judged_in line.now.shown.now)) }
{
    if options.values {
        push_meaning(text, options, lessons, marks, line)
    } else {
        Ok(())
    }
}

// Appends what the packet means, if values are shown.
#[tactic(auto, using(pm_lines::specs::Lemmas::Joins::joins))]
fn push_meaning(
    text: &mut String,
    options: &TellOptions,
    lessons: &Lessons,
    marks: &Marks,
    line: &PacketLine<'_>,
) -> Result<(), AllocError>
    ensures { OnOk result (string_bytes text.new ≡ string_bytes text.old
        ++ meaning_text options.now lessons.now marks.now (packet_in line.now.packet) (judged_in line.now.shown.now)) }
{
    match line.shown {
        Shown::Accepted { .. } if !marks.ones.is_heeded() => Ok(()),
        Shown::Accepted { addr, view, answer } => {
            let packet = GoodPacket {
                addr: *addr,
                reached: marks.reached,
                view,
                answer: *answer,
            };
            push_known(text, packet_value(&options.formats, lessons, &packet))?;
            push_assumed(
                text,
                lessons.is_assumed(&options.formats, *addr, view.code()),
            )
        }
        Shown::Faulty { .. } => push_bytes(text, &line.packet),
        Shown::BadSyntax | Shown::BadHex => Ok(()),
    }
}

// What follows a value whose format is only assumed.
fn push_assumed(text: &mut String, is_assumed: bool) -> Result<(), AllocError>
    ensures { OnOk result (string_bytes text.new ≡ string_bytes text.old ++ assumed_text is_assumed) }
{
    if is_assumed {
        text.push_str("?")
    } else {
        Ok(())
    }
}

// All bytes of a packet, if it has a byte or a read part.
#[tactic(auto, using(pm_lines::specs::Lemmas::Joins::joins))]
fn push_bytes(text: &mut String, packet: &Packet<'_>) -> Result<(), AllocError>
    ensures { OnOk result (string_bytes text.new ≡ string_bytes text.old ++ bytes_text (packet_in packet.now)) }
{
    if packet.write.is_empty() && packet.read.is_none() {
        return Ok(());
    }
    text.push_str(" bytes")?;
    push_spaced(text, packet.write)?;
    let Some(read) = packet.read else {
        return Ok(());
    };
    text.push_str(" /")?;
    push_spaced(text, read)
}
