//! What is said besides of a capture that was shown whole.
ghost use Rattle.std.specs.List.{list_all};
ghost use Rattle.std.specs.Prelude.{◌≡◌, ◌<◌, ◌^◌, None, false, if◌then◌else◌, option_map};
ghost use Rattle.pm_trace.specs.ShownLines.{judged_in};
ghost use Rattle.pm_trace.specs.Trace.{parts_judged};
ghost use Rattle.pm_trace.specs.Otherwise.{is_accepted};
ghost use Rattle.pm_decode.specs.ShownReadings.{packet_in};
ghost use Rattle.pm_decode.specs.Hearing.{heard_lines, first_hint as spec_first_hint, hint_by, is_none_told, is_without_any_pec as spec_is_without_any_pec, lines_hint as spec_lines_hint};
ghost use Rattle.pm_decode.specs.Hints.{beyond_by, first_if, has_entry as spec_has_entry, has_vout_format as spec_has_vout, is_digits as spec_is_digits, is_timed as spec_is_timed, is_order_beyond as spec_is_beyond, is_huge as spec_is_huge, is_huge_value as spec_is_huge_value, lacking_by, paging_by, timed_by, writes_page as spec_writes_page};

use crate::heard_lines::HeardLines;
use crate::{PacketLine, TellOptions};
use pm_frame::Message;
use pm_num::Frac;
use pm_table::Code;
use pm_trace::{
    GivenFormat, GivenFormats, GoodPacket, Lessons, Ones, Packet, Shown, Unit, Value,
    completed_part, millionths, packet_shown, packet_value,
};

/// What may be wrong with a capture that was shown whole.
#[derive(Clone, Copy, Debug, PartialEq, Eq)]
pub enum Hint {
    /// The line of this number is the first one that orders a voltage beyond 1000 V by the format that was given.
    Beyond(u64),
    /// The line of this number is the first one that begins with its time, where lines were read without times.
    Timed(u64),
    /// With times each line was bad: none was a time and a packet.
    NoTimes,
    /// Without times no line was a good packet, and one was bad, as if lines begin with times.
    NoGoodPacket,
    /// Packets without PEC weren't shown, and no line was a good packet, but each packet would have been one with its PEC.
    NoPec,
    /// The line of this number wrote PAGE, which isn't followed, so that values of outputs are missing.
    Paging(u64),
}

/// What may be wrong with a capture of these lines, shown by these options.
pub(crate) fn hint_of(options: &TellOptions, heard: &HeardLines) -> Option<Hint>
    requires { heard_lines heard.now < 2 ^ 64 }
    ensures { result ≡ hint_by options.now heard.now }
{
    match first_hint(options.times, heard) {
        None if is_without_any_pec(options.all, heard) => Some(Hint::NoPec),
        None => heard.known().paging().map(Hint::Paging),
        hint => hint,
    }
}

// What an order beyond 1000 V says, or else a line that begins with its time, or else bad lines.
fn first_hint(times: bool, heard: &HeardLines) -> Option<Hint>
    requires { heard_lines heard.now < 2 ^ 64 }
    ensures { result ≡ spec_first_hint heard.now.known.beyond heard.now.known.timed
        (if is_none_told heard.now then spec_lines_hint times heard.now.counts.faults else None) }
{
    if let Some(line) = heard.known().beyond() {
        return Some(Hint::Beyond(line));
    }
    match heard.known().timed() {
        Some(line) => Some(Hint::Timed(line)),
        None => lines_hint(times, heard),
    }
}

// What bad lines say if no packet was shown as a good one or by its code.
fn lines_hint(times: bool, heard: &HeardLines) -> Option<Hint>
    requires { heard_lines heard.now < 2 ^ 64 }
    ensures { result ≡ (if is_none_told heard.now then spec_lines_hint times heard.now.counts.faults else None) }
{
    let (_, accepted, faults, bad) = heard.tally().lines();
    if accepted > 0 || heard.others().total() > 0 || bad == 0 {
        return None;
    }
    if !times {
        Some(Hint::NoGoodPacket)
    } else if faults == 0 {
        Some(Hint::NoTimes)
    } else {
        None
    }
}

// Whether there are faults, all of packets that would be good with their PEC, and such packets aren't shown.
fn is_without_any_pec(all: bool, heard: &HeardLines) -> bool
    requires { heard_lines heard.now < 2 ^ 64 }
    ensures { result ≡ spec_is_without_any_pec all heard.now }
{
    let (_, accepted, faults, _) = heard.tally().lines();
    accepted == 0 && faults > 0 && heard.known().is_lacking() && !all
}

/// Whether each packet that isn't good would be with its PEC: those before this one, as `lacking` says, and this one.
pub(crate) fn still_lacking(all: bool, line: &PacketLine<'_>, lacking: bool) -> bool
    requires { all ≡ false → judged_in line.now.shown.now
        ≡ parts_judged line.now.packet.write.now (option_map (λ bytes. bytes.now) line.now.packet.read) }
    ensures { result ≡ lacking_by all (packet_in line.now.packet) lacking }
{
    if all || matches!(line.shown, Shown::Accepted { .. }) {
        return lacking;
    }
    lacking && completed_part(&line.packet, line.shown, Ones::Answer).is_some()
}

/// The first line that orders a voltage beyond 1000 V by the format that was given, after this one; `before` is the
/// first one before it. `reached` is the output that its packet reaches if it names none and that is known.
pub(crate) fn first_beyond(
    options: &TellOptions,
    lessons: &Lessons,
    reached: Option<u8>,
    line: &PacketLine<'_>,
    before: Option<u64>,
) -> Option<u64>
    ensures { result ≡ beyond_by options.now lessons.now reached line.now.number (judged_in line.now.shown.now) before }
{
    if options.values && has_vout(&options.formats) {
        first_of(&options.formats, lessons, reached, line, before)
    } else {
        before
    }
}

/// The first line that writes PAGE, where values are shown and PAGE isn't followed; `before` is the first one before it.
pub(crate) fn first_paging(
    options: &TellOptions,
    line: &PacketLine<'_>,
    before: Option<u64>,
) -> Option<u64>
    ensures { result ≡ paging_by options.now line.now.number (judged_in line.now.shown.now) before }
{
    match before {
        None if options.values && !options.pages && writes_page(line.shown) => Some(line.number),
        _ => before,
    }
}

/// The first line that begins with its time, where lines have none; `before` is the first one before it.
pub(crate) fn first_timed(
    options: &TellOptions,
    number: u64,
    packet: &Packet<'_>,
    before: Option<u64>,
) -> Option<u64>
    ensures { result ≡ timed_by options.now number (packet_in packet.now) before }
{
    match before {
        None if !options.times && is_timed(packet) && !is_good(packet) => Some(number),
        _ => before,
    }
}

// Whether a packet is good as it is.
fn is_good(packet: &Packet<'_>) -> bool
    ensures { result ≡ is_accepted (parts_judged packet.now.write.now (option_map (λ bytes. bytes.now) packet.now.read)) }
{
    matches!(
        packet_shown(packet.write, packet.read),
        Shown::Accepted { .. }
    )
}

// Whether a packet would be good without its first eight bytes, which are the 16 digits of a time.
fn is_timed(packet: &Packet<'_>) -> bool
    ensures { result ≡ spec_is_timed (packet_in packet.now) }
{
    if packet.write.len() < 9 {
        return false;
    }
    let (time, write) = packet.write.split_at(8);
    are_digits(time) && matches!(packet_shown(write, packet.read), Shown::Accepted { .. })
}

// Whether each byte is two decimal digits.
fn are_digits(bytes: &[u8]) -> bool
    ensures { result ≡ list_all spec_is_digits bytes.now }
{
    bytes.iter().all(|byte| *byte / 16 < 10 && *byte % 16 < 10)
}

// Whether a packet is a good write of PAGE.
fn writes_page(shown: &Shown<'_>) -> bool
    ensures { result ≡ spec_writes_page (judged_in shown.now) }
{
    match shown {
        Shown::Accepted { view, .. } => {
            matches!(view.message(), Message::WriteByte { code, .. } if Code(code) == Code::PAGE)
        }
        _ => false,
    }
}

// Whether a format of voltages is given.
fn has_vout(given: &GivenFormats) -> bool
    ensures { result ≡ spec_has_vout given.now }
{
    has_entry(&given.vout)
}

// Whether a list has an entry.
fn has_entry(entries: &[Option<GivenFormat>]) -> bool
    ensures { result ≡ spec_has_entry entries.now }
{
    matches!(entries, [Some(_), ..])
}

// The first line that orders a voltage beyond 1000 V by these formats: `before`, or else this line if it does.
fn first_of(
    given: &GivenFormats,
    lessons: &Lessons,
    reached: Option<u8>,
    line: &PacketLine<'_>,
    before: Option<u64>,
) -> Option<u64>
    ensures { result ≡ first_if before (spec_is_beyond given.now lessons.now reached (judged_in line.now.shown.now)) line.now.number }
{
    match before {
        Some(first) => Some(first),
        None if is_beyond(given, lessons, reached, line.shown) => Some(line.number),
        None => None,
    }
}

// Whether a packet orders a voltage beyond 1000 V by the format that was given, since the capture taught none.
fn is_beyond(
    given: &GivenFormats,
    lessons: &Lessons,
    reached: Option<u8>,
    shown: &Shown<'_>,
) -> bool
    ensures { result ≡ spec_is_beyond given.now lessons.now reached (judged_in shown.now) }
{
    match shown {
        Shown::Accepted {
            addr,
            view,
            answer: None,
        } => {
            let taught = GivenFormats {
                vout: [None; 8],
                readings: given.readings,
            };
            let packet = GoodPacket {
                addr: *addr,
                reached,
                view,
                answer: None,
            };
            is_huge(packet_value(given, lessons, &packet))
                && packet_value(&taught, lessons, &packet).is_none()
        }
        _ => false,
    }
}

// Whether there is a value, a voltage beyond 1000 V.
fn is_huge(value: Option<Value>) -> bool
    ensures { result ≡ spec_is_huge value }
{
    match value {
        Some(value) => is_huge_value(value),
        None => false,
    }
}

// Whether a value is a voltage beyond 1000 V.
fn is_huge_value(value: Value) -> bool
    ensures { result ≡ spec_is_huge_value value }
{
    match value {
        Value::Measured(ratio, unit) => is_huge_number(ratio, unit),
        _ => false,
    }
}

// Whether a number with its unit is a voltage beyond 1000 V.
fn is_huge_number(ratio: Frac, unit: Unit) -> bool
    ensures { result ≡ spec_is_huge_value (Value.Measured ratio unit) }
{
    match unit {
        Unit::Volt => millionths(ratio).unsigned_abs() > 1_000_000_000,
        Unit::Ampere | Unit::Celsius => false,
    }
}
