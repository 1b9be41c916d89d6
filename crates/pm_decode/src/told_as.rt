//! What a line's packet is shown as.
ghost use Rattle.std.specs.Prelude.{◌≡◌, ◌||◌, Err, IfSome, is_some, not, option_map};
ghost use Rattle.pm_trace.specs.ShownLines.{judged_in};
ghost use Rattle.pm_trace.specs.Trace.{parts_judged, reading_judged};
ghost use Rattle.pm_trace.specs.Otherwise.{IsCompleted, content_of, is_accepted};
ghost use Rattle.pm_decode.specs.Readings.{is_checked as spec_is_checked, is_told as spec_is_told};
ghost use Rattle.pm_decode.specs.PageSteps.{change_by, is_clear as spec_is_clear, or_restart as spec_or_restart, shows_pages as spec_shows_pages};
ghost use Rattle.pm_decode.specs.Readings.{is_without_pec};
ghost use Rattle.pm_decode.specs.ShownReadings.{packet_in};

use crate::page_steps::{Marks, is_received};
use arrayvec::ArrayVec;
use pm_trace::{
    LineFault, ModeChange, Ones, Packet, Shown, Touch, completed_part, is_paging, mode_change,
    touch_of,
};

/// A packet of a line.
#[derive(Clone, Copy)]
pub struct PacketLine<'a> {
    /// The line's number.
    pub number: u64,
    /// The time of the packet, if lines have one.
    pub time: Option<u64>,
    /// Its bytes.
    pub packet: Packet<'a>,
    /// What it says.
    pub shown: &'a Shown<'a>,
    /// How it was received.
    pub ones: Ones,
    /// Its address, if it is shown by its code and bytes.
    pub other: Option<u8>,
}

/// The modes that the packet of a line with these marks may change: of all outputs if it isn't clear, so that nobody knows which
/// it names.
pub fn change_in(marks: &Marks, line: &PacketLine<'_>) -> ModeChange
    ensures { result ≡ change_by marks.now line.now.other (judged_in line.now.shown.now) (packet_in line.now.packet) }
{
    let touch = touch_of(line.packet.write, line.packet.is_read());
    if !matches!(touch, Touch::WritesMode(_)) {
        return or_restart(marks.is_restart, mode_change(false, None, touch));
    }
    or_restart(
        marks.is_restart,
        mode_change(is_clear(marks.ones, line), marks.page, touch),
    )
}

/// What a packet changes that may be a sign of a restart, which counts where it writes no mode itself.
pub(crate) fn or_restart(is_restart: bool, change: ModeChange) -> ModeChange
    ensures { result ≡ spec_or_restart is_restart change }
{
    match change {
        ModeChange::OfNone if is_restart => ModeChange::OfRestart,
        _ => change,
    }
}

/// Whether a packet wasn't refused, and is shown as good, or by its code and bytes, or has the right PEC.
pub(crate) fn is_clear(ones: Ones, line: &PacketLine<'_>) -> bool
    ensures { result ≡ spec_is_clear ones line.now.other (judged_in line.now.shown.now) (packet_in line.now.packet) }
{
    !ones.is_refused() && (is_told(line) || line.packet.has_pec())
}

/// Whether a packet shows that its part has pages.
pub fn shows_pages(marks: &Marks, line: &PacketLine<'_>) -> bool
    ensures { result ≡ spec_shows_pages marks.now.ones (packet_in line.now.packet) }
{
    is_paging(
        line.packet.write,
        line.packet.is_read() && is_received(&line.packet, marks.ones),
    )
}

/// Whether a packet is shown as the command table has it, with its PEC: it is good, or no other is shown otherwise.
pub fn is_plain(all: bool, shown: &Shown<'_>) -> bool
    ensures { result ≡ (not all || is_accepted (judged_in shown.now)) }
{
    !all || matches!(shown, Shown::Accepted { .. })
}

/// Whether a packet is shown as good, or by its code and bytes.
pub fn is_told(line: &PacketLine<'_>) -> bool
    ensures { result ≡ spec_is_told line.now.other (judged_in line.now.shown.now) }
{
    line.other.is_some() || matches!(line.shown, Shown::Accepted { .. })
}

/// Whether a packet that isn't shown as a fault has the right PEC, and the length of its code.
pub fn is_checked(marks: &Marks, line: &PacketLine<'_>) -> bool
    ensures { result ≡ spec_is_checked line.now.other marks.now.lacks (packet_in line.now.packet) }
{
    line.other.is_none() && !marks.lacks
}

/// The last part of a packet with its PEC, if it lacks only that and packets without PEC are shown.
pub fn completed_if(all: bool, line: &PacketLine<'_>) -> Option<ArrayVec<u8, 16>>
    requires { judged_in line.now.shown.now
        ≡ parts_judged line.now.packet.write.now (option_map (λ bytes. bytes.now) line.now.packet.read) }
    ensures lacks { is_some result ≡ is_without_pec all line.now.ones (packet_in line.now.packet) }
    ensures part { IfSome result (λ part.
        IsCompleted line.now.packet.write.now (option_map (λ bytes. bytes.now) line.now.packet.read) part.items) }
{
    if all {
        completed_part(&line.packet, line.shown, line.ones)
    } else {
        None
    }
}

/// The code by which a packet is shown that the table doesn't have.
pub fn told_code(packet: &Packet<'_>) -> u8
    ensures { result ≡ (content_of packet.now.write.now (option_map (λ bytes. bytes.now) packet.now.read)).code }
{
    packet.content(packet.has_pec()).code
}

/// What a line says that can't be read.
pub fn bad_shown(fault: LineFault) -> Shown<'static>
    ensures { judged_in result ≡ reading_judged (Err fault) }
{
    match fault {
        LineFault::Syntax => Shown::BadSyntax,
        LineFault::BadHex => Shown::BadHex,
    }
}
