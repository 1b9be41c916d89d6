//! What PAGE, as a capture shows it, says of a packet.
ghost use Rattle.std.specs.Prelude.{◌≡◌, Bool, None, Some, slice_index, true};
ghost use Rattle.pm_trace.specs.ShownLines.{judged_in};
ghost use Rattle.pm_trace.specs.Pages.{contradicted};
ghost use Rattle.pm_trace.specs.declared.pages.PageUse.TheVariants.{Beside};
ghost use Rattle.pm_decode.specs.PageSteps.{heard_if as spec_heard_if, is_lost as spec_is_lost, is_lost_shown as spec_is_lost_shown, is_received as spec_is_received, is_page_restart as spec_is_restart, is_unanswered as spec_is_unanswered, judged_address, marks_by, place_by, shown_change as spec_shown_change, shown_use as spec_shown_use, page_step_by, step_for as spec_step_for, sure_page as spec_sure_page, used_by};
ghost use Rattle.pm_decode.specs.ShownReadings.{packet_in};

use crate::comment::ShownPacket;
use crate::told_as::{PacketLine, or_restart};
use pm_trace::{
    Answers, ModeChange, Ones, Packet, PageUse, Pages, Place, Shown, Standing, is_restore,
    mode_change, page_use, unclear_use,
};

/// A packet as it comes: its address, what is known of that, and what the packet says of its page.
#[derive(Clone, Copy, Debug)]
pub struct PageStep {
    pub addr: Option<u8>,
    pub place: Place,
    pub used: PageUse,
    /// The phase that it reads, if PHASE selects one.
    pub phase: Option<u8>,
}

/// What a packet is marked with.
#[derive(Clone, Copy, Debug)]
pub struct Marks {
    /// How it was received.
    pub ones: Ones,
    /// It lacks its PEC.
    pub lacks: bool,
    /// The output that it reaches, if it names none and that is known.
    pub reached: Option<u8>,
    /// The line that it contradicts.
    pub wrong: Option<u64>,
    /// The page of its address, if that is known and each packet of PAGE since then was good.
    pub page: Option<u8>,
    /// The part may have restarted: it answers another page than the one that was written last, or not at all.
    pub is_restart: bool,
    /// WRITE_PROTECT forbids it, a write of PAGE.
    pub is_forbidden: bool,
    /// The phase that it reads.
    pub phase: Option<u8>,
    /// The line of the read before, which gave another word with nothing in between that writes it.
    pub changed: Option<u64>,
}

/// The packet of a line as it comes; `lost` is whether nobody answered a code that its address answered before.
pub fn page_step(pages: &Pages, gap: u64, lost: bool, line: &PacketLine<'_>) -> PageStep
    ensures { result ≡ page_step_by gap line.now.time pages.now lost line.now.ones (packet_in line.now.packet) (judged_in line.now.shown.now) line.now.other }
{
    let standing = Standing {
        is_clear: is_received(&line.packet, line.ones),
        is_lost: lost,
        is_told: line.other.is_some(),
    };
    let used = page_use(
        line.packet.write,
        line.packet.is_read(),
        standing,
        line.shown,
    );
    step_for(pages, gap, line, used)
}

/// Whether a packet has no time and says nothing of PAGE, since it is clear and carries its own page: then it doesn't matter what is
/// known of its page.
#[tactic(auto, using(crate::proofs::Shown::named_beside))]
pub fn is_beside(line: &PacketLine<'_>) -> bool
    ensures time { result ≡ true → line.now.time ≡ None }
    ensures used { result ≡ true → (lost : Bool)
        → used_by lost line.now.ones (packet_in line.now.packet) (judged_in line.now.shown.now) line.now.other ≡ Beside }
{
    if line.time.is_some() || !is_received(&line.packet, line.ones) {
        return false;
    }
    match line.shown {
        Shown::Accepted { view, .. } => view.page().is_some() && !is_restore(view.code()),
        _ => false,
    }
}

// A packet that says so of its page, as it comes.
fn step_for(pages: &Pages, gap: u64, line: &PacketLine<'_>, used: PageUse) -> PageStep
    ensures { result ≡ spec_step_for gap line.now.time pages.now (judged_address (judged_in line.now.shown.now))
        (slice_index line.now.packet.write.now 1) (spec_is_received line.now.ones (packet_in line.now.packet)) used }
{
    let addr = address_in(line.shown);
    let place = match (used, line.time) {
        (PageUse::Beside, None) => NOWHERE,
        _ => place_at(pages, gap, line.time, addr),
    };
    let heard = is_received(&line.packet, line.ones) && matches!(used, PageUse::Failed(_));
    PageStep {
        addr,
        place: heard_if(heard, place),
        used,
        phase: place.phase(line.packet.code(), used),
    }
}

// A place of a part that has PAGE, if it has.
fn heard_if(heard: bool, place: Place) -> Place
    ensures { result ≡ spec_heard_if heard place }
{
    if heard {
        Place {
            heard: true,
            ..place
        }
    } else {
        place
    }
}

/// Nothing is known of an address.
pub const NOWHERE: Place = Place {
    page: None,
    written: None,
    failed: None,
    locked: None,
    phase: None,
    heard: false,
    time: None,
};

/// The address of a packet, if it has one.
pub fn address_in(shown: &Shown<'_>) -> Option<u8>
    ensures { result ≡ judged_address (judged_in shown.now) }
{
    match shown {
        Shown::Accepted { addr, .. } => Some(*addr),
        Shown::Faulty { addr, .. } => *addr,
        Shown::BadSyntax | Shown::BadHex => None,
    }
}

// What is known of an address, if there is one.
fn place_at(pages: &Pages, gap: u64, time: Option<u64>, addr: Option<u8>) -> Place
    ensures { result ≡ place_by gap time pages.now addr }
{
    match addr {
        Some(addr) => pages.place(gap, time, addr),
        None => NOWHERE,
    }
}

/// Whether nobody answered a code that its address answered before, or took.
pub fn is_lost(answers: &Answers, packet: &Packet<'_>, ones: Ones) -> bool
    ensures { result ≡ spec_is_lost answers.now ones (packet_in packet.now) }
{
    is_unanswered(packet, ones) && packet.write.len() >= 2 && answers.has_answered(packet)
}

/// Whether a packet is clear, if it is shown as good or by its code and bytes: somebody answered, or took it.
pub fn is_received(packet: &Packet<'_>, ones: Ones) -> bool
    ensures { result ≡ spec_is_received ones (packet_in packet.now) }
{
    ones.is_answer() && !matches!(packet.read, Some([] | [_]))
}

/// Whether nobody answered the packet that a comment shows, whose code its address answered before, or took.
pub fn is_lost_shown(answers: &Answers, shown: &ShownPacket) -> bool
    ensures { result ≡ spec_is_lost_shown answers.now shown.now }
{
    let packet = Packet {
        write: &[shown.first, shown.code],
        read: None,
    };
    shown.is_failed_read && answers.has_answered(&packet)
}

/// The modes that the packet of a comment may change, none of them surely.
pub fn shown_change(lost: bool, shown: &ShownPacket) -> ModeChange
    ensures { result ≡ spec_shown_change lost shown.now }
{
    or_restart(lost, mode_change(false, None, shown.touch))
}

/// What the packet of a comment says of its page.
pub fn shown_use(lost: bool, shown: &ShownPacket) -> PageUse
    ensures { result ≡ spec_shown_use lost shown.now }
{
    unclear_use(
        shown.touch,
        if lost { PageUse::Lost } else { PageUse::Beside },
    )
}

// Whether nobody answered: nothing follows the address that was read from, or only ones that are taken for nobody's.
fn is_unanswered(packet: &Packet<'_>, ones: Ones) -> bool
    ensures { result ≡ spec_is_unanswered ones (packet_in packet.now) }
{
    matches!(ones, Ones::Nobody) || matches!(packet.read, Some([] | [_]))
}

// The page of an address, if that is known and each packet of PAGE since then was good.
fn sure_page(place: &Place) -> Option<u8>
    ensures { result ≡ spec_sure_page place.now }
{
    match (place.page, place.failed) {
        (Some(said), None) => Some(said.page),
        _ => None,
    }
}

// Whether the part may have restarted.
fn is_restart(step: &PageStep) -> bool
    ensures { result ≡ spec_is_restart step.now.used (contradicted step.now.place step.now.used) }
{
    match step.used {
        PageUse::ReadBack(_) => step.place.contradicted(step.used).is_some(),
        PageUse::Lost => true,
        _ => false,
    }
}

impl Marks {
    /// The marks of a packet if PAGE isn't followed: how it was received, and whether it lacks its PEC.
    pub fn without_page(ones: Ones, lacks: bool) -> Marks
        ensures { result ≡ marks_by ones lacks None }
    {
        Marks {
            ones,
            lacks,
            reached: None,
            wrong: None,
            page: None,
            is_restart: false,
            is_forbidden: false,
            phase: None,
            changed: None,
        }
    }

    /// The marks of a packet that was received so, that lacks its PEC or doesn't, and that says so of its page.
    pub fn of(ones: Ones, lacks: bool, step: &PageStep) -> Marks
        ensures { result ≡ marks_by ones lacks (Some step.now) }
    {
        Marks {
            ones,
            lacks,
            reached: step.place.output(step.used),
            wrong: step.place.contradicted(step.used),
            page: sure_page(&step.place),
            is_restart: is_restart(step),
            is_forbidden: step.place.is_forbidden(step.used),
            phase: step.phase,
            changed: None,
        }
    }
}
