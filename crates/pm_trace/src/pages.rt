//! PAGE as a trace shows it, address by address.
ghost use Rattle.std.specs.Prelude.{◌≡◌};
ghost use Rattle.pm_trace.specs.Pages.{behind, contradicted, is_forbidden, on_page, output_by_use, phase_of, place_restarted, unsure, use_of};
ghost use Rattle.pm_trace.specs.Pages.{accepted_use as spec_accepted_use, is_of_device as spec_is_of_device, says_no_page as spec_is_silent, other_use as spec_other_use, plain_use as spec_plain_use, told_use as spec_told_use, unclear_use as spec_unclear_use};
ghost use Rattle.pm_trace.specs.Pages.{is_apart as spec_is_apart, kept_since as spec_kept_since, line_since as spec_line_since, written_else as spec_written_else};
ghost use Rattle.pm_trace.specs.ShownLines.{judged_in};

use crate::shown::Shown;
use crate::shown_text::answered;
use crate::touch::{Touch, is_restore, touch_of};
use indexmap::IndexMap;
use pm_frame::Message;
use pm_table::Code;
use std::alloc::{AllocError, Global};
use std::marker::Model;

/// What a packet says of the PAGE of its address.
#[derive(Clone, Copy, Debug, PartialEq, Eq)]
pub enum PageUse {
    /// A clear write of PAGE: the page.
    Written(u8),
    /// A clear read of PAGE: the page.
    ReadBack(u8),
    /// A packet of PAGE that isn't clear, and whether it may have written PAGE.
    Failed(bool),
    /// RESTORE, which may write PAGE.
    Restored,
    /// A clear write or read of WRITE_PROTECT, and whether it forbids writes of PAGE.
    Protects(bool),
    /// A clear write of PHASE: the phase.
    SetsPhase(u8),
    /// Nobody answered a code that the address answered before.
    Lost,
    /// A packet that acts on an output and names none.
    OfOutput,
    /// Any other packet.
    Beside,
}

impl PageUse {
    /// Whether the packet says nothing of PAGE.
    pub fn is_silent(self) -> bool
        ensures { result ≡ spec_is_silent self }
    {
        matches!(self, PageUse::OfOutput | PageUse::Beside)
    }
}

/// What a line said of a page.
#[derive(Clone, Copy, Debug, PartialEq, Eq)]
pub struct PageLine {
    /// The page.
    pub page: u8,
    /// The number of the line.
    pub line: u64,
}

/// What is known of an address's PAGE.
#[derive(Clone, Copy, Debug)]
pub struct Place {
    /// The page that plain packets reach.
    pub page: Option<PageLine>,
    /// The last clear write of PAGE.
    pub written: Option<PageLine>,
    /// The line of a packet of PAGE that wasn't clear, until a clear one comes, or something is lost.
    pub failed: Option<u64>,
    /// The line since which WRITE_PROTECT forbids writes of PAGE.
    pub locked: Option<u64>,
    /// The phase that readings are of, if PHASE selects one.
    pub phase: Option<PageLine>,
    /// The part has PAGE: it took a clear write of it, or answered a read.
    pub heard: bool,
    /// The time of the last packet, in microseconds, if lines have one.
    pub time: Option<u64>,
}

impl Place {
    /// The output that a packet reaches which acts on an output and names none, if it is known.
    pub fn output(&self, used: PageUse) -> Option<u8>
        ensures { result ≡ output_by_use self.now used }
    {
        match (used, self.page) {
            (PageUse::OfOutput | PageUse::SetsPhase(_), Some(said)) => Some(said.page),
            _ => None,
        }
    }

    /// The line that a packet contradicts: a page is read that isn't the one written last, or a packet acts on an output
    /// and names none after a packet of PAGE that wasn't clear, of a part that has PAGE, and no clear one came since then.
    pub fn contradicted(&self, used: PageUse) -> Option<u64>
        ensures { result ≡ contradicted self.now used }
    {
        match used {
            PageUse::ReadBack(page) => written_else(page, self.written),
            PageUse::OfOutput | PageUse::SetsPhase(_) if self.heard => self.failed,
            _ => None,
        }
    }

    /// The phase that a packet of this code reads: of READ_VIN to READ_PIN, if it acts on an output and names none.
    pub fn phase(&self, code: u8, used: PageUse) -> Option<u8>
        ensures { result ≡ phase_of self.now code used }
    {
        match (used, self.phase) {
            (PageUse::OfOutput, Some(said)) if Code::READ_VIN.0 <= code && code <= 0x97 => {
                Some(said.page)
            }
            _ => None,
        }
    }

    /// Whether WRITE_PROTECT forbids a packet, a write of PAGE.
    pub fn is_forbidden(&self, used: PageUse) -> bool
        ensures { result ≡ is_forbidden self.now used }
    {
        matches!(used, PageUse::Written(_)) && self.locked.is_some()
    }

    // What is known after the packet in this line.
    fn behind(self, line: u64, used: PageUse) -> Place
        ensures { result ≡ behind line self used }
    {
        match used {
            PageUse::Written(_) if self.locked.is_some() => self,
            PageUse::Written(page) => Place {
                written: Some(PageLine { page, line }),
                ..self.on_page(line, page)
            },
            PageUse::ReadBack(page) => self.on_page(line, page),
            PageUse::Failed(writes) => self.unsure(line, writes),
            PageUse::Protects(all) => Place {
                locked: if all { Some(line) } else { None },
                ..self
            },
            PageUse::SetsPhase(phase) => Place {
                phase: if phase == 0xFF {
                    None
                } else {
                    Some(PageLine { page: phase, line })
                },
                ..self
            },
            PageUse::Restored | PageUse::Lost => self.restarted(),
            PageUse::OfOutput | PageUse::Beside => self,
        }
    }

    // What is known after a clear packet of PAGE in this line, which gave this page.
    fn on_page(self, line: u64, page: u8) -> Place
        ensures { result ≡ on_page line page self }
    {
        Place {
            page: Some(PageLine { page, line }),
            failed: None,
            heard: true,
            ..self
        }
    }

    // What is known after a packet of PAGE in this line that isn't clear, and may have written it.
    fn unsure(self, line: u64, writes: bool) -> Place
        ensures { result ≡ unsure line writes self }
    {
        let failed = Some(line);
        if writes {
            Place {
                page: None,
                written: None,
                failed,
                ..self
            }
        } else {
            Place { failed, ..self }
        }
    }

    // What is known after a sign of a restart, or RESTORE.
    fn restarted(self) -> Place
        ensures { result ≡ place_restarted self }
    {
        Place {
            page: None,
            written: None,
            locked: None,
            phase: None,
            ..self
        }
    }
}

/// What is known of the PAGE of each address. It takes memory for an address that is new.
#[derive(Debug, Drop)]
pub struct Pages {
    places: IndexMap<u8, Place>,
    // The last line in which something was lost, of nobody knows which address, or 0.
    lost: u64,
}

impl Model for Pages {
    ghost use Rattle.pm_trace.specs.Pages.{Pages};

    ghost Value = { Pages };

    ghost view = { λ p. record { places = p.places.entries; lost = p.lost } };
}

impl Pages {
    ghost use Rattle.indexmap.specs.IndexMap.{insert_entry};
    ghost use Rattle.std.specs.Prelude.{OnOk, nat_eq};
    ghost use Rattle.pm_trace.specs.Pages.{lost_in, no_pages, pages_by, pages_shown, place_in, page_place_of};

    /// Nothing is known yet. Takes no memory.
    pub fn new(alloc: Global) -> Pages
        ensures { result ≡ no_pages }
    {
        Pages {
            places: IndexMap::new(alloc),
            lost: 0,
        }
    }

    /// Something was lost in this line, of nobody knows which address: no page is known any more, nor whether a packet of
    /// PAGE was good.
    pub fn lose(&mut self, line: u64)
        ensures { self.new ≡ lost_in line self.old }
    {
        self.lost = line;
    }

    /// Learns what a packet says of its address's page that a comment in this line shows. Takes memory for an address that is new.
    pub fn learn_shown(&mut self, line: u64, addr: u8, used: PageUse) -> Result<(), AllocError>
        ensures { OnOk result (self.new ≡ pages_shown line addr used self.old) }
    {
        let place = *self.kept(addr);
        self.learn(line, Some(addr), &place, used)
    }

    // What is kept of an address.
    #[inline(always)]
    fn kept(&self, addr: u8) -> &Place
        ensures { result.now ≡ page_place_of self.now addr }
    {
        match self.places.get(&addr) {
            Some(place) => place,
            None => &NOWHERE,
        }
    }

    /// What is known of an address when a packet comes at a time, if lines have one. Nothing is known any more after a
    /// pause of more than `gap` microseconds, or at a time before the last one.
    pub fn place(&self, gap: u64, time: Option<u64>, addr: u8) -> Place
        ensures { result ≡ place_in gap time self.now addr }
    {
        let place = self.kept(addr);
        if is_apart(gap, place.time, time) {
            return Place {
                heard: place.heard,
                time,
                ..NOWHERE
            };
        }
        Place {
            page: kept_since(self.lost, place.page),
            written: kept_since(self.lost, place.written),
            failed: line_since(self.lost, place.failed),
            locked: line_since(self.lost, place.locked),
            phase: kept_since(self.lost, place.phase),
            heard: place.heard,
            time,
        }
    }

    /// Learns what the packet in this line says of its address's page, which was such a place when it came; one that says
    /// nothing of PAGE and has no time leaves what was known. Takes memory for an address that is new.
    pub fn learn(
        &mut self,
        line: u64,
        addr: Option<u8>,
        place: &Place,
        used: PageUse,
    ) -> Result<(), AllocError>
        ensures { OnOk result (self.new ≡ pages_by line addr place.now used self.old) }
    {
        let Some(addr) = addr else {
            return Ok(());
        };
        if !used.is_silent() {
            return self.set(addr, &place.behind(line, used));
        }
        if place.time.is_some() {
            return self.set(addr, place);
        }
        Ok(())
    }

    // Takes what is known of an address: of one that isn't new in its place, which is quicker.
    #[tactic(auto, using(crate::proofs::ValueLemmas::set_known))]
    fn set(&mut self, addr: u8, place: &Place) -> Result<(), AllocError>
        ensures { OnOk result (self.new ≡ record self.old { places = insert_entry nat_eq self.old.places addr place.now }) }
    {
        if let Some(kept) = self.places.get_mut(&addr) {
            *kept = *place;
            return Ok(());
        }
        self.places.insert(addr, *place)?;
        Ok(())
    }
}

// Nothing is known of an address.
const NOWHERE: Place = Place {
    page: None,
    written: None,
    failed: None,
    locked: None,
    phase: None,
    heard: false,
    time: None,
};

// Whether the pause is longer than `gap`, or the time is before the last one.
fn is_apart(gap: u64, last: Option<u64>, time: Option<u64>) -> bool
    ensures { result ≡ spec_is_apart gap last time }
{
    match (last, time) {
        (Some(last), Some(time)) => time < last || time - last > gap,
        _ => false,
    }
}

// What a line said of a page, if nothing was lost after it.
fn kept_since(lost: u64, said: Option<PageLine>) -> Option<PageLine>
    ensures { result ≡ spec_kept_since lost said }
{
    match said {
        Some(said) if lost < said.line => Some(said),
        _ => None,
    }
}

// A line, if nothing was lost after it.
fn line_since(lost: u64, line: Option<u64>) -> Option<u64>
    ensures { result ≡ spec_line_since lost line }
{
    match line {
        Some(line) if lost < line => Some(line),
        _ => None,
    }
}

// The line that wrote another page than this one.
fn written_else(page: u8, written: Option<PageLine>) -> Option<u64>
    ensures { result ≡ spec_written_else page written }
{
    match written {
        Some(said) if said.page != page => Some(said.line),
        _ => None,
    }
}

/// What decides of a packet's use besides its bytes.
#[derive(Clone, Copy, Debug)]
pub struct Standing {
    /// If it is shown as good, it is clear: no byte was refused, and somebody answered.
    pub is_clear: bool,
    /// Nobody answered a code that its address answered before.
    pub is_lost: bool,
    /// It is shown by its code and bytes.
    pub is_told: bool,
}

/// What a packet says of the PAGE of its address, by its write part, by whether it has a read part, and by what it is shown as.
pub fn page_use(write: &[u8], is_read: bool, standing: Standing, shown: &Shown<'_>) -> PageUse
    ensures { result ≡ use_of write.now is_read standing.is_clear standing.is_lost standing.is_told (judged_in shown.now) }
{
    match shown {
        Shown::Accepted { view, answer, .. } => {
            if standing.is_clear {
                accepted_use(&view.message(), answered(*answer))
            } else {
                other_use(write, is_read, false, standing.is_lost, true)
            }
        }
        Shown::Faulty { .. } => other_use(
            write,
            is_read,
            standing.is_clear,
            standing.is_lost,
            standing.is_told,
        ),
        Shown::BadSyntax | Shown::BadHex => PageUse::Beside,
    }
}

// What a clear packet says: one that carries its own page says nothing of PAGE, but for RESTORE.
fn accepted_use(message: &Message, answer: &[u8]) -> PageUse
    ensures { result ≡ spec_accepted_use message.now answer.now }
{
    match *message {
        Message::WriteByte { code, byte } => match Code(code) {
            Code::PAGE => PageUse::Written(byte),
            Code::WRITE_PROTECT => PageUse::Protects(byte == 0x80),
            _ => plain_use(code),
        },
        Message::ReadCommand { code } => {
            let byte = answer.first().copied().unwrap_or(0);
            match Code(code) {
                Code::PAGE => PageUse::ReadBack(byte),
                Code::WRITE_PROTECT => PageUse::Protects(byte == 0x80),
                _ => plain_use(code),
            }
        }
        Message::SendByte { code } if is_restore(code) => PageUse::Restored,
        Message::SendByte { code } | Message::WriteWord { code, .. } => plain_use(code),
        Message::PagePlusWrite { code, .. } if is_restore(code) => PageUse::Restored,
        Message::PagePlusWrite { .. }
        | Message::PagePlusRead { .. }
        | Message::ReadCoefficients { .. } => PageUse::Beside,
    }
}

// What a packet of a code says that isn't PAGE and that names no page.
fn plain_use(code: u8) -> PageUse
    ensures { result ≡ spec_plain_use code }
{
    if is_of_device(code) {
        PageUse::Beside
    } else {
        PageUse::OfOutput
    }
}

// Whether PAGE selects no output for a code: PAGE and those of PAGE_PLUS; WRITE_PROTECT, STORE and RESTORE, CAPABILITY and
// QUERY; COEFFICIENTS; PMBUS_REVISION and MFR_ID to MFR_SERIAL; IC_DEVICE_ID and IC_DEVICE_REV.
fn is_of_device(code: u8) -> bool
    ensures { result ≡ spec_is_of_device code }
{
    Code(code) == Code::PAGE
        || Code(code) == Code::PAGE_PLUS_WRITE
        || Code(code) == Code::PAGE_PLUS_READ
        || (0x10 <= code && code <= 0x1A)
        || Code(code) == Code::COEFFICIENTS
        || (Code::PMBUS_REVISION.0 <= code && code <= 0x9E)
        || code == 0xAD
        || code == 0xAE
}

// What a packet says that isn't shown as good, or isn't clear.
fn other_use(write: &[u8], is_read: bool, is_clear: bool, is_lost: bool, is_told: bool) -> PageUse
    ensures { result ≡ spec_other_use write.now is_read is_clear is_lost is_told }
{
    let other = if is_lost {
        PageUse::Lost
    } else if is_told {
        told_use(is_clear, is_read, write)
    } else {
        PageUse::Beside
    };
    unclear_use(touch_of(write, is_read), other)
}

// What a packet says that is shown by its code and bytes: a clear write of PHASE sets it.
fn told_use(is_clear: bool, is_read: bool, write: &[u8]) -> PageUse
    ensures { result ≡ spec_told_use is_clear is_read write.now }
{
    let code = write.get(1).copied().unwrap_or(0);
    if is_clear && !is_read && code == 0x04 && write.len() > 2 {
        PageUse::SetsPhase(write[2])
    } else {
        plain_use(code)
    }
}

/// What a packet says that isn't clear: it fails if it is one of PAGE, and RESTORE restores PAGE too; `other` is what any other says.
pub fn unclear_use(touch: Touch, other: PageUse) -> PageUse
    ensures { result ≡ spec_unclear_use touch other }
{
    match touch {
        Touch::WritesPage => PageUse::Failed(true),
        Touch::AsksPage => PageUse::Failed(false),
        Touch::Restores => PageUse::Restored,
        Touch::WritesMode(_) | Touch::Nothing => other,
    }
}
