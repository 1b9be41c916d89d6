//! What a capture says of the VOUT_MODE of each output.
ghost use Rattle.std.specs.Prelude.{◌≡◌};
ghost use Rattle.pm_trace.specs.Modes.{key_of as spec_key_of, mode_since as spec_mode_since, plain_over as spec_plain_over, unsaid as spec_unsaid};

use crate::mode_changes::ModeChange;
use indexmap::IndexMap;
use std::alloc::{AllocError, Global};
use std::marker::Model;

/// What a line said of an output's VOUT_MODE.
#[derive(Clone, Copy, Debug)]
pub(crate) struct ModeLine {
    // Not known if it was written over.
    byte: Option<u8>,
    line: u64,
}

/// The VOUT_MODE byte of each output that answered with one, and of each address that has no pages. It takes memory for an
/// output and an address that is new.
#[derive(Debug, Drop)]
pub(crate) struct Modes {
    said: IndexMap<u16, ModeLine>,
    // The last one that a plain packet read of each address; None for an address that had a packet of PAGE or PAGE_PLUS.
    plain: IndexMap<u8, Option<ModeLine>>,
    // The last line by which all modes of an address may have changed.
    changed: IndexMap<u8, u64>,
    // The addresses with a mode that a packet may have changed.
    written: IndexMap<u8, bool>,
    // The last line in which something was lost, of nobody knows which address, or 0.
    lost: u64,
}

impl Model for Modes {
    ghost use Rattle.pm_trace.specs.Modes.{Modes};

    ghost Value = { Modes };

    ghost view = { λ m. record { said = m.said.entries; plain = m.plain.entries; changed = m.changed.entries; written = m.written.entries; lost = m.lost } };
}

impl Modes {
    ghost use Rattle.std.specs.Map.{lookup};
    ghost use Rattle.std.specs.Prelude.{OnOk, Some, None, nat_eq, true};
    ghost use Rattle.std.specs.List.{list_any};
    ghost use Rattle.pm_trace.specs.Modes.{all_changed, changed_at, is_entry_of, is_spoken_of, mode_written, modes_changed, modes_lost, no_modes, output_mode, output_said, page_mode, paged, plain_said};

    /// Nothing yet. Takes no memory.
    pub(crate) fn new(alloc: Global) -> Modes
        ensures { result ≡ no_modes }
    {
        Modes {
            said: IndexMap::new(alloc),
            plain: IndexMap::new(alloc),
            changed: IndexMap::new(alloc),
            written: IndexMap::new(alloc),
            lost: 0,
        }
    }

    /// Takes that a packet of this line may have changed modes of an address. Takes memory for an output and an address that
    /// is new.
    pub(crate) fn change(
        &mut self,
        line: u64,
        addr: Option<u8>,
        change: ModeChange,
    ) -> Result<(), AllocError>
        ensures { OnOk result (self.new ≡ modes_changed line addr change self.old) }
    {
        let Some(addr) = addr else {
            return Ok(());
        };
        match change {
            ModeChange::OfNone => Ok(()),
            ModeChange::OfOutput(page) => {
                self.say(line, addr, page, None)?;
                self.write(addr)
            }
            ModeChange::OfAll => {
                self.changed.insert(addr, line)?;
                self.write(addr)
            }
            ModeChange::OfRestart => {
                if self.written.get(&addr).is_some() {
                    self.changed.insert(addr, line)?;
                }
                Ok(())
            }
        }
    }

    /// Takes that something was lost in this line, of nobody knows which address: no mode that was said is known any more.
    pub(crate) fn lose(&mut self, line: u64)
        ensures { self.new ≡ modes_lost line self.old }
    {
        self.lost = line;
    }

    // Takes that a mode of an address may have been written.
    fn write(&mut self, addr: u8) -> Result<(), AllocError>
        ensures { OnOk result (self.new ≡ mode_written addr self.old) }
    {
        self.written.insert(addr, true)?;
        Ok(())
    }

    /// Takes the mode of an output, or that it isn't known any more. Takes memory for an output that is new.
    pub(crate) fn say(
        &mut self,
        line: u64,
        addr: u8,
        page: u8,
        byte: Option<u8>,
    ) -> Result<(), AllocError>
        ensures { OnOk result (self.new ≡ output_said line addr page byte self.old) }
    {
        self.said
            .insert(key_of(addr, page), ModeLine { byte, line })?;
        Ok(())
    }

    /// Takes the mode that a plain packet read whose output isn't known. Takes memory for an address that is new.
    pub(crate) fn say_plain(&mut self, line: u64, addr: u8, byte: u8) -> Result<(), AllocError>
        ensures { OnOk result (self.new ≡ plain_said line addr byte self.old) }
    {
        let said = ModeLine {
            byte: Some(byte),
            line,
        };
        let kept = plain_over(self.plain.get(&addr).copied(), said);
        self.plain.insert(addr, kept)?;
        Ok(())
    }

    /// Takes that an address has pages: its plain modes say nothing any more. Takes memory for an address that is new.
    pub(crate) fn page(&mut self, addr: u8) -> Result<(), AllocError>
        ensures { OnOk result (self.new ≡ paged addr self.old) }
    {
        if !self.is_first_paged(addr) && !matches!(self.plain.get(&addr).copied(), Some(None)) {
            self.plain.insert(addr, None)?;
        }
        Ok(())
    }

    // Whether the first address is this one, and has pages. Most captures have one address, which needs no look-up then.
    fn is_first_paged(&self, addr: u8) -> bool
        ensures { result ≡ true → lookup (nat_eq addr) self.now.plain ≡ Some None }
    {
        match self.plain.get_index(0) {
            Some((first, plain)) => *first == addr && plain.is_none(),
            None => false,
        }
    }

    /// What is known of the mode of a packet that reaches this page: None if no mode was said and nothing may have changed
    /// it, or the byte if that is still known. FFh, which is all pages, has none.
    pub(crate) fn of_page(&self, addr: u8, page: Option<u8>) -> Option<Option<u8>>
        ensures { result ≡ page_mode self.now addr page }
    {
        match page {
            None => self.of_plain(addr),
            Some(0xFF) => unsaid(self.is_spoken_of(addr)),
            Some(page) => self.of_output(addr, page),
        }
    }

    // What is known of an output's mode. If nothing was said of any, it needs no look-up.
    #[tactic(auto, using(crate::proofs::ValueLemmas::none_said))]
    fn of_output(&self, addr: u8, page: u8) -> Option<Option<u8>>
        ensures { result ≡ output_mode self.now.lost (changed_at self.now addr) (lookup (nat_eq (spec_key_of addr page)) self.now.said) }
    {
        let changed = self.changed_at(addr);
        if self.said.is_empty() {
            return unsaid(changed.is_some());
        }
        match self.said.get(&key_of(addr, page)).copied() {
            Some(said) => Some(mode_since(self.lost, changed, said)),
            None => unsaid(changed.is_some()),
        }
    }

    // What is known of a plain packet's mode whose output isn't known.
    fn of_plain(&self, addr: u8) -> Option<Option<u8>>
        ensures { result ≡ page_mode self.now addr None }
    {
        match self.plain.get(&addr).copied() {
            Some(Some(said)) => Some(mode_since(self.lost, self.changed_at(addr), said)),
            _ => unsaid(self.is_spoken_of(addr)),
        }
    }

    // Whether a mode of an address was said, or something may have changed all of them.
    fn is_spoken_of(&self, addr: u8) -> bool
        ensures { result ≡ is_spoken_of self.now addr }
    {
        self.changed_at(addr).is_some()
            || matches!(self.plain.get(&addr).copied(), Some(Some(_)))
            || self.has_output(addr)
    }

    // Whether a mode of an output of an address was said.
    fn has_output(&self, addr: u8) -> bool
        ensures { result ≡ list_any (is_entry_of addr) self.now.said }
    {
        for (key, _) in self.said.iter() {
            if *key / 256 == u16::from(addr) {
                return true;
            }
        }
        false
    }

    // The last line by which all modes of an address may have changed.
    fn changed_at(&self, addr: u8) -> Option<u64>
        ensures { result ≡ changed_at self.now addr }
    {
        self.changed.get(&addr).copied()
    }
}

// The byte of a mode that a line said, unless all modes of its address may have changed since then, or something was lost.
fn mode_since(lost: u64, changed: Option<u64>, said: ModeLine) -> Option<u8>
    ensures { result ≡ spec_mode_since lost changed said }
{
    if lost >= said.line {
        return None;
    }
    match changed {
        Some(line) if line >= said.line => None,
        _ => said.byte,
    }
}

// A plain mode over what is known of that.
fn plain_over(before: Option<Option<ModeLine>>, said: ModeLine) -> Option<ModeLine>
    ensures { result ≡ spec_plain_over before said }
{
    match before {
        Some(None) => None,
        Some(Some(_)) | None => Some(said),
    }
}

// What is known if no mode of a packet was said: the capture spoke of it, or not.
fn unsaid(is_spoken: bool) -> Option<Option<u8>>
    ensures { result ≡ spec_unsaid is_spoken }
{
    if is_spoken { Some(None) } else { None }
}

/// The output of a page at an address, or the code of an address.
pub fn key_of(addr: u8, number: u8) -> u16
    ensures { result ≡ spec_key_of addr number }
{
    u16::from(addr) * 256 + u16::from(number)
}
