//! How many lines were of each kind, and how often each code was carried.

ghost use Rattle.std.specs.Prelude.{◌≡◌, ◌+◌, ◌<◌, ◌^◌, true, false, option_map, slice_get, OnOk, OnErr};
ghost use Rattle.pm_trace.specs.Counts.{one_more, has_code, total_of};

use crate::shown::Shown;
use indexmap::IndexMap;
use std::alloc::{AllocError, Global};
use std::marker::Model;

/// How many lines of a trace were of each kind, and how often each code was carried, in the order
/// of first appearance.
#[derive(Debug, Drop)]
pub struct Tally {
    accepted: u64,
    faults: u64,
    bad: u64,
    codes: IndexMap<u8, u64>,
    // The place of each code among them. A code that stands elsewhere, or isn't there, is looked up: no place has to be right.
    places: [u8; 256],
}

impl Model for Tally {
    ghost use Rattle.std.specs.Prelude.{◌≤◌};
    ghost use Rattle.pm_trace.specs.Counts.{Counts, total_of};

    ghost Value = { Counts };

    ghost view = { λ t. record {
      accepted = t.accepted;
      faults = t.faults;
      bad = t.bad;
      codes = t.codes.entries;
    } };

    ghost invariant = { λ t. total_of t.codes.entries ≤ t.accepted };
}

impl Tally {
    ghost use Rattle.std.specs.Prelude.{[]};
    ghost use Rattle.pm_trace.specs.Counts.{counts_of, lines_in, one_counted, IsNewCode};
    ghost use Rattle.pm_trace.specs.ShownLines.{judged_in};

    /// No line yet. Takes no memory.
    #[tactic(auto, unfolding(crate::specs::Counts::counts_of))]
    pub fn new(alloc: Global) -> Tally
        ensures { result ≡ counts_of [] }
    {
        Tally {
            accepted: 0,
            faults: 0,
            bad: 0,
            codes: IndexMap::new(alloc),
            places: [0; 256],
        }
    }

    /// Counts a line. Memory is taken only if its code is new; nothing is counted if it was refused.
    #[tactic(auto, using(crate::specs::Lemmas::Counts::total_one_more))]
    pub fn count(&mut self, shown: &Shown<'_>) -> Result<(), AllocError>
        requires { lines_in self.old + 1 < 2 ^ 64 }
        ensures ok { OnOk result (self.new ≡ one_counted self.old (judged_in shown.now)) }
        ensures err { OnErr result (self.new ≡ self.old) }
        ensures memory { OnErr result (IsNewCode self.old (judged_in shown.now)) }
    {
        match shown {
            Shown::Accepted {
                addr: _,
                view,
                answer: _,
            } => {
                self.count_accepted(view.code())?;
            }
            Shown::Faulty { .. } => self.faults += 1,
            Shown::BadSyntax | Shown::BadHex => self.bad += 1,
        }
        Ok(())
    }

    /// Counts a line that was accepted, of this code, as `count` does.
    #[tactic(auto, using(crate::specs::Lemmas::Counts::total_one_more))]
    pub fn count_accepted(&mut self, code: u8) -> Result<(), AllocError>
        requires { lines_in self.old + 1 < 2 ^ 64 }
        ensures ok { OnOk result (self.new ≡ record self.old {
          accepted = self.old.accepted + 1;
          codes = one_more self.old.codes code;
        }) }
        ensures err { OnErr result (self.new ≡ self.old) }
        ensures absent { OnErr result (has_code self.old.codes code ≡ false) }
    {
        let place = self.places[usize::from(code)];
        if !count_at(&mut self.codes, usize::from(place), code) {
            self.places[usize::from(code)] = count_placed(&mut self.codes, code)?;
        }
        self.accepted += 1;
        Ok(())
    }

    /// The codes that were carried, in the order of first appearance, each with the number of its
    /// lines.
    pub fn codes(&self) -> &IndexMap<u8, u64>
        ensures { result.now.entries ≡ self.now.codes }
    {
        &self.codes
    }

    /// How many lines were counted, accepted, faulty and bad.
    pub fn lines(&self) -> (u64, u64, u64, u64)
        requires { lines_in self.now < 2 ^ 64 }
        ensures { result ≡ (lines_in self.now, self.now.accepted, self.now.faults, self.now.bad) }
    {
        let lines = self.accepted + self.faults + self.bad;
        (lines, self.accepted, self.faults, self.bad)
    }
}

// Counts one more line of a code at this place, if it stands there.
#[tactic(auto, using(crate::specs::Lemmas::Counts::count_at_place, crate::specs::Lemmas::Counts::place_bound))]
fn count_at(codes: &mut IndexMap<u8, u64>, place: usize, code: u8) -> bool
    requires { total_of codes.old.entries + 1 < 2 ^ 64 }
    ensures counted { result ≡ true → codes.new.entries ≡ one_more codes.old.entries code }
    ensures unchanged { result ≡ false → codes.new.entries ≡ codes.old.entries }
{
    if code_at(codes, place) != Some(code) {
        return false;
    }
    let Some(count) = codes.get_index_mut(place) else {
        return false;
    };
    *count += 1;
    true
}

// The code that stands at a place.
fn code_at(codes: &IndexMap<u8, u64>, place: usize) -> Option<u8>
    ensures { result ≡ option_map (λ entry. entry.0) (slice_get codes.now.entries place) }
{
    match codes.get_index(place) {
        Some((code, _)) => Some(*code),
        None => None,
    }
}

// Counts one more line of a code: at its place, or at the end if the code is new, and then memory may be needed. Gives
// that place, if it is below 256.
#[cold]
#[inline(never)]
fn count_placed(codes: &mut IndexMap<u8, u64>, code: u8) -> Result<u8, AllocError>
    requires { total_of codes.old.entries + 1 < 2 ^ 64 }
    ensures ok { OnOk result (codes.new.entries ≡ one_more codes.old.entries code) }
    ensures err { OnErr result (codes.new.entries ≡ codes.old.entries) }
    ensures absent { OnErr result (has_code codes.old.entries code ≡ false) }
{
    count_code(codes, code)?;
    let place = codes.get_index_of(&code).unwrap_or(0);
    Ok((place % 256) as u8)
}

/// Counts one more line of a code: at its place, or at the end if the code is new, and then memory may be
/// needed.
#[inline(always)]
#[tactic(auto, using(crate::specs::Lemmas::Counts::new_is, crate::specs::Lemmas::Counts::placed_is, crate::specs::Lemmas::Counts::found_bound, crate::specs::Lemmas::Counts::absent_code))]
pub fn count_code(codes: &mut IndexMap<u8, u64>, code: u8) -> Result<(), AllocError>
    requires { total_of codes.old.entries + 1 < 2 ^ 64 }
    ensures ok { OnOk result (codes.new.entries ≡ one_more codes.old.entries code) }
    ensures err { OnErr result (codes.new.entries ≡ codes.old.entries) }
    ensures absent { OnErr result (has_code codes.old.entries code ≡ false) }
{
    let Some(place) = codes.get_index_of(&code) else {
        codes.insert(code, 1)?;
        return Ok(());
    };
    if let Some(count) = codes.get_index_mut(place) {
        *count += 1;
    }
    Ok(())
}
