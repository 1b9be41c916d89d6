//! The words of all outputs as plain settings, and what each output commands by them.

ghost use Rattle.std.specs.Prelude.{◌≡◌, ◌↔◌, ◌≤◌, ◌<◌, ◌/◌, ◌%◌, ℕ, [], true, false, Some, IsTrue, slice_index, slice_index_or};
ghost use Rattle.pm_num.specs.AnyFormat.{any_value};
ghost use Rattle.pm_table.specs.Cell.{cell_accepts, protect_place, register_accepts, register_count, register_number, places, IsCell};
ghost use Rattle.pm_table.specs.declared.reg.Reg.{Reg as Register};
ghost use Rattle.pm_model.specs.Settings.{are_accepted as spec_are_accepted, is_accepted_at as spec_is_accepted_at, settings_in, word_at, with_outputs as spec_with_outputs, with_word, AreSettings, AreWords};
ghost use Rattle.pm_model.specs.Commanded.{commanded, greatest_value, least_value, is_above as spec_is_above, is_outside as spec_is_outside, is_cut, scale_at, selected};

use crate::laws::{commands_are_limited, settings_are_a_map};
use pm_num::{AnyFormat, Frac, NumFormat};
use pm_table::{Cell, Operation, Reg, cells_are_told_apart, cells_have_places};
use std::marker::Model;

/// What the words of each output's voltages stand for: of VOUT_COMMAND, its two limits and both
/// margins.
#[derive(Clone, Copy, Debug, PartialEq, Eq)]
pub struct Formats {
    /// How many outputs there are.
    pub count: u8,
    /// The outputs' formats; those from `count` on mean nothing.
    pub each: [AnyFormat; 8],
}

/// The settings of a converter with one to eight outputs: a word for each cell that there is.
#[derive(Clone, Debug, Drop)]
pub struct Plain {
    count: u8,
    // The word of each cell at its place: for eight outputs, and for WRITE_PROTECT.
    words: [u16; Cell::PLACES],
}

impl Model for Plain {
    ghost use Rattle.pm_model.specs.Settings.{Settings, AreSettings};

    ghost Value = { Settings };

    ghost view = { λ p. record { count = p.count; words = p.words } };

    ghost invariant = { λ p. AreSettings (record { count = p.count; words = p.words }) };
}

// The words in the order of the cells' places: row by row those of the outputs, and that of
// WRITE_PROTECT last.
#[tactic(auto, unfolding(crate::specs::Settings::AreWords))]
fn in_places(words: [[u16; Reg::COUNT]; 8], protect: u16) -> [u16; Cell::PLACES]
    ensures whole { AreWords result }
    ensures registers { (place : ℕ) → place < protect_place →
        slice_index result place
        ≡ slice_index (slice_index_or words (place / register_count) []) (place % register_count) }
    ensures protection { slice_index result protect_place ≡ protect }
{
    let mut all = [protect; Cell::PLACES];
    for place in 0..Cell::PLACES - 1 {
        all[place] = words[place / Reg::COUNT][place % Reg::COUNT];
    }
    all
}

// Whether the word at each place is one that its cell accepts, of the cells that there are.
#[tactic(auto, unfolding(crate::specs::Settings::are_accepted))]
fn are_accepted(count: u8, words: &[u16; Cell::PLACES]) -> bool
    ensures { result ≡ spec_are_accepted count words.now }
{
    (0..Cell::PLACES).all(|place| is_accepted_at(count, words, place))
}

// Whether the word at a place is one that its cell accepts; true if there is no such cell.
fn is_accepted_at(count: u8, words: &[u16; Cell::PLACES], place: usize) -> bool
    requires { place < places }
    ensures { result ≡ spec_is_accepted_at count words.now place }
{
    match Cell::at_place(place) {
        Some(cell) => !cell.is_there(count) || cell.accepts(words[place]),
        None => unreachable!(),
    }
}

impl Plain {
    /// The settings with these words: for each output its registers in the order of `Reg`, and
    /// WRITE_PROTECT. Asks a count of 1 to 8 and that each cell accepts its word. What stands for
    /// outputs from `count` on means nothing.
    #[tactic(auto, unfolding(crate::specs::Settings::word_at))]
    pub fn new(count: u8, words: [[u16; Reg::COUNT]; 8], protect: u16) -> Plain
        requires some { 1 ≤ count }
        requires few { count ≤ 8 }
        requires registers { (output : ℕ) (register : Register) → output < count →
            IsTrue (register_accepts register
            (slice_index (slice_index_or words output []) (register_number register))) }
        requires protection { IsTrue (cell_accepts Cell.Protect protect) }
        ensures count { result.count ≡ count }
        ensures registers { (output : ℕ) (register : Register) → output < 8 →
            word_at result.words (Cell.Out output register)
            ≡ slice_index (slice_index_or words output []) (register_number register) }
        ensures protection { word_at result.words Cell.Protect ≡ protect }
        ensures words { AreWords result.words }
    {
        Plain {
            count,
            words: in_places(words, protect),
        }
    }

    /// The settings with these words, each at the place of its cell. None if a converter can't have them: the
    /// count isn't 1 to 8, or a cell that there is doesn't accept its word.
    #[tactic(auto, using(crate::proofs::MapLaws::accepted_settings))]
    pub fn of(count: u8, words: [u16; Cell::PLACES]) -> Option<Plain>
        ensures { result ≡ settings_in count words }
    {
        cells_have_places();
        if count < 1 || 8 < count || !are_accepted(count, &words) {
            return None;
        }
        Some(Plain { count, words })
    }

    /// The words, each at the place of its cell: [`Plain::of`] makes these settings of them and of their count.
    #[tactic(auto, using(crate::proofs::MapLaws::settings_again))]
    pub fn words(&self) -> [u16; Cell::PLACES]
        ensures words { result ≡ self.now.words }
        ensures back { settings_in self.now.count result ≡ Some self.now }
    {
        cells_have_places();
        self.words
    }

    /// A copy of the settings, which can't fail.
    pub fn copied(&self) -> Plain
        ensures { result ≡ self.now }
    {
        Plain { ..*self }
    }

    /// How many outputs there are, 1 to 8.
    pub fn count(&self) -> u8
        ensures count { result ≡ self.now.count }
        ensures some { 1 ≤ result }
        ensures few { result ≤ 8 }
        ensures words { AreWords self.now.words }
        ensures settings { AreSettings self.now }
    {
        self.count
    }

    /// Whether there is such a cell: WRITE_PROTECT, or a cell of an output that is there.
    pub fn has(&self, cell: Cell) -> bool
        ensures { IsTrue result ↔ IsCell self.now.count cell }
    {
        cell.is_there(self.count)
    }

    /// The word of a cell that there is, one that the cell accepts.
    #[tactic(auto, unfolding(crate::specs::Settings::word_at, crate::specs::Settings::AreWords))]
    pub fn get(&self, cell: Cell) -> u16
        requires { IsCell self.now.count cell }
        ensures word { result ≡ word_at self.now.words cell }
        ensures accepted { cell_accepts cell result ≡ true }
    {
        let words = &self.words;
        words[cell.place()]
    }

    /// Gives a cell that there is another word. Asks that the cell accepts it.
    #[tactic(auto, unfolding(crate::specs::Settings::with_word, crate::specs::Settings::AreWords))]
    pub fn put(&mut self, cell: Cell, word: u16)
        requires cell { IsCell self.old.count cell }
        requires accepted { IsTrue (cell_accepts cell word) }
        ensures { self.new
            ≡ record { count = self.old.count; words = with_word self.old.words cell word } }
    {
        // There are eight outputs at most, and every other cell keeps its word.
        let _count = self.count();
        settings_are_a_map();
        cells_are_told_apart();
        self.words[cell.place()] = word;
    }

    /// The settings with another word for a cell that there is. Asks that the cell accepts it.
    pub fn with(&self, cell: Cell, word: u16) -> Plain
        requires cell { IsCell self.now.count cell }
        requires accepted { IsTrue (cell_accepts cell word) }
        ensures { result
            ≡ record { count = self.now.count; words = with_word self.now.words cell word } }
    {
        let mut changed = self.copied();
        changed.put(cell, word);
        changed
    }

    /// Gives the outputs their words of other settings; WRITE_PROTECT keeps its word. Asks that there are as
    /// many outputs in both.
    #[tactic(auto, unfolding(crate::specs::Settings::with_outputs))]
    pub fn take_outputs(&mut self, others: &Plain)
        requires { others.now.count ≡ self.old.count }
        ensures taken { self.new ≡ record {
          count = self.old.count;
          words = spec_with_outputs self.old.words others.now.words;
        } }
        ensures protection { word_at self.new.words Cell.Protect ≡ word_at self.old.words Cell.Protect }
    {
        // law: settings are a map, and each cell of the others has a word
        settings_are_a_map();
        let _count = others.count();
        let protect = self.get(Cell::Protect);
        self.words = others.words;
        self.put(Cell::Protect, protect);
    }

    /// The voltage that an output which is there commands: the value of the word that OPERATION selects,
    /// VOUT_COMMAND or a margin, cut to those of VOUT_MIN and VOUT_MAX. What is cut is VOUT_MAX if VOUT_MIN
    /// is above VOUT_MAX. Volts; an output that is off keeps it.
    #[tactic(auto, unfolding(crate::specs::Commanded::commanded, crate::specs::Commanded::is_cut))]
    pub fn commanded(&self, formats: &Formats, output: u8) -> Frac
        requires { output < self.now.count }
        ensures value { result
            ≡ commanded (scale_at formats.now.each output) self.now.words output }
        ensures limited { spec_is_above result
            (greatest_value (scale_at formats.now.each output) self.now.words output) ≡ false }
        ensures floored { spec_is_above
            (least_value (scale_at formats.now.each output) self.now.words output)
            (greatest_value (scale_at formats.now.each output) self.now.words output) ≡ false →
            spec_is_above (least_value (scale_at formats.now.each output) self.now.words output)
            result ≡ false }
    {
        // For the clauses `limited` and `floored`.
        commands_are_limited();
        let format = self.format(formats, output);
        let selected = self.selected(output);
        let least = self.word(output, Reg::VoutMin);
        let greatest = self.word(output, Reg::VoutMax);
        if !is_outside(format, selected, least, greatest) {
            format.value_of(selected)
        } else if format.is_above(selected, greatest) || format.is_above(least, greatest) {
            format.value_of(greatest)
        } else {
            format.value_of(least)
        }
    }

    /// Whether the value of the word that OPERATION selects is above that of VOUT_MAX, or below that
    /// of VOUT_MIN.
    #[tactic(auto, unfolding(crate::specs::Commanded::is_cut))]
    pub fn is_cut(&self, formats: &Formats, output: u8) -> bool
        requires { output < self.now.count }
        ensures { result ≡ is_cut (scale_at formats.now.each output) self.now.words output }
    {
        is_outside(
            self.format(formats, output),
            self.selected(output),
            self.word(output, Reg::VoutMin),
            self.word(output, Reg::VoutMax),
        )
    }

    // The word that the output's OPERATION selects.
    #[tactic(auto, unfolding(crate::specs::Commanded::selected))]
    fn selected(&self, output: u8) -> u16
        requires { output < self.now.count }
        ensures { result ≡ selected self.now.words output }
    {
        let operation = self.word(output, Reg::Operation);
        self.word(output, Operation::selected_register(operation))
    }

    // The word of an output's register.
    fn word(&self, output: u8, register: Reg) -> u16
        requires { output < self.now.count }
        ensures { result ≡ word_at self.now.words (Cell.Out output register) }
    {
        self.get(Cell::Out(output, register))
    }

    // What the words of an output's voltages stand for.
    fn format<'a>(&self, formats: &'a Formats, output: u8) -> &'a AnyFormat
        requires { output < self.now.count }
        ensures { any_value result.now ≡ scale_at formats.now.each output }
    {
        // There is a format for each of eight outputs at most.
        let _count = self.count();
        &formats.each[usize::from(output)]
    }
}

// Whether the value of the selected word is above that of the greatest one, or below that of the least
// one.
fn is_outside(format: &AnyFormat, selected: u16, least: u16, greatest: u16) -> bool
    ensures { let value = any_value format.now in
        result ≡ spec_is_outside (value selected) (value least) (value greatest) }
{
    format.is_above(selected, greatest) || format.is_above(least, selected)
}
