//! The words of an output's registers whose values lie farthest out on a side.
ghost use Rattle.std.specs.Prelude.{◌≡◌, ◌<◌, ℕ, None, option_map};
ghost use Rattle.pm_host.specs.Image.{held};
ghost use Rattle.pm_num.specs.AnyFormat.{voltage_value, voltage_shape};
ghost use Rattle.pm_table.specs.declared.reg.Reg.TheVariants.{VoutMax, VoutMin};
ghost use Rattle.pm_table.specs.Cell.{IsCell};
ghost use Rattle.pm_host.specs.Summary.{format_at, possible_at};
ghost use Rattle.pm_model.specs.Commanded.{limited as spec_limited, selected_register};
ghost use Rattle.pm_limits.specs.Band.{known_of_output, word_end};
ghost use Rattle.pm_limits.specs.Ends.{candidates as spec_candidates, format_end as spec_format_end, shape_ends, farthest as spec_farthest, farthest_word, farthest_of as spec_farthest_of, is_farther as spec_is_farther};
ghost use Rattle.pm_limits.specs.OutputEnds.{end_in, selected_end_value, word_on};
ghost use Rattle.pm_limits.specs.declared.ends.Side.{Side};

use crate::part_registers::PartRegisters;
use pm_host::State;
use pm_num::{Frac, NumFormat, VoltageFormat};
use pm_table::{Cell, Operation, Reg};

/// A side of a band.
#[derive(Clone, Copy, Debug, PartialEq, Eq)]
pub enum Side {
    /// Towards lower voltages.
    Lowest,
    /// Towards higher ones.
    Highest,
}

impl Side {
    /// Whether the value of the other word lies farther out on this side.
    pub(crate) fn is_farther(self, format: &VoltageFormat, word: u16, other: u16) -> bool
        ensures { result ≡ spec_is_farther self (voltage_value format.now word) (voltage_value format.now other) }
    {
        match self {
            Side::Lowest => format.is_above(word, other),
            Side::Highest => format.is_above(other, word),
        }
    }
}

// The words of the ends of each format, in one order or the other.
static ULINEAR16_ENDS: [u16; 2] = [0x0000, 0xFFFF];

static DIRECT_ENDS: [u16; 2] = [0x7FFF, 0x8000];

/// The two words of a register, of those that it may hold, whose values lie farthest out.
#[derive(Clone, Copy)]
struct WordEnds {
    lowest: u16,
    highest: u16,
}

/// Those of each register of an output that decides its voltage. Each register's words are looked at once, whatever is
/// asked of them.
#[derive(Clone, Copy)]
pub(crate) struct OutputEnds {
    command: WordEnds,
    high: WordEnds,
    low: WordEnds,
    min: WordEnds,
    max: WordEnds,
}

impl WordEnds {
    // The word on one side.
    fn on(self, side: Side) -> u16
        ensures { result ≡ word_on side self }
    {
        match side {
            Side::Lowest => self.lowest,
            Side::Highest => self.highest,
        }
    }
}

impl OutputEnds {
    /// The ends of what an output's registers may hold. The output's number is below 8.
    pub(crate) fn of(
        format: &VoltageFormat,
        host: &State,
        registers: PartRegisters,
        output: u8,
    ) -> OutputEnds
        requires { output < 8 }
        ensures selected { (side : Side) (byte : ℕ) →
            word_on side (end_in result (selected_register byte))
            ≡ word_end side (voltage_shape format.now) (known_of_output registers (voltage_shape format.now) (held None host.now) output) (selected_register byte) }
        ensures least { (side : Side) → word_on side result.min
            ≡ word_end side (voltage_shape format.now)
            (known_of_output registers (voltage_shape format.now) (held None host.now) output) VoutMin }
        ensures greatest { (side : Side) → word_on side result.max
            ≡ word_end side (voltage_shape format.now)
            (known_of_output registers (voltage_shape format.now) (held None host.now) output) VoutMax }
    {
        OutputEnds {
            command: ends_at(format, host, registers, output, Reg::VoutCommand),
            high: ends_at(format, host, registers, output, Reg::MarginHigh),
            low: ends_at(format, host, registers, output, Reg::MarginLow),
            min: ends_at(format, host, registers, output, Reg::VoutMin),
            max: ends_at(format, host, registers, output, Reg::VoutMax),
        }
    }

    /// How far out on a side the output may command, with one of these bytes in OPERATION.
    pub(crate) fn reached(&self, side: Side, format: &VoltageFormat, bytes: &[u16]) -> Frac
        ensures { let value = voltage_value format.now in
            let selected = selected_end_value side value self.now in
            result ≡ spec_limited (selected (spec_farthest_of side selected bytes.now))
            (value (word_on side self.now.min)) (value (word_on side self.now.max)) }
    {
        let selected = self.word(side, self.farthest(side, format, bytes));
        limited(format, selected, self.min.on(side), self.max.on(side))
    }

    // The end of the register that a byte of OPERATION selects.
    fn word(&self, side: Side, byte: u16) -> u16
        ensures { result ≡ word_on side (end_in self.now (selected_register byte)) }
    {
        let ends = match Operation::selected_register(byte) {
            Reg::MarginHigh => self.high,
            Reg::MarginLow => self.low,
            _ => self.command,
        };
        ends.on(side)
    }

    // Whether the register that the other byte selects has the farther end.
    #[tactic(auto, unfolding(crate::specs::OutputEnds::selected_end_value))]
    fn is_farther(&self, side: Side, format: &VoltageFormat, byte: u16, other: u16) -> bool
        ensures { let value = selected_end_value side (voltage_value format.now) self.now in
            result ≡ spec_is_farther side (value byte) (value other) }
    {
        side.is_farther(format, self.word(side, byte), self.word(side, other))
    }

    // The byte of several whose selected register has the farthest end; 0 if there is none.
    fn farthest(&self, side: Side, format: &VoltageFormat, bytes: &[u16]) -> u16
        ensures { result
            ≡ spec_farthest_of side (selected_end_value side (voltage_value format.now) self.now) bytes.now }
    {
        match bytes.split_first() {
            Some((first, rest)) => self.farthest_from(side, format, *first, rest),
            None => 0,
        }
    }

    // The byte of a first one and others whose selected register has the farthest end.
    fn farthest_from(&self, side: Side, format: &VoltageFormat, first: u16, others: &[u16]) -> u16
        ensures { result
            ≡ spec_farthest side (selected_end_value side (voltage_value format.now) self.now) first others.now }
    {
        let mut farthest = first;
        for byte in others {
            if self.is_farther(side, format, farthest, *byte) {
                farthest = *byte;
            }
        }
        farthest
    }
}

/// The format of an output's voltages, as far as it is known.
#[inline(always)]
pub(crate) fn format_in(host: &State, output: u8) -> Option<VoltageFormat>
    requires { output < 8 }
    ensures { option_map voltage_shape result ≡ format_at (held None host.now) output }
{
    host.format(output).voltage_format()
}

// The words of an output's voltage, of those that it may hold, whose values lie farthest out.
fn ends_at(
    format: &VoltageFormat,
    host: &State,
    registers: PartRegisters,
    output: u8,
    register: Reg,
) -> WordEnds
    requires { output < 8 }
    ensures { (side : Side) → word_on side result
        ≡ word_end side (voltage_shape format.now)
        (known_of_output registers (voltage_shape format.now) (held None host.now) output) register }
{
    match registers.missing_word(format, register) {
        Some(word) => WordEnds {
            lowest: word,
            highest: word,
        },
        None => ends_in(format, host, Cell::Out(output, register)),
    }
}

// The ends of a cell, by what the host knows.
fn ends_in(format: &VoltageFormat, host: &State, cell: Cell) -> WordEnds
    requires { IsCell 8 cell }
    ensures { (side : Side) → word_on side result
        ≡ farthest_word side (voltage_shape format.now) (voltage_value format.now) (possible_at (held None host.now) cell) }
{
    let words = candidates(format, host, cell);
    WordEnds {
        lowest: farthest(Side::Lowest, format, words),
        highest: farthest(Side::Highest, format, words),
    }
}

/// The word of a format's least value, or of its greatest.
pub(crate) fn format_end(side: Side, format: &VoltageFormat) -> u16
    ensures { result ≡ spec_format_end side (voltage_shape format.now) }
{
    farthest(side, format, format_ends(format))
}

// The words of the ends of a format.
fn format_ends(format: &VoltageFormat) -> &'static [u16]
    ensures { result.now ≡ shape_ends (voltage_shape format.now) }
{
    match format {
        VoltageFormat::Ulinear16(_) => &ULINEAR16_ENDS,
        VoltageFormat::Direct(_) => &DIRECT_ENDS,
    }
}

// The value of a word, cut to the values of two others. The upper limit wins if the lower one is above it.
fn limited(format: &VoltageFormat, selected: u16, least: u16, greatest: u16) -> Frac
    ensures { let value = voltage_value format.now in
        result ≡ spec_limited (value selected) (value least) (value greatest) }
{
    if format.is_above(selected, greatest)
        || format.is_above(least, selected) && format.is_above(least, greatest)
    {
        format.value_of(greatest)
    } else if format.is_above(least, selected) {
        format.value_of(least)
    } else {
        format.value_of(selected)
    }
}

// The words among which those that a voltage may hold reach farthest.
fn candidates<'a>(format: &VoltageFormat, host: &'a State, cell: Cell) -> &'a [u16]
    requires { IsCell 8 cell }
    ensures { result.now ≡ spec_candidates (voltage_shape format.now) (possible_at (held None host.now) cell) }
{
    match host.known.possible(cell).listed() {
        Some(words) => words,
        None => format_ends(format),
    }
}

// The word of several whose value lies farthest out; 0 if there is none.
fn farthest(side: Side, format: &VoltageFormat, words: &[u16]) -> u16
    ensures { result ≡ spec_farthest_of side (voltage_value format.now) words.now }
{
    match words.split_first() {
        Some((first, rest)) => farthest_from(side, format, *first, rest),
        None => 0,
    }
}

// The word of a first one and others whose value lies farthest out.
fn farthest_from(side: Side, format: &VoltageFormat, first: u16, others: &[u16]) -> u16
    ensures { result ≡ spec_farthest side (voltage_value format.now) first others.now }
{
    let mut farthest = first;
    for word in others {
        if side.is_farther(format, farthest, *word) {
            farthest = *word;
        }
    }
    farthest
}
