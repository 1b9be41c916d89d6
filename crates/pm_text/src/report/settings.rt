//! The lines of settings: what the converter holds of a cell, and what the host says of it.
ghost use Rattle.std.specs.Prelude.{◌≡◌, ◌<◌, ◌++◌, OnOk, codes, string_bytes};
ghost use Rattle.pm_host.specs.Summary.{possible_at, standing_at};
ghost use Rattle.pm_table.specs.Cell.{IsCell};
ghost use Rattle.pm_text.specs.Report.{cell_word_text, possible_text, register_line, cell_said_text, setting_line, spaced_words, standing_text};

use crate::form::Form;
use pm_host::{Possible, Standing};
use pm_lines::{push_hex, push_hex_word};
use pm_table::{Cell, Reg};
use pm_world::World;
use std::alloc::AllocError;

/// Appends the line of an output's register.
pub(crate) fn push_register(
    text: &mut String,
    form: Form,
    world: &World,
    output: u8,
    register: Reg,
) -> Result<(), AllocError>
    requires { output < world.now.device.config.count }
    ensures { OnOk result (string_bytes text.new
        ≡ string_bytes text.old ++ register_line form world.now output register) }
{
    let cell = Cell::Out(output, register);
    push_setting(text, form, world, cell.name(), cell)
}

/// Appends the line of a cell, under this name.
#[tactic(auto, using(pm_lines::specs::Lemmas::Joins::joins), unfolding(crate::specs::Report::setting_line))]
pub(crate) fn push_setting(
    text: &mut String,
    form: Form,
    world: &World,
    name: &str,
    cell: Cell,
) -> Result<(), AllocError>
    requires { IsCell world.now.device.config.count cell }
    ensures { OnOk result (string_bytes text.new
        ≡ string_bytes text.old ++ setting_line form world.now name.now cell) }
{
    text.push_str(name)?;
    text.push_str(" ")?;
    push_cell_word(text, cell, world.device().word(cell))?;
    text.push_str(" host ")?;
    push_said(text, form, world, cell)?;
    text.push_str("\n")
}

// What the host says of a cell, and what texts of this form tell more of it.
#[tactic(auto, using(pm_lines::specs::Lemmas::Joins::joins))]
fn push_said(text: &mut String, form: Form, world: &World, cell: Cell) -> Result<(), AllocError>
    requires { IsCell world.now.device.config.count cell }
    ensures { OnOk result (string_bytes text.new ≡ string_bytes text.old
        ++ cell_said_text form cell (standing_at world.now.host cell) (possible_at world.now.host cell)) }
{
    let standing = world.host().standing(cell);
    push_standing(text, cell, standing)?;
    match (form, standing) {
        (Form::First, _) | (_, Standing::Confirmed(_)) => Ok(()),
        (_, Standing::Unknown) => push_possible(text, cell, world.host().possible(cell)),
    }
}

// What the host says of a cell.
#[tactic(auto, using(pm_lines::specs::Lemmas::Joins::joins))]
fn push_standing(text: &mut String, cell: Cell, standing: Standing) -> Result<(), AllocError>
    ensures { OnOk result (string_bytes text.new
        ≡ string_bytes text.old ++ standing_text cell standing) }
{
    match standing {
        Standing::Confirmed(word) => {
            text.push_str("confirmed ")?;
            push_cell_word(text, cell, word)
        }
        Standing::Unknown => text.push_str("unknown"),
    }
}

// The words that a cell may hold.
#[tactic(auto, using(pm_lines::specs::Lemmas::Joins::joins))]
fn push_possible(text: &mut String, cell: Cell, possible: Possible) -> Result<(), AllocError>
    ensures { OnOk result (string_bytes text.new
        ≡ string_bytes text.old ++ (codes " possible" ++ possible_text cell possible)) }
{
    text.push_str(" possible")?;
    match possible {
        Possible::Any => text.push_str(" any"),
        Possible::Words(words) => push_words(text, cell, words.as_slice()),
    }
}

// Words, each after a space.
fn push_words(text: &mut String, cell: Cell, words: &[u16]) -> Result<(), AllocError>
    ensures { OnOk result (string_bytes text.new
        ≡ string_bytes text.old ++ spaced_words cell words.now) }
{
    for word in words {
        push_spaced(text, cell, *word)?;
    }
    Ok(())
}

// One word, after a space.
#[tactic(auto, using(pm_lines::specs::Lemmas::Joins::joins))]
fn push_spaced(text: &mut String, cell: Cell, word: u16) -> Result<(), AllocError>
    ensures { OnOk result (string_bytes text.new
        ≡ string_bytes text.old ++ (codes " " ++ cell_word_text cell word)) }
{
    text.push_str(" ")?;
    push_cell_word(text, cell, word)
}

// A cell's word with its digits.
fn push_cell_word(text: &mut String, cell: Cell, word: u16) -> Result<(), AllocError>
    ensures { OnOk result (string_bytes text.new
        ≡ string_bytes text.old ++ cell_word_text cell word) }
{
    if cell.is_voltage() {
        push_hex_word(text, word)
    } else {
        push_hex(text, (word % 256) as u8)
    }
}
