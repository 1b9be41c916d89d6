//! The names of bits.
ghost use Rattle.std.specs.Prelude.{◌≡◌, ◌++◌, OnOk, map, string_bytes};
ghost use Rattle.pm_trace.specs.Statuses.{names_from};

use crate::status::Row;
use std::alloc::AllocError;

/// What stands around each of several names, and between two of them.
#[derive(Clone, Copy, Debug)]
pub struct NameMarks<'a> {
    /// Before and after each name.
    pub around: &'a str,
    /// Between two names.
    pub between: &'a str,
}

/// Appends the names of the bits that are set to a text; `is_first` is whether none stands before them.
#[tactic(auto, using(pm_lines::specs::Lemmas::Joins::joins))]
pub fn push_names(
    text: &mut String,
    marks: &NameMarks<'_>,
    rows: &[Row],
    bits: u16,
    is_first: bool,
) -> Result<(), AllocError>
    ensures { OnOk result (string_bytes text.new ≡ string_bytes text.old
        ++ names_from marks.now.between.now marks.now.around.now is_first (map (λ row. (row.0, row.1.now)) rows.now) bits) }
{
    let [(bit, name), rest @ ..] = rows else {
        return Ok(());
    };
    if bits & *bit == 0 {
        return push_names(text, marks, rest, bits, is_first);
    }
    push_name(
        text,
        if is_first { "" } else { marks.between },
        marks.around,
        name,
    )?;
    push_names(text, marks, rest, bits, false)
}

// Appends a name with a text around it, and another text before both.
#[tactic(auto, using(pm_lines::specs::Lemmas::Joins::joins))]
fn push_name(text: &mut String, before: &str, around: &str, name: &str) -> Result<(), AllocError>
    ensures { OnOk result (string_bytes text.new ≡ string_bytes text.old
        ++ (before.now ++ (around.now ++ (name.now ++ around.now)))) }
{
    text.push_str(before)?;
    text.push_str(around)?;
    text.push_str(name)?;
    text.push_str(around)
}
