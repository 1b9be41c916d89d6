//! The text of the counts.
ghost use Rattle.std.specs.Prelude.{◌≡◌, ◌++◌, OnOk, string_bytes};
ghost use Rattle.pm_trace.specs.TraceText.{count_line};

use pm_lines::push_decimal;
use pm_table::Code;
use std::alloc::AllocError;

/// Appends the line of a code to a text.
#[tactic(auto, using(pm_lines::specs::Lemmas::Joins::joins), unfolding(crate::specs::TraceText::count_line))]
pub fn push_count(text: &mut String, code: u8, count: u64) -> Result<(), AllocError>
    ensures { OnOk result (string_bytes text.new ≡ string_bytes text.old ++ count_line (code, count)) }
{
    text.push_str("count ")?;
    text.push_str(Code(code).name())?;
    text.push_str(" ")?;
    push_decimal(text, count)?;
    text.push_str("\n")
}
