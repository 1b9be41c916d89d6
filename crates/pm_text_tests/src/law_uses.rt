//! A caller for each law of lines, traces, captures, numbers, scenarios and logs: a function that has what the law says.

ghost use Rattle.pm_decode.specs.CaptureText.{capture_text};
ghost use Rattle.pm_decode.specs.Options.{plain_options};
ghost use Rattle.pm_limits.specs.Part.{has_register};
ghost use Rattle.pm_limits.specs.declared.part_registers.PartRegisters.{PartRegisters};
ghost use Rattle.pm_lines.specs.Engine.{IsSettled, engine_outcome};
ghost use Rattle.pm_log.specs.Checks.{Accepts};
ghost use Rattle.pm_log.specs.Lacks.{part_at};
ghost use Rattle.pm_log.specs.Laws.{IsTrusted, TextLines, are_lacking, known_of_lines, log_of_lines};
ghost use Rattle.pm_log.specs.Logs.{Known};
ghost use Rattle.pm_log.specs.Texts.{log_of};
ghost use Rattle.pm_log.specs.declared.claim.Claim.{Claim};
ghost use Rattle.pm_log.specs.declared.log_line.LogLine.{LogLine};
ghost use Rattle.pm_log.specs.declared.log_line.LogLine.TheVariants.{Claimed};
ghost use Rattle.pm_model.specs.Commanded.{is_above};
ghost use Rattle.pm_num.specs.AnyFormat.{Shape, shape_value};
ghost use Rattle.pm_num.specs.Ratio.{IsMicroFloor};
ghost use Rattle.pm_table.specs.Format.{shape_in};
ghost use Rattle.pm_table.specs.VoutMode.{mode_of};
ghost use Rattle.pm_table.specs.declared.coefficients.Coefficients.{Coefficients};
ghost use Rattle.pm_table.specs.declared.reg.Reg.{Reg};
ghost use Rattle.pm_table.specs.declared.vout_mode.VoutMode.{VoutMode};
ghost use Rattle.pm_text.specs.Replay.{replaying};
ghost use Rattle.pm_text.specs.ScenarioText.{lowest_word};
ghost use Rattle.pm_tool.specs.NumberText.{IsFormat, IsNumberText};
ghost use Rattle.pm_trace.specs.Counts.{counts_of};
ghost use Rattle.pm_trace.specs.Decoding.{Holding};
ghost use Rattle.pm_trace.specs.Pieces.{Decodes};
ghost use Rattle.pm_trace.specs.Trace.{ToldLine, trace_of};
ghost use Rattle.pm_trace.specs.TraceText.{trace_text};
ghost use Rattle.pm_trace.specs.declared.formats.GivenFormats.{GivenFormats};
ghost use Rattle.std.specs.List.{concat};
ghost use Rattle.std.specs.Prelude.{Bool, IfSome, IsFalse, IsSomeAnd, List, Ok, [], false, not, reverse, ℕ, ◌++◌, ◌<◌, ◌∷◌, ◌≡◌};

use pm_decode::plain_captures_are_traces;
use pm_lines::ends_follow_the_input;
use pm_log::logs_are_checked;
use pm_num::Frac;
use pm_text::{Decoder, ReplayEnd, Sink, Source, TextFault, lowest_words_cut_nothing, replay};
use pm_tool::number_has_one_text;
use pm_trace::{microvolts_are_the_floor, millionths, pieces_do_not_matter};
use std::alloc::Global;
use std::io::{Read, Write};

/// A replay over streams that serve ends as the bytes of its input say, however the reader cuts them.
pub fn a_replay_of_a_text<R: Read, W: Write>(
    alloc: Global,
    reader: &mut Source<R>,
    writer: &mut Sink<W>,
) -> Result<ReplayEnd, TextFault>
    requires reader { IsFalse reader.old.failed }
    requires writer { IsFalse writer.old.failed }
    ensures { IsSettled result → IfSome (R.remaining reader.old.inner) (λ input. result ≡ engine_outcome replaying input) }
{
    ends_follow_the_input::<R, W, ReplayEnd>();
    replay(alloc, reader, writer)
}

/// A new decoder shows the lines of the joined pieces that it gets, and counts what these say.
pub fn a_decoder_of_pieces(alloc: Global) -> Decoder
    ensures lines { (new : Holding) (pieces : List (List ℕ)) (lines : List ToldLine) →
        Decodes result pieces lines new → lines ≡ trace_of (concat pieces) }
    ensures counts { (new : Holding) (pieces : List (List ℕ)) (lines : List ToldLine) →
        Decodes result pieces lines new → new.kept.counts ≡ counts_of (trace_of (concat pieces)) }
{
    pieces_do_not_matter();
    Decoder::new(alloc)
}

/// The VOUT_MIN that an output has whose text doesn't name it is above no word of its format.
pub fn a_vout_min_that_no_text_names(mode: u8, word: u16)
    ensures { (read : VoutMode) (c : Coefficients) (shape : Shape) → mode_of mode ≡ Ok read → shape_in read c ≡ Ok shape →
        is_above (shape_value shape (lowest_word mode c)) (shape_value shape word) ≡ false }
{
    lowest_words_cut_nothing();
}

/// The microvolts that are shown of a voltage are the most whole ones that aren't above it.
pub fn microvolts_of(voltage: Frac) -> i128
    ensures { 0 < voltage.den → IsMicroFloor voltage result }
{
    microvolts_are_the_floor();
    millionths(voltage)
}

/// A capture that is shown without options is shown as a trace.
pub fn a_capture_without_options(text: &[u8])
    ensures { (formats : GivenFormats) (long : Bool) (gap : ℕ) (parts muxes : List Bool) →
        capture_text (plain_options formats long gap parts muxes) text.now ≡ trace_text text.now }
{
    plain_captures_are_traces();
}

/// Two runs of `number` that are asked the same print the same line.
pub fn one_question_has_one_line()
    ensures { (asked : _) (first second : List ℕ) → IsNumberText (Ok asked) first → IsNumberText (Ok asked) second →
        IsFormat asked.format → first ≡ second }
{
    number_has_one_text();
}

/// A text that is accepted is lines that each say something, and each claim in such lines is one that `check` accepts of the acts before it,
/// and that says of the part what the receiver lets it. What is named as lacking is what such claims say.
pub fn a_log_that_is_accepted(text: &[u8])
    ensures lines { (allowed : List PartRegisters) (known : Known) → log_of allowed text.now ≡ Ok known →
        TextLines allowed text.now known }
    ensures claims { (allowed : List PartRegisters) (later before : List LogLine) (claim : Claim) (known : Known) →
        known_of_lines allowed (later ++ Claimed claim ∷ before) ≡ Ok known →
        IsSomeAnd (log_of_lines before) (λ log. Accepts log.setup (reverse log.acts) (claim ∷ [])
        × IsTrusted allowed log.setup.addr before claim) }
    ensures lacking { (allowed : List PartRegisters) (lines : List LogLine) (known : Known) (addr : ℕ) (register : Reg) →
        known_of_lines allowed lines ≡ Ok known →
        has_register (part_at known.without addr) register ≡ not (are_lacking addr register lines) }
{
    logs_are_checked();
}
