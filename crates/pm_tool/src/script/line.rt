//! What a line of `hear` asks.

ghost use Rattle.std.specs.Prelude.{◌≡◌, ◌⊎◌, Ok, Err, codes, IfOk, IfErr, OnOk};
ghost use Rattle.pm_lines.specs.Faults.{IsOfText};
ghost use Rattle.pm_lines.specs.Lines.{words_of};
ghost use Rattle.pm_lines.specs.declared.fault.TextFault.TheVariants.{Memory};
ghost use Rattle.pm_tool.specs.Script.{begins_with, line_event, restart_event};
ghost use Rattle.pm_tool.specs.LineEvent.{event_of_line};
ghost use Rattle.pm_device.specs.Effect.{Restarted};

use pm_device::Ending;
use pm_lines::{Line, TextFault, Words, cut_at, is_blank, push_bytes};

/// What a line of `hear` asks. The bytes of a frame stand elsewhere, since a buffer of their own
/// serves all lines.
#[derive(Clone, Copy, Debug, PartialEq, Eq)]
pub(super) enum LineEvent {
    /// The converter hears a frame that ends so.
    Frame(Ending),
    /// The converter starts again.
    Restart,
}

/// What a line that is not skipped asks, with the bytes of its frame, if any. X1 for more words
/// after `restart` or after a `/`, X2 for a frame that isn't hexadecimal, X6 if memory for the
/// bytes was refused.
#[tactic(auto, using(crate::proofs::Texts::uncut), unfolding(crate::specs::Script::line_event))]
pub(super) fn read_event(line: Line<'_>, frame: &mut Vec<u8>) -> Result<LineEvent, TextFault>
    ensures event { IfOk result (λ event.
        line_event (line.entry.number, line.entry.text.now) ≡ Ok (event_of_line event frame.new.items)) }
    ensures fault { IfErr result (λ e. (e ≡ Memory)
        ⊎ (line_event (line.entry.number, line.entry.text.now) ≡ Err e)) }
    ensures faults { IfErr result IsOfText }
{
    if is_restart(line) {
        read_restart(line)?;
        return Ok(LineEvent::Restart);
    }
    frame.clear();
    if !line.text.contains(&b'/') {
        push_bytes(line, frame)?;
        return Ok(LineEvent::Frame(Ending::Stop));
    }
    let (front, rest) = cut_at(line.text, b'/');
    push_bytes(
        Line {
            number: line.number,
            text: front,
        },
        frame,
    )?;
    if is_blank(rest) {
        return Ok(LineEvent::Frame(Ending::Restart));
    }
    Err(TextFault::Syntax(line.number))
}

// X1 if more words than one stand in a line that begins with `restart`.
fn read_restart(line: Line<'_>) -> Result<(), TextFault>
    ensures event { OnOk result
        (restart_event line.entry.number (words_of line.entry.text.now) ≡ Ok Restarted) }
    ensures fault { IfErr result (λ e.
        restart_event line.entry.number (words_of line.entry.text.now) ≡ Err e) }
    ensures faults { IfErr result IsOfText }
{
    let mut words = Words::new(line);
    match (words.next_word(), words.next_word()) {
        (Some(_restart), None) => Ok(()),
        _ => Err(TextFault::Syntax(line.number)),
    }
}

// Whether the first word of the line is `restart`.
fn is_restart(line: Line<'_>) -> bool
    ensures { result ≡ begins_with (codes "restart") (words_of line.entry.text.now) }
{
    match Words::new(line).next_word() {
        Some(word) => word == b"restart".as_slice(),
        None => false,
    }
}
