//! Frames in hexadecimal, how they arrive, and what comes back.
ghost use Rattle.std.specs.Prelude.{◌≡◌, Some, None, Ok, Err, MatchOption, MatchResult};
ghost use Rattle.pm_text.specs.EventLines.{arrival as arrival_field, back as back_field, ending_named};
ghost use Rattle.pm_text.specs.Kinds.{frame_bytes as frame_bytes_of};
ghost use Rattle.pm_text.specs.Readers.{Reads, field};
ghost use Rattle.pm_text.specs.declared.scenario.fault.ScenarioFault.TheVariants.{Syntax, BadHex};

use crate::scenario::fault::ScenarioFault;
use crate::scenario::fields::Fields;
use pm_device::Ending;
use pm_frame::Frame;
use pm_lines::pair_of;
use pm_world::{Arrival, Back};

/// `whole`, `cut N`, or `bytes HEX stop` or `bytes HEX restart`.
#[tactic(auto, unfolding(crate::specs::EventLines::arrival))]
pub(crate) fn arrival(fields: &mut Fields<'_>) -> Result<Arrival, ScenarioFault>
    ensures { Reads result fields.new (arrival_field fields.old) }
{
    if fields.takes("whole") {
        Ok(Arrival::Whole)
    } else if fields.takes("cut") {
        let count = fields.small_number()?;
        Ok(Arrival::Cut(count))
    } else if fields.takes("bytes") {
        let frame = frame(fields)?;
        let ending = ending(fields)?;
        Ok(Arrival::Bytes(frame, ending))
    } else {
        fields.word()?;
        Err(fields.syntax())
    }
}

/// `whole`, `cut N` or `bytes HEX`.
#[tactic(auto, unfolding(crate::specs::EventLines::back))]
pub(crate) fn back(fields: &mut Fields<'_>) -> Result<Back, ScenarioFault>
    ensures { Reads result fields.new (back_field fields.old) }
{
    if fields.takes("whole") {
        Ok(Back::Whole)
    } else if fields.takes("cut") {
        let count = fields.small_number()?;
        Ok(Back::Cut(count))
    } else if fields.takes("bytes") {
        let frame = frame(fields)?;
        Ok(Back::Bytes(frame))
    } else {
        fields.word()?;
        Err(fields.syntax())
    }
}

// How the bytes are ended: `stop` or `restart`.
fn ending(fields: &mut Fields<'_>) -> Result<Ending, ScenarioFault>
    ensures { Reads result fields.new (field Syntax ending_named fields.old) }
{
    if fields.takes("stop") {
        Ok(Ending::Stop)
    } else if fields.takes("restart") {
        Ok(Ending::Restart)
    } else {
        fields.word()?;
        Err(fields.syntax())
    }
}

// The bytes of a frame, 1 to 16 of them, as one word: otherwise X2.
fn frame(fields: &mut Fields<'_>) -> Result<Frame, ScenarioFault>
    ensures { MatchResult result
        (λ frame. field BadHex frame_bytes_of fields.old ≡ Ok (frame.items, fields.new))
        (λ fault. field BadHex frame_bytes_of fields.old ≡ Err fault) }
{
    let word = fields.word()?;
    match frame_of(word) {
        Some(frame) => Ok(frame),
        None => Err(fields.bad_hex()),
    }
}

/// The bytes of a word of 2 to 32 hexadecimal digits, an even number of them. `None` for another word.
pub fn frame_of(word: &[u8]) -> Option<Frame>
    ensures { MatchOption result (frame_bytes_of word.now ≡ None)
        (λ frame. frame_bytes_of word.now ≡ Some frame.items) }
{
    let mut frame = Frame::new();
    let mut digits = word;
    'pairs: while let [high, low, more @ ..] = digits {
        let Some(byte) = pair_of(*high, *low) else {
            return None;
        };
        if frame.try_push(byte).is_err() {
            return None;
        }
        digits = more;
    }
    if digits.is_empty() && !frame.is_empty() {
        Some(frame)
    } else {
        None
    }
}
