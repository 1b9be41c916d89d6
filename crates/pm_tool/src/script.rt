//! The frames of a text, as a converter hears them one after another.
ghost use Rattle.std.specs.Prelude.{◌≡◌, ◌⊎◌, ◌<◌, ◌^◌, ◌+◌, ◌++◌, List, length, is_err};
ghost use Rattle.std.specs.Prelude.{Ok, Err, IfOk, IfErr, OnOk, OnErr, IsErrOf, IsFalse};
ghost use Rattle.std.specs.Io.KnownBytes.{Appends};
ghost use Rattle.pm_lines.specs.Engine.{EngineEnds, over};
ghost use Rattle.pm_lines.specs.Faults.{IsOfText};
ghost use Rattle.pm_lines.specs.Lines.{unskipped_from};
ghost use Rattle.pm_lines.specs.Streams.{AppendsFront};
ghost use Rattle.pm_device.specs.Effect.{Event};
ghost use Rattle.pm_device.specs.History.{device_next, start_of};
ghost use Rattle.pm_text.specs.Base.{base};
ghost use Rattle.pm_tool.specs.LineEvent.{event_of_line};
ghost use Rattle.pm_tool.specs.Outcome.{hear_engine, IsOfHear};
ghost use Rattle.pm_tool.specs.Script.{as_line, events_of_lines, event_lines, event_words, converter_after, output_at, output_word_lines, printed_text};

mod answer_text;
mod heard_text;
mod line;
mod reply_text;

use line::{LineEvent, read_event};
use pm_device::Converter;
use pm_lines::{Lines, Sink, Source, TextFault, read_text};
use pm_table::{Cell, Reg};
use pm_text::base_converter;
use reply_text::{output_line, push_reply};
use std::alloc::{AllocError, Global};
use std::io::{Read, Write};

/// Reads a text, lets a fresh converter of the base configuration hear its frames, and writes a line
/// for each answer and then each output's word of VOUT_COMMAND.
///
/// A line of the text is a frame in hexadecimal, which a stop ends; a frame and `/`, if a
/// repeated start follows it; or `restart`, at which the converter starts again. The whole text is
/// read and checked before anything is written. Neither stream may have failed before. Takes memory
/// for the text, for the bytes of the longest frame and for the lines of the answers, as these grow.
///
/// # Errors
///
/// X3 if the text has more than 1,048,576 bytes; X4 if the reader failed; X1 or X2 for the
/// text's first faulty line; X5 if the writer failed, and then only a prefix of the text is
/// written; X6 if memory was refused. On any other refusal than X5 nothing was written.
pub fn hear<R: Read, W: Write>(
    alloc: Global,
    reader: &mut Source<R>,
    writer: &mut Sink<W>,
) -> Result<(), TextFault>
    requires reader { IsFalse reader.old.failed }
    requires writer { IsFalse writer.old.failed }
    // What is written is the text of the input's events. X7 never comes.
    ensures ends { EngineEnds hear_engine
        (over R.remaining reader.old reader.new W.contents writer.old writer.new) result }
    ensures faults { IfErr result IsOfHear }
{
    let input = read_text(alloc, reader)?;
    let (lines, converter) = answers_to(alloc, &input)?;
    put_text(writer, &lines, &converter)?;
    Ok(())
}

// The lines of a fresh converter's answers to a text, and the converter as it is then.
fn answers_to(alloc: Global, input: &[u8]) -> Result<(Vec<u8>, Converter), TextFault>
    requires { length input.now + 1 < 2 ^ 64 }
    ensures text { IfOk result (λ answers.
        printed_text input.now ≡ Ok (answers.0.items ++ output_word_lines answers.1)) }
    ensures fault { IfErr result (λ e. (e ≡ TextFault.Memory) ⊎ (printed_text input.now ≡ Err e)) }
    ensures faults { IfErr result IsOfText }
    ensures memory { IsErrOf result TextFault.Memory → 0 < length input.now }
{
    let mut converter = base_converter();
    let lines = answer_lines(alloc, input, &mut converter)?;
    Ok((lines, converter))
}

// The lines that a converter's answers to a text's events make, which it has heard then.
fn answer_lines(
    alloc: Global,
    input: &[u8],
    converter: &mut Converter,
) -> Result<Vec<u8>, TextFault>
    requires { length input.now + 1 < 2 ^ 64 }
    ensures lines { IfOk result (λ text. (events : List Event)
        × (events_of_lines (unskipped_from 1 input.now) ≡ Ok events)
        × (text.items ≡ event_lines converter.old events)
        × (converter.new ≡ converter_after converter.old events)) }
    ensures fault { IfErr result (λ e. (e ≡ TextFault.Memory)
        ⊎ (events_of_lines (unskipped_from 1 input.now) ≡ Err e)) }
    ensures faults { IfErr result IsOfText }
    ensures memory { IsErrOf result TextFault.Memory → 0 < length input.now }
{
    let mut text = Vec::new(alloc);
    let mut frame = Vec::new(alloc);
    let mut lines = Lines::new(input);
    'lines: while let Some(line) = lines.next_line() {
        let event = read_event(line, &mut frame)?;
        push_event(&mut text, converter, event, &frame)?;
    }
    Ok(text)
}

// Lets the converter hear a frame, or start again, and writes the line of it after a text.
fn push_event(
    text: &mut Vec<u8>,
    converter: &mut Converter,
    event: LineEvent,
    frame: &[u8],
) -> Result<(), AllocError>
    ensures text { OnOk result (text.new.items
        ≡ text.old.items ++ as_line (event_words converter.old (event_of_line event frame.now))) }
    ensures after { converter.new ≡ device_next converter.old (event_of_line event frame.now) }
{
    match event {
        LineEvent::Frame(ending) => push_reply(text, &converter.hear(frame, ending)),
        LineEvent::Restart => {
            converter.restart();
            text.extend_from_slice(b"restarted\n")
        }
    }
}

// Writes the lines of the answers, and then the line of each output. Takes no memory.
fn put_text<W: Write>(
    writer: &mut Sink<W>,
    lines: &[u8],
    converter: &Converter,
) -> Result<(), TextFault>
    requires { IsFalse writer.old.failed }
    ensures all { OnOk result (Appends (W.contents writer.old.inner) (W.contents writer.new.inner)
        (lines.now ++ output_word_lines converter.now)) }
    ensures front { OnErr result (AppendsFront (W.contents writer.old.inner)
        (W.contents writer.new.inner) (lines.now ++ output_word_lines converter.now)) }
    ensures failed { writer.new.failed ≡ is_err result }
    ensures fault { IfErr result (λ e. e ≡ TextFault.Write) }
{
    writer.put(lines)?;
    'outputs: for output in 0..converter.count() {
        writer.put(&line_at(converter, output))?;
    }
    Ok(())
}

// The line of an output that exists.
fn line_at(converter: &Converter, output: u8) -> [u8; 27]
    requires { output < converter.now.config.count }
    ensures { result ≡ output_at converter.now output }
{
    // law: a converter has eight outputs at most
    let _count = converter.count();
    output_line(output, converter.word(Cell::Out(output, Reg::VoutCommand)))
}
