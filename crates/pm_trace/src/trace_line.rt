//! A line of a trace as bytes, and its text.

ghost use Rattle.std.specs.Prelude.{◌≡◌, ◌⊎◌, IfOk, IfErr, IsOk, Ok, Err, string_bytes};
ghost use Rattle.pm_trace.specs.Trace.{line_read, max_part, parts_judged};
ghost use Rattle.pm_trace.specs.TraceText.{told_text};

use crate::byte_list::ByteList;
use crate::decoder::PART_BYTES;
use crate::decoder::open_line::OpenLine;
use crate::line_fault::LineFault;
use crate::shown::packet_shown;
use crate::shown_text::push_line;
use pm_lines::TextFault;
use std::alloc::Global;

/// The bytes of a packet as a line of a trace has them.
#[derive(Debug, Drop)]
pub struct TraceLine {
    /// The bytes before the repeated start, or all of a packet that a stop ended.
    pub write: ByteList,
    /// The bytes after the repeated start, if there is one.
    pub read: Option<ByteList>,
}

/// Reads a line of a trace, given without what ended it; each byte of it counts. No line is skipped:
/// a blank one has a write part of no bytes. Takes memory for the bytes of each part, once.
///
/// # Errors
///
/// X2 with line 1 if a word isn't an even number of hexadecimal digits, X1 with line 1 for a second `/` or a
/// part of more than 300 bytes, and X6 if memory was refused. X2 comes before X1.
pub fn read_trace_line(alloc: Global, line: &[u8]) -> Result<TraceLine, TextFault>
    ensures line { IfOk result (λ parts. line_read line.now ≡ Ok parts) }
    ensures fault { IfErr result (λ fault. ((fault ≡ TextFault.Syntax 1) × (line_read line.now ≡ Err LineFault.Syntax))
        ⊎ (((fault ≡ TextFault.BadHex 1) × (line_read line.now ≡ Err LineFault.BadHex))
        ⊎ ((fault ≡ TextFault.Memory) × IsOk (line_read line.now)))) }
    ensures limit { PART_BYTES ≡ max_part }
{
    let open = OpenLine::of(line);
    let (write, read) = match open.parts() {
        Ok(parts) => parts,
        Err(LineFault::Syntax) => return Err(TextFault::Syntax(1)),
        Err(LineFault::BadHex) => return Err(TextFault::BadHex(1)),
    };
    let write = ByteList::new(write.to_vec(alloc)?);
    let read = match read {
        Some(read) => Some(ByteList::new(read.to_vec(alloc)?)),
        None => None,
    };
    Ok(TraceLine { write, read })
}

/// The bytes that are reserved for a line's text: the longest, of COEFFICIENTS, has 81.
const ROOM: usize = 96;

/// The text of a packet's line with its number, as `decode` writes it but without a line feed: what
/// the packet says, or its first fault with the place. Takes memory once, for the text.
///
/// # Errors
///
/// Only X6.
pub fn render_line(alloc: Global, number: u64, line: &TraceLine) -> Result<String, TextFault>
    ensures text { IfOk result (λ text. string_bytes text
        ≡ told_text (number, parts_judged line.now.write line.now.read)) }
    ensures fault { IfErr result (λ fault. fault ≡ TextFault.Memory) }
{
    let read = match &line.read {
        Some(read) => Some(read.as_slice()),
        None => None,
    };
    let mut text = String::with_capacity(alloc, ROOM)?;
    push_line(
        &mut text,
        number,
        &packet_shown(line.write.as_slice(), read),
    )?;
    Ok(text)
}
