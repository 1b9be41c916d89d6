//! The three engines that read a text and write one, as one call.
ghost use Rattle.std.specs.Prelude.{IsFalse};

use crate::fakes::{Endless, Paper, Pieces, Sheet, blank_paper};
use pm_text::{DecodeEnd, ReplayEnd, Sink, Source, TextFault, decode, replay};
use pm_tool::hear;
use std::alloc::Global;
use std::io::{Read, Write};

/// An engine from a reader to a writer.
#[derive(Clone, Copy, Debug, PartialEq, Eq)]
pub enum Engine {
    /// `replay`.
    Replay,
    /// `decode`.
    Decode,
    /// `hear`.
    Hear,
}

// Each engine by itself: whether it ended well.
fn replayed<R: Read, W: Write>(
    alloc: Global,
    reader: &mut Source<R>,
    writer: &mut Sink<W>,
) -> Result<bool, TextFault>
    requires readable { IsFalse reader.old.failed }
    requires writable { IsFalse writer.old.failed }
{
    match replay(alloc, reader, writer) {
        Ok(end) => Ok(end == ReplayEnd::Ran),
        Err(fault) => Err(fault),
    }
}

fn decoded<R: Read, W: Write>(
    alloc: Global,
    reader: &mut Source<R>,
    writer: &mut Sink<W>,
) -> Result<bool, TextFault>
    requires readable { IsFalse reader.old.failed }
    requires writable { IsFalse writer.old.failed }
{
    match decode(alloc, reader, writer) {
        Ok(end) => Ok(end == DecodeEnd::Clean),
        Err(fault) => Err(fault),
    }
}

fn heard<R: Read, W: Write>(
    alloc: Global,
    reader: &mut Source<R>,
    writer: &mut Sink<W>,
) -> Result<bool, TextFault>
    requires readable { IsFalse reader.old.failed }
    requires writable { IsFalse writer.old.failed }
{
    match hear(alloc, reader, writer) {
        Ok(()) => Ok(true),
        Err(fault) => Err(fault),
    }
}

/// What comes of a run: how it ended, whether reading and writing failed, and what was read and written.
#[derive(Drop)]
pub struct Ended<'a> {
    /// Whether the engine ended well, or why it refused.
    pub end: Result<bool, TextFault>,
    /// Whether reading failed.
    pub read_failed: bool,
    /// Whether writing failed.
    pub write_failed: bool,
    /// The reader afterwards.
    pub read: Pieces<'a>,
    /// The writer afterwards.
    pub written: Paper,
}

impl Engine {
    /// Runs the engine: whether it ended well, which is a scenario that ran to its end, a trace without
    /// a bad line, and any text that was heard.
    fn run<R: Read, W: Write>(
        self,
        alloc: Global,
        reader: &mut Source<R>,
        writer: &mut Sink<W>,
    ) -> Result<bool, TextFault>
        requires readable { IsFalse reader.old.failed }
        requires writable { IsFalse writer.old.failed }
    {
        match self {
            Engine::Replay => replayed(alloc, reader, writer),
            Engine::Decode => decoded(alloc, reader, writer),
            Engine::Hear => heard(alloc, reader, writer),
        }
    }
}

/// The engines as calls that promise nothing: no test's proof carries what an engine promises, which no test needs.
pub trait Engines: Sized {
    /// Runs the engine from a reader of pieces to a writer of pieces.
    fn over(self, alloc: Global, read: Pieces<'_>, written: Paper) -> Ended<'_>;

    /// Runs the engine over a reader without an end: how it ended, the calls of its reader, what it wrote.
    fn over_endless(self, alloc: Global, bytes: &[u8]) -> (Result<bool, TextFault>, usize, Paper);

    /// Runs the engine from a reader to memory.
    fn text_of<R: Read + Drop>(
        self,
        alloc: Global,
        reader: R,
    ) -> (Result<bool, TextFault>, Vec<u8>);

    /// Runs the engine from a reader to a writer that takes no memory.
    fn sheet_of<R: Read + Drop>(self, alloc: Global, reader: R) -> (Result<bool, TextFault>, Sheet);
}

impl Engines for Engine {
    fn over(self, alloc: Global, read: Pieces<'_>, written: Paper) -> Ended<'_> {
        let mut reader = Source::new(read);
        let mut writer = Sink::new(written);
        let end = self.run(alloc, &mut reader, &mut writer);
        Ended {
            end,
            read_failed: reader.failed(),
            write_failed: writer.failed(),
            read: reader.into_inner(),
            written: writer.into_inner(),
        }
    }

    fn over_endless(self, alloc: Global, bytes: &[u8]) -> (Result<bool, TextFault>, usize, Paper) {
        let mut reader = Source::new(Endless { bytes, calls: 0 });
        let mut writer = Sink::new(blank_paper(alloc, 4096));
        let end = self.run(alloc, &mut reader, &mut writer);
        (end, reader.into_inner().calls, writer.into_inner())
    }

    fn text_of<R: Read + Drop>(
        self,
        alloc: Global,
        reader: R,
    ) -> (Result<bool, TextFault>, Vec<u8>) {
        let mut reader = Source::new(reader);
        let mut writer = Sink::new(Vec::new(alloc));
        let end = self.run(alloc, &mut reader, &mut writer);
        (end, writer.into_inner())
    }

    fn sheet_of<R: Read + Drop>(
        self,
        alloc: Global,
        reader: R,
    ) -> (Result<bool, TextFault>, Sheet) {
        let mut reader = Source::new(reader);
        let mut writer = Sink::new(Sheet::new(4096));
        let end = self.run(alloc, &mut reader, &mut writer);
        (end, writer.into_inner())
    }
}
