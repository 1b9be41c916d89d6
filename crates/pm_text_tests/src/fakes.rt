//! Readers and writers that tell their bytes, count their calls, fail once, never end, or take no memory.
ghost use Rattle.std.specs.Prelude.{◌≡◌, ◌≤◌, [], take, Some};

use std::alloc::Global;
use std::io::{self, ErrorKind, Read, Write};

/// A reader of these bytes, this many at a time. The call with this number fails, and the others
/// don't; 0 for none.
#[derive(Drop)]
pub struct Pieces<'a> {
    /// The bytes that are still to come.
    pub rest: &'a [u8],
    /// The most bytes that a call gives.
    pub piece: usize,
    /// The number of the call that fails, from 1 on; 0 for none.
    pub fails_at: usize,
    /// How it fails.
    pub kind: ErrorKind,
    /// How many calls there were.
    pub calls: usize,
    /// The most bytes that a call asked for.
    pub most_asked: usize,
}

impl Read for Pieces<'_> {
    ghost remaining = { λ s. Some s.rest.now };

    fn read(&mut self, buf: &mut [u8]) -> io::Result<usize> {
        self.calls = self.calls.saturating_add(1);
        self.most_asked = self.most_asked.max(buf.len());
        if self.calls == self.fails_at {
            return Err(self.kind.into());
        }
        let count = self.piece.max(1).min(buf.len()).min(self.rest.len());
        buf[..count].copy_from_slice(&self.rest[..count]);
        self.rest = &self.rest[count..];
        Ok(count)
    }
}

/// A reader of these bytes, this many at a time.
pub fn in_pieces(rest: &[u8], piece: usize) -> Pieces<'_>
    ensures rest { result.rest.now ≡ rest.now }
    ensures piece { result.piece ≡ piece }
{
    Pieces {
        rest,
        piece,
        fails_at: 0,
        kind: ErrorKind::Other,
        calls: 0,
        most_asked: 0,
    }
}

/// A reader of two pieces, each as far as a call has room for it.
#[derive(Drop)]
pub struct Halves<'a> {
    /// What is left of the first piece.
    pub first: &'a [u8],
    /// The second piece.
    pub second: &'a [u8],
}

impl Read for Halves<'_> {
    fn read(&mut self, buf: &mut [u8]) -> io::Result<usize> {
        if self.first.is_empty() {
            self.first = self.second;
            self.second = &[];
        }
        let count = buf.len().min(self.first.len());
        buf[..count].copy_from_slice(&self.first[..count]);
        self.first = &self.first[count..];
        Ok(count)
    }
}

/// A reader that gives these bytes over and over, one a call, for ever.
#[derive(Drop)]
pub struct Endless<'a> {
    /// What comes over and over.
    pub bytes: &'a [u8],
    /// How many calls there were.
    pub calls: usize,
}

impl Read for Endless<'_> {
    fn read(&mut self, buf: &mut [u8]) -> io::Result<usize> {
        let at = self.calls % self.bytes.len().max(1);
        self.calls = self.calls.saturating_add(1);
        match (buf.first_mut(), self.bytes.get(at)) {
            (Some(first), Some(byte)) => {
                *first = *byte;
                Ok(1)
            }
            _ => Ok(0),
        }
    }
}

/// Every kind of error.
#[rattlefmt::skip]
pub static KINDS: [ErrorKind; 42] = [
    ErrorKind::NotFound, ErrorKind::PermissionDenied, ErrorKind::ConnectionRefused,
    ErrorKind::ConnectionReset, ErrorKind::HostUnreachable, ErrorKind::NetworkUnreachable,
    ErrorKind::ConnectionAborted, ErrorKind::NotConnected, ErrorKind::AddrInUse,
    ErrorKind::AddrNotAvailable, ErrorKind::NetworkDown, ErrorKind::BrokenPipe,
    ErrorKind::AlreadyExists, ErrorKind::WouldBlock, ErrorKind::NotADirectory,
    ErrorKind::IsADirectory, ErrorKind::DirectoryNotEmpty, ErrorKind::ReadOnlyFilesystem,
    ErrorKind::FilesystemLoop,
    ErrorKind::StaleNetworkFileHandle,
    ErrorKind::InvalidInput, ErrorKind::InvalidData, ErrorKind::TimedOut, ErrorKind::WriteZero,
    ErrorKind::StorageFull, ErrorKind::NotSeekable, ErrorKind::QuotaExceeded,
    ErrorKind::FileTooLarge, ErrorKind::ResourceBusy, ErrorKind::ExecutableFileBusy,
    ErrorKind::Deadlock, ErrorKind::CrossesDevices, ErrorKind::TooManyLinks,
    ErrorKind::InvalidFilename, ErrorKind::ArgumentListTooLong, ErrorKind::Interrupted,
    ErrorKind::Unsupported, ErrorKind::UnexpectedEof, ErrorKind::OutOfMemory, ErrorKind::InProgress,
    ErrorKind::Other, ErrorKind::Uncategorized,
];

/// How a writer fails.
#[derive(Clone, Copy, Debug, PartialEq, Eq)]
pub enum Failure {
    /// An error of this kind.
    Error(ErrorKind),
    /// No error, with none of the bytes taken.
    Nothing,
}

/// A writer that takes this many bytes at a time. The call with this number fails, and the others
/// don't; 0 for none. A flush is counted apart, and fails with `flush_fails`.
#[derive(Drop)]
pub struct Paper {
    /// What was written.
    pub taken: Vec<u8>,
    /// The most bytes that a call takes.
    pub piece: usize,
    /// The number of the write that fails, from 1 on; 0 for none.
    pub fails_at: usize,
    /// How it fails.
    pub failure: Failure,
    /// How many writes there were.
    pub calls: usize,
    /// How many flushes there were.
    pub flushes: usize,
    /// Whether a flush fails.
    pub flush_fails: bool,
}

impl Write for Paper {
    ghost contents = { λ s. Some s.taken.items };

    fn write(&mut self, buf: &[u8]) -> io::Result<usize> {
        self.calls = self.calls.saturating_add(1);
        if self.calls == self.fails_at {
            return match self.failure {
                Failure::Error(kind) => Err(kind.into()),
                Failure::Nothing => Ok(0),
            };
        }
        let count = self.piece.max(1).min(buf.len());
        self.taken.extend_from_slice(&buf[..count])?;
        Ok(count)
    }

    fn flush(&mut self) -> io::Result<()> {
        self.flushes = self.flushes.saturating_add(1);
        if self.flush_fails {
            return Err(ErrorKind::Other.into());
        }
        Ok(())
    }
}

/// A writer that takes this many bytes at a time.
pub fn blank_paper(alloc: Global, piece: usize) -> Paper
    ensures blank { result.taken.items ≡ [] }
    ensures piece { result.piece ≡ piece }
{
    Paper {
        taken: Vec::new(alloc),
        piece,
        fails_at: 0,
        failure: Failure::Nothing,
        calls: 0,
        flushes: 0,
        flush_fails: false,
    }
}

/// A writer that takes no memory: five bytes at once at most, and none past its room.
#[derive(Drop)]
pub struct Sheet {
    /// What was written, and then zeros.
    pub bytes: [u8; 4096],
    /// How many bytes were written.
    pub len: usize,
    /// How many have room.
    pub room: usize,
    ghost written: { len ≤ room },
    ghost held: { room ≤ 4096 },
}

impl Sheet {
    /// An empty sheet with this room.
    pub fn new(room: usize) -> Sheet
        requires { room ≤ 4096 }
        ensures empty { result.len ≡ 0 }
        ensures room { result.room ≡ room }
    {
        Sheet {
            bytes: [0; 4096],
            len: 0,
            room,
        }
    }

    /// What was written.
    pub fn text(&self) -> &[u8]
        ensures { result.now ≡ take self.now.len self.now.bytes }
    {
        &self.bytes[..self.len]
    }
}

impl Write for Sheet {
    fn write(&mut self, buf: &[u8]) -> io::Result<usize> {
        let count = buf.len().min(5).min(self.room - self.len);
        self.bytes[self.len..self.len + count].copy_from_slice(&buf[..count]);
        self.len += count;
        Ok(count)
    }

    fn flush(&mut self) -> io::Result<()> {
        Ok(())
    }
}
