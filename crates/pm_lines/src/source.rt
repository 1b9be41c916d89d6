//! A reader that is read until it fails.

ghost use Rattle.std.specs.Prelude.{◌≡◌, false, IsFalse, is_err, IfErr};
ghost use Rattle.std.specs.Io.{ReadsAtMost};
ghost use Rattle.std.specs.Io.KnownBytes.{ReadConsumes};

use crate::fault::TextFault;
use std::io::Read;
use std::marker::Model;

/// A reader that is read until it fails, and no further. It is made with `new`, and `into_inner`
/// gives the reader back.
#[derive(Debug, Drop)]
pub struct Source<R> {
    inner: R,
    failed: bool,
}

impl<R> Model for Source<R> {
    ghost use Rattle.pm_lines.specs.Streams.{Held};

    ghost Value = { Held R };

    ghost view = { λ s. record { inner = s.inner; failed = s.failed } };
}

impl<R> Source<R> {
    /// A source over a reader that hasn't failed.
    pub fn new(inner: R) -> Source<R>
        ensures inner { result.inner ≡ inner }
        ensures failed { result.failed ≡ false }
    {
        Source {
            inner,
            failed: false,
        }
    }

    /// Whether a read failed. From then on nothing more may be read.
    pub fn failed(&self) -> bool
        ensures { result ≡ self.now.failed }
    {
        self.failed
    }

    /// The reader.
    pub fn into_inner(self) -> R
        ensures { result ≡ self.inner }
    {
        let Source { inner, failed: _ } = self;
        inner
    }
}

impl<R: Read> Source<R> {
    /// Reads bytes into the buffer by one call of the reader, and says how many: at most the buffer's length,
    /// and 0 only at the end of what there is to read, or if the buffer is empty. X4 if the reader failed;
    /// then no byte is lost, and nothing more may be read.
    pub fn read(&mut self, buf: &mut [u8]) -> Result<usize, TextFault>
        requires { IsFalse self.old.failed }
        ensures bound { ReadsAtMost result buf.new }
        ensures bytes { ReadConsumes (R.remaining self.old.inner)
            (R.remaining self.new.inner) result buf.new }
        ensures failed { self.new.failed ≡ is_err result }
        ensures fault { IfErr result (λ e. e ≡ TextFault.Read) }
    {
        let result = self.inner.read(buf);
        self.failed = result.is_err();
        result.map_err(|_| TextFault::Read)
    }
}
