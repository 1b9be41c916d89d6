//! A writer that is written to until it fails.

ghost use Rattle.std.specs.Prelude.{◌≡◌, false, IsFalse, is_err, flat_map, IfErr, OnOk, OnErr};
ghost use Rattle.std.specs.Io.KnownBytes.{Appends, Keeps};
ghost use Rattle.pm_lines.specs.Streams.{AppendsFront};

use crate::fault::TextFault;
use std::io::Write;
use std::marker::Model;

/// A writer that is written to until it fails, and no further. It is made with `new`, and
/// `into_inner` gives the writer back.
#[derive(Debug, Drop)]
pub struct Sink<W> {
    inner: W,
    failed: bool,
}

impl<W> Model for Sink<W> {
    ghost use Rattle.pm_lines.specs.Streams.{Held};

    ghost Value = { Held W };

    ghost view = { λ s. record { inner = s.inner; failed = s.failed } };
}

impl<W> Sink<W> {
    /// A sink over a writer that hasn't failed.
    pub fn new(inner: W) -> Sink<W>
        ensures inner { result.inner ≡ inner }
        ensures failed { result.failed ≡ false }
    {
        Sink {
            inner,
            failed: false,
        }
    }

    /// Whether a write failed. From then on nothing more may be written.
    pub fn failed(&self) -> bool
        ensures { result ≡ self.now.failed }
    {
        self.failed
    }

    /// The writer.
    pub fn into_inner(self) -> W
        ensures { result ≡ self.inner }
    {
        let Sink { inner, failed: _ } = self;
        inner
    }
}

impl<W: Write> Sink<W> {
    /// Writes all of the bytes. X5 if a call of the writer failed, or took none of the bytes that it was
    /// offered; then only a prefix of the bytes, and not all, was written, and nothing more may be written.
    pub fn put(&mut self, bytes: &[u8]) -> Result<(), TextFault>
        requires { IsFalse self.old.failed }
        ensures all { OnOk result
            (Appends (W.contents self.old.inner) (W.contents self.new.inner) bytes.now) }
        ensures front { OnErr result
            (AppendsFront (W.contents self.old.inner) (W.contents self.new.inner) bytes.now) }
        ensures failed { self.new.failed ≡ is_err result }
        ensures fault { IfErr result (λ e. e ≡ TextFault.Write) }
    {
        let mut rest = bytes;
        'writes: while !rest.is_empty() {
            match self.inner.write(rest) {
                Ok(0) | Err(_) => {
                    self.failed = true;
                    return Err(TextFault::Write);
                }
                Ok(count) => rest = &rest[count..],
            }
        }
        Ok(())
    }

    /// Writes the pieces one after another, with the answers of `put`.
    pub fn put_all(&mut self, pieces: &[&[u8]]) -> Result<(), TextFault>
        requires { IsFalse self.old.failed }
        ensures all { OnOk result (Appends (W.contents self.old.inner) (W.contents self.new.inner)
            (flat_map (λ piece. piece.now) pieces.now)) }
        ensures front { OnErr result (AppendsFront (W.contents self.old.inner)
            (W.contents self.new.inner) (flat_map (λ piece. piece.now) pieces.now)) }
        ensures failed { self.new.failed ≡ is_err result }
        ensures fault { IfErr result (λ e. e ≡ TextFault.Write) }
    {
        'pieces: for piece in pieces {
            self.put(piece)?;
        }
        Ok(())
    }

    /// Asks the writer to hand on whatever it still keeps to itself. X5 if that failed; then nothing more may
    /// be written.
    pub fn flush(&mut self) -> Result<(), TextFault>
        requires { IsFalse self.old.failed }
        ensures kept { Keeps (W.contents self.old.inner) (W.contents self.new.inner) }
        ensures failed { self.new.failed ≡ is_err result }
        ensures fault { IfErr result (λ e. e ≡ TextFault.Write) }
    {
        let result = self.inner.flush();
        self.failed = result.is_err();
        result.map_err(|_| TextFault::Write)
    }
}
