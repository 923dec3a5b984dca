// The edge to std's readers and writers. The bytes are told where the reader or writer tells them.
ghost use Rattle.std.specs.Prelude.{◌≡◌, OnOk, OnErr};
ghost use Rattle.std.specs.Io.{ReadsAtMost};
ghost use Rattle.std.specs.Io.KnownBytes.{Appends, ReadConsumes};
ghost use Rattle.pl_io.specs.Bytes.{AppendsPrefix};
ghost use Rattle.pl_io.specs.Causes.{HasCause};
ghost use Rattle.pl_io.specs.Held.{one_more};

use crate::outside::{Sink, Source};
use pl_base::Failed;
use std::io::{Read, Write};
use std::marker::Model;

/// A source over a reader, which counts the reader's errors. Contracts see that count, and the bytes that the reader has left,
/// where it tells them.
#[derive(Drop)]
pub struct StdSource<R: Read> {
    from: R,
    faults: u64,
}

impl<R: Read> Model for StdSource<R> {
    ghost use Rattle.std.specs.Prelude.{ℕ, List, Option};

    ghost Value = { ℕ × Option (List ℕ) };

    ghost view = { λ s. (s.faults, R.remaining s.from) };
}

impl<R: Read> StdSource<R> {
    /// A source that reads from this reader; no read failed yet.
    pub fn new(from: R) -> StdSource<R>
        ensures { result ≡ (0, R.remaining from) }
    {
        StdSource { from, faults: 0 }
    }
}

impl<R: Read> Source for StdSource<R> {
    ghost left = { λ s. s.1 };

    ghost faults = { λ s. s.0 };

    fn read(&mut self, into: &mut [u8]) -> Result<usize, Failed>
        ensures bound { ReadsAtMost result into.new }
        ensures bytes { ReadConsumes self.old.1 self.new.1 result into.new }
        ensures cause { HasCause self.old.0 self.new.0 result }
        ensures quiet { OnOk result (self.new.0 ≡ self.old.0) }
        ensures fault { OnErr result (self.new.0 ≡ one_more self.old.0) }
    {
        match self.from.read(into) {
            Ok(count) => Ok(count),
            Err(_) => {
                self.faults = self.faults.saturating_add(1);
                Err(Failed)
            }
        }
    }
}

/// A sink over a writer, which counts the writer's errors, and a write of zero bytes as one. Contracts see that count, and the
/// bytes that the writer holds, where it tells them.
#[derive(Drop)]
pub struct StdSink<W: Write> {
    to: W,
    faults: u64,
}

impl<W: Write> Model for StdSink<W> {
    ghost use Rattle.std.specs.Prelude.{ℕ, List, Option};

    ghost Value = { ℕ × Option (List ℕ) };

    ghost view = { λ s. (s.faults, W.contents s.to) };
}

impl<W: Write> StdSink<W> {
    /// A sink that writes to this writer; no write failed yet.
    pub fn new(to: W) -> StdSink<W>
        ensures { result ≡ (0, W.contents to) }
    {
        StdSink { to, faults: 0 }
    }
}

impl<W: Write> Sink for StdSink<W> {
    ghost written = { λ s. s.1 };

    ghost faults = { λ s. s.0 };

    fn put(&mut self, piece: &[u8]) -> Result<(), Failed>
        ensures whole { OnOk result (Appends self.old.1 self.new.1 piece.now) }
        ensures part { OnErr result (AppendsPrefix self.old.1 self.new.1 piece.now) }
        ensures cause { HasCause self.old.0 self.new.0 result }
        ensures quiet { OnOk result (self.new.0 ≡ self.old.0) }
        ensures fault { OnErr result (self.new.0 ≡ one_more self.old.0) }
    {
        let mut rest = piece;
        while !rest.is_empty() {
            match self.to.write(rest) {
                Ok(count) if count > 0 => rest = &rest[count..],
                _ => {
                    self.faults = self.faults.saturating_add(1);
                    return Err(Failed);
                }
            }
        }
        Ok(())
    }
}
