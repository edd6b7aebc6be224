//! Where a run reads its script, and where it writes.

ghost use Rattle.std.specs.Prelude.{ℕ, List, None, Option};
ghost use Rattle.std.specs.Io.{ReadsAtMost, WritesAtMost};
ghost use Rattle.std.specs.Io.KnownBytes.{ReadConsumes, WriteAppends};
ghost use Rattle.cics_run.specs.Session.Streams.{Rises, Tells, given, failed_reads, failed_writes};

use std::io::{Read, Write};

/// A read or a write failed.
#[derive(Clone, Copy)]
pub struct Failed;

/// Gives the bytes of a script.
pub trait Source {
    /// The bytes that reads will give from here on, if they are known.
    ghost remaining: { Self → Option (List ℕ) } = { λ _. None };

    /// How many reads there were, if they are counted.
    ghost asked: { Self → Option ℕ } = { λ _. None };

    /// How many reads failed, if they are counted.
    ghost failed: { Self → Option ℕ } = { λ _. None };

    /// What the last read gave, if it is known.
    ghost last: { Self → Option (List ℕ) } = { λ _. None };

    /// Reads into the first bytes of a buffer, and returns how many: none only at the end, or if
    /// the buffer has no room.
    fn read(&mut self, buffer: &mut [u8]) -> Result<usize, Failed>
        ensures bound { ReadsAtMost result buffer.new }
        ensures bytes { ReadConsumes (remaining self.old) (remaining self.new) result buffer.new }
        ensures asked { Rises (asked self.old) (asked self.new) 1 }
        ensures failed { Rises (failed self.old) (failed self.new) (failed_reads result) }
        ensures last { Tells (last self.new) (given result buffer.new) };
}

/// Takes the bytes that a run writes.
pub trait Sink {
    /// The bytes that it holds, if they are known.
    ghost contents: { Self → Option (List ℕ) } = { λ _. None };

    /// How many writes failed, if they are counted. One that takes none of some bytes counts.
    ghost failed: { Self → Option ℕ } = { λ _. None };

    /// Takes the first bytes of a buffer, and returns how many.
    fn write(&mut self, buffer: &[u8]) -> Result<usize, Failed>
        ensures bound { WritesAtMost result buffer.now }
        ensures bytes { WriteAppends (contents self.old) (contents self.new) result buffer.now }
        ensures failed { Rises (failed self.old) (failed self.new)
            (failed_writes result buffer.now) };
}

// Each reader is a source, and each writer a sink: they count nothing.
impl<R: Read> Source for R {
    ghost remaining = { λ r. R.Read.remaining r };

    fn read(&mut self, buffer: &mut [u8]) -> Result<usize, Failed> {
        match Read::read(self, buffer) {
            Ok(n) => Ok(n),
            Err(_) => Err(Failed),
        }
    }
}

impl<W: Write> Sink for W {
    ghost contents = { λ w. W.Write.contents w };

    fn write(&mut self, buffer: &[u8]) -> Result<usize, Failed> {
        match Write::write(self, buffer) {
            Ok(n) => Ok(n),
            Err(_) => Err(Failed),
        }
    }
}
