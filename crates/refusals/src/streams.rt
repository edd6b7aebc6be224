//! A script and a page in memory, which count their calls. One call of either may fail.

ghost use Rattle.std.specs.Prelude.{◌≡◌, ◌+◌, ◌<◌, Some};

use cics_run::session::{Failed, Sink, Source};
use std::sync::ledger::{Blank, Book, Ledger, Share};

/// Counts the calls of a stream: for the test in a number, for proofs in amounts without a limit.
#[derive(Drop)]
pub struct Calls<L: Ledger> {
    pub made: usize,
    // The number of the call that fails: 0 if none does.
    failing: usize,
    book: Book<L>,
    asked: Share<L>,
    failed: Share<L>,
    ghost counts_asked: { 0 < asked.parts },
    ghost counts_failed: { 0 < failed.parts },
}

impl<L: Ledger> Calls<L> {
    /// Returns the counts before the first call.
    pub fn new(blank: Blank, failing: usize) -> Self
        requires name { blank.name ≡ L.name }
        requires parts { blank.parts ≡ L.parts }
        requires two { blank.parts ≡ 2 }
    {
        let (book, mut asked) = blank.open::<L>();
        let failed = asked.split_off(1, 0);
        Calls {
            made: 0,
            failing,
            book,
            asked,
            failed,
        }
    }

    // Counts a call, and returns whether it fails.
    fn next(&mut self) -> bool
        ensures asked { self.new.asked.amount ≡ self.old.asked.amount + 1 }
        ensures failed { self.new.failed.amount ≡ self.old.failed.amount }
    {
        self.made = self.made.saturating_add(1);
        self.book.add(&mut self.asked, 1);
        self.made == self.failing
    }

    // Counts a call that failed.
    fn fail(&mut self) -> Failed
        ensures asked { self.new.asked.amount ≡ self.old.asked.amount }
        ensures failed { self.new.failed.amount ≡ self.old.failed.amount + 1 }
    {
        self.book.add(&mut self.failed, 1);
        Failed
    }
}

/// Gives the bytes of a script, at most `most` a read.
#[derive(Drop)]
pub struct Script<'a, L: Ledger> {
    pub rest: &'a [u8],
    pub most: usize,
    pub calls: Calls<L>,
}

impl<'a, L: Ledger> Source for Script<'a, L> {
    ghost remaining = { λ s. Some s.rest.now };

    ghost asked = { λ s. Some s.calls.asked.amount };

    ghost failed = { λ s. Some s.calls.failed.amount };

    fn read(&mut self, buffer: &mut [u8]) -> Result<usize, Failed> {
        if self.calls.next() {
            return Err(self.calls.fail());
        }
        let n = self.most.max(1).min(buffer.len()).min(self.rest.len());
        let (front, behind) = self.rest.split_at(n);
        buffer[..n].copy_from_slice(front);
        self.rest = behind;
        Ok(n)
    }
}

/// Takes what is written, at most `most` bytes a write.
#[derive(Drop)]
pub struct Page<L: Ledger> {
    pub text: Vec<u8>,
    pub most: usize,
    /// Whether the write that fails takes no byte, in place of an error.
    pub takes_none: bool,
    pub calls: Calls<L>,
}

impl<L: Ledger> Sink for Page<L> {
    ghost contents = { λ p. Some p.text.items };

    ghost failed = { λ p. Some p.calls.failed.amount };

    fn write(&mut self, buffer: &[u8]) -> Result<usize, Failed> {
        if buffer.is_empty() {
            return Ok(0);
        }
        if self.calls.next() {
            let failed = self.calls.fail();
            return if self.takes_none { Ok(0) } else { Err(failed) };
        }
        let n = self.most.max(1).min(buffer.len());
        match self.text.extend_from_slice(&buffer[..n]) {
            Ok(()) => Ok(n),
            Err(_) => Err(self.calls.fail()),
        }
    }
}
