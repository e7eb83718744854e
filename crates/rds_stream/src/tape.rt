//! A tape: a recording, and a count of the windows that were read.
ghost use Rattle.std.specs.Prelude.{◌≡◌, ℕ, ◌+◌, ◌^◌, ◌<◌, ◌≤◌, IfSome};
ghost use Rattle.rds_stream.specs.{Recording.Signal, Recording.heard, Recording.length_of, Tape.TapeState};

use crate::reader::Reader;
use crate::recording::Recording;
use std::marker::Model;
use std::snapshot::Snapshot;

/// A recording that is read window by window. [`Counted`] counts each window, [`Reader`] counts none.
///
/// A call that is lent a tape has no other way to the bits.
pub trait Tape {
    /// The recording that the tape is of.
    ghost signal: { Self → Signal };

    /// How many of the windows read were counted.
    ghost reads_made: { Self → ℕ };

    /// The number of bits, at most 2^36.
    fn len(&self) -> u64
        ensures value { result ≡ length_of (signal self.now) }
        ensures limit { result ≤ 2 ^ 36 };

    /// How many of the windows read were counted.
    fn reads(&self) -> u64
        ensures { result ≡ reads_made self.now };

    /// The recording that the tape is of, only for contracts.
    fn source(&self) -> Snapshot<Recording>
        ensures { result.value ≡ signal self.now };

    /// The 26 bits that end at `place`, the first one highest (EN 50067:1998, 2.1), or none if they touch a
    /// gap; `place` is at least 25, and below the length. It adds at most one to `reads`, which is below 2^63
    /// before the call.
    fn window(&mut self, place: u64) -> Option<u32>
        requires first { 25 ≤ place }
        requires last { place < length_of (signal self.old) }
        requires room { reads_made self.old < 2 ^ 63 }
        ensures value { result ≡ heard (signal self.old) place }
        ensures block { IfSome result (λ window. window < 2 ^ 26) }
        ensures counts { reads_made self.new ≤ reads_made self.old + 1 }
        ensures same { signal self.new ≡ signal self.old };
}

/// A tape over a recording that is lent to it. It counts each window.
#[derive(Drop)]
pub struct Counted<'a> {
    reader: Reader<'a>,
    reads: u64,
}

impl<'a> Model for Counted<'a> {
    ghost Value = { TapeState };

    ghost view = { λ t. record { signal = t.reader; reads = t.reads } };
}

impl Counted<'_> {
    /// A tape from which nothing was read yet. Takes no memory.
    pub fn new(recording: &Recording) -> Counted<'_>
        ensures { result ≡ record { signal = recording.now; reads = 0 } }
    {
        Counted {
            reader: Reader::new(recording),
            reads: 0,
        }
    }

    /// The 26 bits that end at `place`, as [`Tape::window`] gives them. It adds one to the count, also if they touch
    /// a gap.
    pub fn window(&mut self, place: u64) -> Option<u32>
        requires first { 25 ≤ place }
        requires last { place < length_of self.old.signal }
        requires room { self.old.reads < 2 ^ 63 }
        ensures value { result ≡ heard self.old.signal place }
        ensures block { IfSome result (λ window. window < 2 ^ 26) }
        ensures counts { self.new.reads ≡ self.old.reads + 1 }
        ensures same { self.new.signal ≡ self.old.signal }
    {
        self.reads += 1;
        self.reader.window(place)
    }
}

impl Tape for Counted<'_> {
    ghost signal = { λ t. t.signal };

    ghost reads_made = { λ t. t.reads };

    fn len(&self) -> u64 {
        self.reader.recording().len()
    }

    fn reads(&self) -> u64 {
        self.reads
    }

    fn source(&self) -> Snapshot<Recording> {
        Snapshot::of(self.reader.recording())
    }

    fn window(&mut self, place: u64) -> Option<u32> {
        Counted::window(self, place)
    }
}
