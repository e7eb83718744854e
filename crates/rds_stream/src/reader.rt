//! A recording that is read in turn.
ghost use Rattle.std.specs.Prelude.{◌≡◌, ◌<◌, ◌≤◌, ◌+◌, ◌^◌, All, IfSome};
ghost use Rattle.rds_stream.specs.{InARow.four_heard, Recording.Signal, Recording.heard, Recording.length_of, Inside.Sections.IsSection};

use crate::gaps::Section;
use crate::recording::Recording;
use crate::tape::Tape;
use rds_code::BLOCK_BITS;
use std::marker::Model;
use std::snapshot::Snapshot;

/// How many places a block takes.
const PLACES: u64 = BLOCK_BITS as u64;

/// A recording whose windows are read one after the other.
///
/// It remembers how far the next gap is, so a reader that moves forward looks for a gap only when it comes to
/// one or leaves one; any other order gives the same windows. Contracts see the recording.
#[derive(Drop)]
pub struct Reader<'a> {
    recording: &'a Recording,
    section: Section,
}

impl<'a> Model for Reader<'a> {
    ghost Value = { Signal };

    ghost view = { λ r. r.recording.now };

    ghost invariant = { λ r. IsSection r.recording.now r.section.from r.section.to r.section.touched };
}

impl<'a> Reader<'a> {
    /// A reader of this recording. Takes no memory.
    pub fn new(recording: &'a Recording) -> Reader<'a>
        ensures { result ≡ recording.now }
    {
        Reader {
            recording,
            section: Section {
                from: 0,
                to: 0,
                touched: false,
            },
        }
    }

    /// The recording.
    pub fn recording(&self) -> &'a Recording
        ensures { result.now ≡ self.now }
    {
        self.recording
    }

    /// The 26 bits that end at `place`, the first one highest (EN 50067:1998, 2.1), or none if they touch a
    /// gap. `place` is at least 25, and below the length.
    #[inline(always)]
    #[tactic(auto, using(std::proofs::lemmas::Grind::common_steps, crate::proofs::WindowLists::heard_clear))]
    pub fn window(&mut self, place: u64) -> Option<u32>
        requires first { 25 ≤ place }
        requires last { place < length_of self.old }
        ensures value { result ≡ heard self.old place }
        ensures block { IfSome result (λ window. window < 2 ^ 26) }
        ensures same { self.new ≡ self.old }
    {
        let Section { from, to, touched } = self.section;
        if touched || place < from || to <= place {
            return self.look(place);
        }
        Some(self.recording.window(place))
    }

    /// The answers of `window` at `place` and 26, 52 and 78 places on: of four blocks in a row. The last of
    /// these places is below the length, and `place` below 2^37.
    #[inline(always)]
    pub fn four_windows(&mut self, place: u64) -> [Option<u32>; 4]
        requires first { 25 ≤ place }
        requires last { place + 78 < length_of self.old }
        requires near { place < 2 ^ 37 }
        ensures value { result ≡ four_heard self.old place }
        ensures blocks { All (λ heard. IfSome heard (λ window. window < 2 ^ 26)) result }
        ensures same { self.new ≡ self.old }
    {
        let Section { from, to, touched } = self.section;
        if touched || place < from || to <= place + 3 * PLACES {
            return self.look_at_four(place);
        }
        let [one, two] = self.recording.two_windows(place + PLACES);
        let [three, four] = self.recording.two_windows(place + 3 * PLACES);
        [Some(one), Some(two), Some(three), Some(four)]
    }

    /// `four_windows`, one by one.
    #[cold]
    fn look_at_four(&mut self, place: u64) -> [Option<u32>; 4]
        requires first { 25 ≤ place }
        requires last { place + 78 < length_of self.old }
        requires near { place < 2 ^ 37 }
        ensures value { result ≡ four_heard self.old place }
        ensures blocks { All (λ heard. IfSome heard (λ window. window < 2 ^ 26)) result }
        ensures same { self.new ≡ self.old }
    {
        let one = self.window(place);
        let two = self.window(place + PLACES);
        let three = self.window(place + 2 * PLACES);
        let four = self.window(place + 3 * PLACES);
        [one, two, three, four]
    }

    /// `window`, if a gap is touched or may be: it is looked for again, unless the section is known.
    #[cold]
    #[tactic(auto, using(std::proofs::lemmas::Grind::common_steps, crate::proofs::WindowLists::heard_clear, crate::proofs::WindowLists::heard_touched))]
    fn look(&mut self, place: u64) -> Option<u32>
        requires first { 25 ≤ place }
        requires last { place < length_of self.old }
        ensures value { result ≡ heard self.old place }
        ensures block { IfSome result (λ window. window < 2 ^ 26) }
        ensures same { self.new ≡ self.old }
    {
        self.section = self.recording.section_at(self.section, place);
        if self.section.touched {
            None
        } else {
            Some(self.recording.window(place))
        }
    }
}

/// A reader is a tape that counts no window.
impl Tape for Reader<'_> {
    ghost signal = { λ r. r };

    ghost reads_made = { λ r. 0 };

    fn len(&self) -> u64 {
        self.recording().len()
    }

    fn reads(&self) -> u64 {
        0
    }

    fn source(&self) -> Snapshot<Recording> {
        Snapshot::of(self.recording())
    }

    fn window(&mut self, place: u64) -> Option<u32> {
        Reader::window(self, place)
    }
}
