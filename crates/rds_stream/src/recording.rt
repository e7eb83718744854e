//! A recording: demodulated bits with places, and the gaps in them.
ghost use Rattle.std.specs.Prelude.{◌≡◌, ℕ, ◌+◌, ◌*◌, ◌^◌, ◌<◌, ◌≤◌, ◌-◌, ◌++◌, ◌↔◌, [], ◌∷◌, All, drop, vec_len, length, slice_index, if◌then◌else◌, Err, IfOk, IsOk};
ghost use Rattle.std.specs.Int.{bit_at};
ghost use Rattle.rds_code.specs.{Remainder.rem, Offsets.offset_of as the_offset_of, declared.error.RdsError.TheVariants.BadGaps, declared.error.RdsError.TheVariants.BitsPastBytes, declared.error.RdsError.TheVariants.TooLong};
ghost use Rattle.rds_stream.specs.{Recording.AreGaps, Recording.Signal, Recording.bits_of, Recording.length_of, Recording.offset_at, Recording.touched, Recording.ungapped, Recording.window, Inside.Sections.IsSection};

use crate::gaps::{Section, are_gaps, first_after, put_first_gaps};
use crate::packed::Packed;
use rds_code::{BLOCK_BITS, Offset, RdsError, offset_of, rem26};
use std::marker::Model;

/// The first place at which a window ends: 25, since a block's bits lead up to it.
pub const FIRST_WINDOW: u64 = BLOCK_BITS as u64 - 1;

/// Demodulated bits with their places from 0 on, and the gaps in them: ranges of places whose bits mean
/// nothing, such as samples that a receiver dropped. Contracts see the list of the bits, each 0 or 1, and the
/// list of the gaps.
///
/// A window that has a place in a gap is said to touch it. No offset and no block is read from such a window.
///
/// A recording that is lent never changes, and threads may share it. Who owns it may [`refill`](Recording::refill) it.
#[derive(Drop)]
pub struct Recording {
    packed: Packed,
    gaps: Vec<(u64, u64)>,
}

impl Model for Recording {
    ghost Value = { Signal };

    ghost view = { λ r. record { bits = r.packed; gaps = r.gaps.items } };

    ghost invariant = { λ r. AreGaps (length r.packed) r.gaps.items };
}

/// Why the bytes and the gaps make no recording of `bits` bits, if they make none.
fn refusal(bytes: &Vec<u8>, bits: u64, gaps: &[(u64, u64)]) -> Option<RdsError>
    ensures taken { (result ≡ None) ↔ ((bits ≤ 2 ^ 36) × (bits ≤ 8 * vec_len bytes.now)
        × AreGaps bits gaps.now) }

    // The bits are looked at before the gaps are.
    ensures too_long { (result ≡ Some TooLong) ↔ (2 ^ 36 < bits) }
    ensures past_bytes { (result ≡ Some BitsPastBytes) ↔ ((bits ≤ 2 ^ 36) × (8 * vec_len bytes.now < bits)) }
    ensures bad_gaps { (result ≡ Some BadGaps)
        ↔ ((bits ≤ 2 ^ 36) × (bits ≤ 8 * vec_len bytes.now) × (AreGaps bits gaps.now → ⊥)) }
{
    if let Some(error) = Packed::refusal(bytes, bits) {
        return Some(error);
    }
    if are_gaps(gaps, bits) {
        None
    } else {
        Some(RdsError::BadGaps)
    }
}

impl Recording {
    /// The first `bits` bits of the bytes, the highest bit of a byte first, without gaps. Bits past them are no part of
    /// the recording. That bits come packed so is this project's rule.
    ///
    /// Refuses more than 2^36 bits, and then more than the bytes hold; the bytes come back as they were. Takes no
    /// memory.
    pub fn from_bytes(bytes: Vec<u8>, bits: u64) -> Result<Recording, (RdsError, Vec<u8>)>
        ensures held { IfOk result (λ recording. recording ≡ ungapped (bits_of bytes.items bits)) }
        ensures taken { IsOk result ↔ ((bits ≤ 2 ^ 36) × (bits ≤ 8 * vec_len bytes)) }

        // Too many bits are refused as such, whether or not the bytes hold them.
        ensures too_long { (result ≡ Err (TooLong, bytes)) ↔ (2 ^ 36 < bits) }
        ensures past_bytes { (result ≡ Err (BitsPastBytes, bytes))
            ↔ ((bits ≤ 2 ^ 36) × (8 * vec_len bytes < bits)) }
    {
        if let Some(error) = Packed::refusal(&bytes, bits) {
            return Err((error, bytes));
        }
        let gaps = Vec::new(*bytes.allocator());
        Ok(Recording {
            packed: Packed::new(bytes, bits),
            gaps,
        })
    }

    /// The same with gaps, which are this project's rule: each is the places from its first number to before its
    /// second.
    ///
    /// Refuses more than 2^36 bits, then more than the bytes hold, and then bad gaps: one has no place, ends
    /// after the bits, or begins before the end of the one before it. The bytes and the gaps come back as
    /// they were. Takes no memory.
    #[tactic(auto, using(crate::proofs::Places::steps))]
    pub fn with_gaps(
        bytes: Vec<u8>,
        bits: u64,
        gaps: Vec<(u64, u64)>,
    ) -> Result<Recording, (RdsError, Vec<u8>, Vec<(u64, u64)>)>
        ensures held { IfOk result (λ recording.
            recording ≡ record { bits = bits_of bytes.items bits; gaps = gaps.items }) }
        ensures taken { IsOk result ↔ ((bits ≤ 2 ^ 36) × (bits ≤ 8 * vec_len bytes)
            × AreGaps bits gaps.items) }

        // Too many bits are refused as such, whether or not the bytes hold them, and both before the gaps are
        // looked at.
        ensures too_long { (result ≡ Err (TooLong, bytes, gaps)) ↔ (2 ^ 36 < bits) }
        ensures past_bytes { (result ≡ Err (BitsPastBytes, bytes, gaps))
            ↔ ((bits ≤ 2 ^ 36) × (8 * vec_len bytes < bits)) }
        ensures bad_gaps { (result ≡ Err (BadGaps, bytes, gaps))
            ↔ ((bits ≤ 2 ^ 36) × (bits ≤ 8 * vec_len bytes) × (AreGaps bits gaps.items → ⊥)) }
    {
        if let Some(error) = refusal(&bytes, bits, &gaps) {
            return Err((error, bytes, gaps));
        }
        Ok(Recording {
            packed: Packed::new(bytes, bits),
            gaps,
        })
    }

    /// Puts the bits of these bytes in the place of the first ones, and these gaps in the place of the first
    /// ones, of which there are at least as many. So a room that is taken once can be used again and again:
    /// it takes no memory, and no time for the bits and gaps that stay.
    #[tactic(auto, using(crate::proofs::Places::steps))]
    pub fn refill(&mut self, bytes: &[u8], gaps: &[(u64, u64)])
        requires within { 8 * length bytes.now ≤ length_of self.old }
        requires as_many { length gaps.now ≤ length self.old.gaps }
        requires gaps { AreGaps (length_of self.old) (gaps.now ++ drop (length gaps.now) self.old.gaps) }
        ensures { self.new ≡ record {
          bits = bits_of bytes.now (8 * length bytes.now) ++ drop (8 * length bytes.now) self.old.bits;
          gaps = gaps.now ++ drop (length gaps.now) self.old.gaps;
        } }
    {
        self.packed.refill(bytes);
        put_first_gaps(self.gaps.as_mut_slice(), gaps);
    }

    /// The number of bits, at most 2^36.
    pub fn len(&self) -> u64
        ensures value { result ≡ length_of self.now }
        ensures limit { result ≤ 2 ^ 36 }
    {
        self.packed.len()
    }

    /// Whether the bit at `place`, which is below the length, is a one; in a gap too it is the bit as stored.
    pub fn bit(&self, place: u64) -> bool
        requires { place < length_of self.now }
        ensures { slice_index self.now.bits place ≡ (if result then 1 else 0) }
    {
        self.packed.bit(place)
    }

    /// The 26 bits that end at `place`, the first one highest (EN 50067:1998, 2.1), as they are stored, whether or not
    /// they touch a gap. `place` is at least 25, and below the length.
    pub fn window(&self, place: u64) -> u32
        requires first { 25 ≤ place }
        requires last { place < length_of self.now }
        ensures value { result ≡ window self.now.bits place }
        ensures block { result < 2 ^ 26 }
    {
        self.packed.window(place)
    }

    /// The windows of two blocks in a row as they are stored, of which the second ends at `place`, which is at least 51,
    /// and below the length.
    #[inline(always)]
    pub(crate) fn two_windows(&self, place: u64) -> [u32; 2]
        requires first { 51 ≤ place }
        requires last { place < length_of self.now }
        ensures value { result ≡ window self.now.bits (place - 26) ∷ window self.now.bits place ∷ [] }
        ensures blocks { All (λ window. window < 2 ^ 26) result }
    {
        self.packed.two_windows(place)
    }

    /// Whether one of the 26 places up to `place` is in a gap: this project's rule. `place` is at least 25,
    /// and below the length.
    ///
    /// Takes a binary search through the gaps, and no time if there are none.
    pub fn touches(&self, place: u64) -> bool
        requires first { 25 ≤ place }
        requires last { place < length_of self.now }
        ensures { result ≡ touched self.now place }
    {
        self.section(place).touched
    }

    /// The offset of the 26 bits that end at `place`: the one whose word is their remainder (EN 50067:1998,
    /// 2.3 and annex A), or none; none too if they touch a gap, which is this project's rule. `place` is at
    /// least 25, and below the length.
    ///
    /// A window that has an offset is called valid, and may still be no block.
    pub fn offset(&self, place: u64) -> Option<Offset>
        requires first { 25 ≤ place }
        requires last { place < length_of self.now }
        ensures { result ≡ offset_at self.now place }
    {
        // Few windows have an offset by chance, so it is looked for before the gaps are.
        let offset = self.stored_offset(place)?;
        if self.touches(place) {
            None
        } else {
            Some(offset)
        }
    }

    /// The offset of the 26 bits that end at `place` as they are stored, whether or not they touch a gap.
    #[inline(always)]
    pub(crate) fn stored_offset(&self, place: u64) -> Option<Offset>
        requires first { 25 ≤ place }
        requires last { place < length_of self.now }
        ensures { result ≡ the_offset_of (rem (window self.now.bits place)) }
    {
        offset_of(rem26(self.window(place)))
    }

    /// The longest section that begins at `place`, which is at least 25, and below the length.
    fn section(&self, place: u64) -> Section
        requires first { 25 ≤ place }
        requires last { place < length_of self.now }
        ensures from { result.from ≡ place }
        ensures forward { (place < result.to) × (result.to ≤ length_of self.now) }
        ensures alike { IsSection self.now result.from result.to result.touched }
    {
        let len = self.len();
        let (to, touched) = match first_after(&self.gaps, place - FIRST_WINDOW) {
            Some((from, to)) if from <= place => (len.min(to + FIRST_WINDOW), true),
            Some((from, _)) => (from, false),
            None => (len, false),
        };
        Section {
            from: place,
            to,
            touched,
        }
    }

    /// A section that has `place`, which is at least 25, and below the length: the one that is known, or else one that
    /// is looked for.
    #[inline(always)]
    pub(crate) fn section_at(&self, known: Section, place: u64) -> Section
        requires first { 25 ≤ place }
        requires last { place < length_of self.now }
        requires known { IsSection self.now known.from known.to known.touched }
        ensures has { (result.from ≤ place) × (place < result.to) }
        ensures alike { IsSection self.now result.from result.to result.touched }
    {
        if known.from <= place && place < known.to {
            known
        } else {
            self.section(place)
        }
    }

    /// Moves on from a section to one that has `place`, which is at least 25, and below the length: stays in
    /// the same if that has it, or else looks for one.
    // In its place, since a copy of a section costs more than the comparison.
    #[inline(always)]
    pub(crate) fn go_on_to(&self, section: &mut Section, place: u64)
        requires first { 25 ≤ place }
        requires last { place < length_of self.now }
        requires known { IsSection self.now section.old.from section.old.to section.old.touched }
        ensures has { (section.new.from ≤ place) × (place < section.new.to) }
        ensures alike { IsSection self.now section.new.from section.new.to section.new.touched }
    {
        if place < section.from || section.to <= place {
            *section = self.section(place);
        }
    }

    /// The bits at the 89 places from `from` on, the first one lowest, in two words of 57 places: the second begins 32
    /// places after the first, so they hold the windows at 64 places.
    #[inline(always)]
    pub(crate) fn places(&self, from: u64) -> [u64; 2]
        requires { from + 89 ≤ length_of self.now }
        ensures { (j k : ℕ) → j < 2 → k < 57
            → bit_at (slice_index result j) k ≡ slice_index self.now.bits (from + (32 * j + k)) }
    {
        self.packed.places(from)
    }
}
