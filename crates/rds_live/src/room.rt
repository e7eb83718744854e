//! Room for the last bytes of a stream and those that come after them, which is taken once.

ghost use Rattle.std.specs.Prelude.{◌≡◌, ◌≤◌, ◌+◌, ◌*◌, ◌^◌, ◌++◌, [], IfOk, length, min};
ghost use Rattle.rds_stream.specs.Recording.{AreGaps, length_of};
ghost use Rattle.rds_live.specs.{Gaps.gaps_within, StreamDecoder.last_bytes, StreamDecoder.signal_at, Room.IsHeardIn, Room.slots_of};

use crate::gaps::{fill_gaps, fill_up};
use crate::kept::MOST_KEPT;
use rds_stream::Recording;
use std::alloc::{AllocError, Global};
use std::marker::Model;

/// How many bytes are decoded at once, at most.
pub(crate) const AT_ONCE: usize = 960;

/// How many bytes there is room for.
const HELD: usize = MOST_KEPT + AT_ONCE;

/// How many bits these have.
pub(crate) const HELD_BITS: u64 = 8 * HELD as u64;

/// The last bytes of a stream, those that come after them, and a recording that they are heard in.
///
/// The recording always has as many bits, and as many gaps, since more than it was made with would take memory. Its second
/// half is for the spare gaps, which are not needed. Contracts see the bytes and the recording.
#[derive(Drop)]
pub(crate) struct Room {
    bytes: Vec<u8>,
    gaps: Vec<(u64, u64)>,
    /// How many gaps the recording has.
    slots: usize,
    /// How many of them are no spare ones.
    used: usize,
    recording: Recording,
}

impl Model for Room {
    ghost use Rattle.std.specs.Prelude.{◌≡◌, ◌≤◌, length, vec_capacity};
    ghost use Rattle.rds_stream.specs.Recording.{length_of};
    ghost use Rattle.rds_live.specs.Room.{AreSpareFrom, RoomOf};

    ghost Value = { RoomOf };

    ghost view = { λ r. record { bytes = r.bytes.items; recording = r.recording } };

    ghost invariant = { λ r. (length r.bytes.items ≤ 990) × (990 ≤ vec_capacity r.bytes)
        × (length_of r.recording ≡ 15840)
        × (length r.recording.gaps ≡ r.slots) × (r.slots ≤ 7920) × (r.slots ≤ vec_capacity r.gaps)
        × (r.used ≤ r.slots) × AreSpareFrom r.used r.recording.gaps };
}

impl Room {
    /// Room for the bytes of a stream with `gaps` gaps. Takes the memory for them.
    pub fn new(alloc: Global, gaps: usize) -> Result<Room, AllocError>
        ensures bytes { IfOk result (λ room. room.bytes ≡ []) }
        ensures slots { IfOk result (λ room. slots_of room ≡ min gaps 7920) }
    {
        let slots = gaps.min(HELD_BITS as usize);
        let bytes = Vec::with_capacity(alloc, HELD)?;
        let gaps = Vec::with_capacity(alloc, slots)?;
        let mut spare = Vec::with_capacity(alloc, slots)?;
        fill_up(&mut spare, slots);
        let silence = silence(alloc)?;
        match Recording::with_gaps(silence, 2 * HELD_BITS, spare) {
            Ok(recording) => Ok(Room {
                bytes,
                gaps,
                slots,
                used: 0,
                recording,
            }),
            Err(_) => unreachable!(),
        }
    }

    /// The bytes.
    pub fn bytes(&self) -> &[u8]
        ensures value { result.now ≡ self.now.bytes }
        ensures limit { length result.now ≤ 990 }
    {
        &self.bytes
    }

    /// Appends these bytes.
    pub fn push(&mut self, bytes: &[u8])
        requires { length self.old.bytes + length bytes.now ≤ 990 }
        ensures bytes { self.new.bytes ≡ self.old.bytes ++ bytes.now }
        ensures slots { slots_of self.new ≡ slots_of self.old }
    {
        match self.bytes.extend_from_slice(bytes) {
            Ok(()) => {}
            Err(_) => unreachable!(),
        }
    }

    /// Drops the bytes.
    pub fn clear(&mut self)
        ensures bytes { self.new.bytes ≡ [] }
        ensures slots { slots_of self.new ≡ slots_of self.old }
    {
        self.bytes.clear();
    }

    /// Keeps only the last bytes.
    pub fn keep_last(&mut self)
        ensures bytes { self.new.bytes ≡ last_bytes self.old.bytes }
        ensures slots { slots_of self.new ≡ slots_of self.old }
    {
        let first = self.bytes.len().saturating_sub(MOST_KEPT);
        self.bytes.copy_within(first.., 0);
        self.bytes.truncate(self.bytes.len() - first);
    }

    /// Has the recording hear the bytes, before which there are `before` bits of a stream with these gaps.
    pub fn listen(&mut self, gaps: &[(u64, u64)], before: u64)
        requires are { AreGaps (2 ^ 36) gaps.now }
        requires room { min (length gaps.now) 7920 ≤ slots_of self.old }
        ensures bytes { self.new.bytes ≡ self.old.bytes }
        ensures slots { slots_of self.new ≡ slots_of self.old }
        ensures heard { IsHeardIn self.new gaps.now before }
    {
        fill_gaps(&mut self.gaps, gaps, before, HELD_BITS);
        let used = self.gaps.len();
        fill_up(&mut self.gaps, self.used);
        self.recording.refill(&self.bytes, &self.gaps);
        self.used = used;
    }

    /// The recording.
    pub fn recording(&self) -> &Recording
        ensures value { result.now ≡ self.now.recording }
        ensures long { length_of result.now ≡ 15840 }
    {
        &self.recording
    }

    /// The first `bits` bits of the bytes as a recording, with the gaps in them, as [`listen`](Room::listen) has it.
    pub fn into_recording(self, gaps: &[(u64, u64)], before: u64, bits: u64) -> Recording
        requires are { AreGaps (2 ^ 36) gaps.now }
        requires room { min (length gaps.now) 7920 ≤ slots_of self }
        requires held { bits ≤ 8 * length self.bytes }
        ensures { result ≡ signal_at (gaps_within gaps.now before bits) self.bytes bits }
    {
        let Room {
            bytes,
            gaps: near,
            slots: _,
            used: _,
            recording: _,
        } = self;
        let mut near = near;
        fill_gaps(&mut near, gaps, before, bits);
        match Recording::with_gaps(bytes, bits, near) {
            Ok(recording) => recording,
            Err(_) => unreachable!(),
        }
    }
}

/// Bytes for a recording that hears all that there is room for, and as many places for gaps after it.
fn silence(alloc: Global) -> Result<Vec<u8>, AllocError>
    ensures { IfOk result (λ bytes. length bytes.items ≡ 1980) }
{
    vec![in alloc; 0u8; 2 * HELD]
}
