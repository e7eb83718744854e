//! Facts that a user of `rds_stream` relies on: bits from bytes, gaps, windows, scans, planes and tapes.
ghost use Rattle.std.specs.Prelude.{◌≡◌, ℕ, ◌+◌, ◌-◌, ◌*◌, ◌<◌, ◌≤◌, ◌^◌, IfOk, IfSome, IsOkUnless, None, Ok, Some, Err, if◌then◌else◌, slice_index, true, vec_len, false};
ghost use Rattle.std.specs.Int.{bit_at};
ghost use Rattle.rds_code.specs.{Remainder.rem, Reading.reading, declared.reading.Reading.TheVariants.Lost, declared.error.RdsError.TheVariants.BitsPastBytes, declared.error.RdsError.TheVariants.OutOfMemory, declared.error.RdsError.TheVariants.TooLong, declared.error.RdsError.TheVariants.BadGaps};
ghost use Rattle.rds_stream.specs.{Recording.bits_of, Recording.heard, Recording.length_of, Recording.offset_at, Recording.ungapped, Recording.valid_windows, Recording.window, Recording.AreGaps, Recording.touched, ValidWindows.NoneValid};

use rds_code::{BlockNumber, BurstLimit, BurstTable, Offset, RdsError, Reading, Wanted, rem26};
use rds_stream::{
    Counted, Reader, Recording, Tape, ValidWindows, offset_heard, planes, read_heard, scan,
};
use std::alloc::Global;
use std::snapshot::Snapshot;

/// The first `bits` bits of the bytes. Too many for a recording, and then too many for the bytes, are refused. The bytes come back.
pub fn recording_from(bytes: Vec<u8>, bits: u64) -> Result<Recording, (RdsError, Vec<u8>)>
    ensures taken { bits ≤ 2 ^ 36 → bits ≤ 8 * vec_len bytes → result ≡ Ok (ungapped (bits_of bytes.items bits)) }
    ensures too_long { 2 ^ 36 < bits → result ≡ Err (TooLong, bytes) }
    ensures past { bits ≤ 2 ^ 36 → 8 * vec_len bytes < bits → result ≡ Err (BitsPastBytes, bytes) }
{
    Recording::from_bytes(bytes, bits)
}

/// Four blocks in a row are heard as each of them is by itself, in whichever order.
pub fn heard_in_a_row(reader: &mut Reader<'_>, place: u64) -> bool
    requires first { 25 ≤ place }
    requires last { place + 78 < length_of reader.old }
    ensures result { result ≡ true }
    ensures same { reader.new ≡ reader.old }
{
    let _len = reader.recording().len();
    let row = reader.four_windows(place);
    let four = reader.window(place + 78);
    let three = reader.window(place + 52);
    let two = reader.window(place + 26);
    row == [reader.window(place), two, three, four]
}

/// All valid windows of a recording, by rising place. Only memory can be refused.
pub fn all_valid(alloc: Global, recording: &Recording) -> Result<Vec<(u64, Offset)>, RdsError>
    ensures found { IfOk result (λ found. found.items ≡ valid_windows recording.now 0 (length_of recording.now)) }
    ensures refused { IsOkUnless result OutOfMemory }
{
    scan(alloc, recording, 0, recording.len())
}

/// The first valid window of a recording, with its offset, if there is one, and how far the second is after it: they come by rising place,
/// within the recording.
pub fn first_two(recording: &Recording) -> (Option<(u64, Offset)>, Option<u64>)
    ensures some { IfSome result.0 (λ found. offset_at recording.now found.0 ≡ Some found.1) }
    ensures first { IfSome result.0 (λ found. NoneValid recording.now 0 found.0) }
    ensures none { result.0 ≡ None → NoneValid recording.now 0 (length_of recording.now) }
    ensures distance { IfSome result.1 (λ distance. (0 < distance) × (distance < length_of recording.now)) }
{
    let mut windows = ValidWindows::new(recording, 0, recording.len());
    match windows.next() {
        None => (None, None),
        Some(one) => match windows.next() {
            None => (Some(one), None),
            Some(other) => (Some(one), Some(other.0 - one.0)),
        },
    }
}

/// The window 63 places on: its remainder, as it is stored and at bit 63 of the planes, and its last bit.
pub fn last_of_planes(recording: &Recording, at: u64) -> ([u64; 10], u16, bool)
    requires first { 25 ≤ at }
    requires last { at + 64 ≤ length_of recording.now }
    ensures stored { result.1 ≡ rem (window recording.now.bits (at + 63)) }
    ensures planes { (r : ℕ) → r < 10 → bit_at (slice_index result.0 r) 63 ≡ bit_at result.1 r }
    ensures bit { slice_index recording.now.bits (at + 63) ≡ (if result.2 then 1 else 0) }
{
    let _len = recording.len();
    let last = at + 63;
    let remainder = rem26(recording.window(last));
    (planes(recording, at), remainder, recording.bit(last))
}

/// The offset of a tape's last place, twice its length, and its recording. At most one window is counted.
#[tactic(auto, using(std::proofs::lemmas::Grind::common_steps, rds_stream::proofs::WindowLists::off_late))]
pub fn last_offset<T: Tape>(tape: &mut T) -> (Option<Offset>, u64, Snapshot<Recording>)
    requires some { 26 ≤ length_of (T.signal tape.old) }
    requires room { T.reads_made tape.old < 2 ^ 63 }
    ensures offset { result.0 ≡ offset_at (T.signal tape.old) (length_of (T.signal tape.old) - 1) }
    ensures twice { result.1 ≡ 2 * length_of (T.signal tape.old) }
    ensures source { result.2.value ≡ T.signal tape.old }
    ensures counted { T.reads_made tape.new ≤ T.reads_made tape.old + 1 }
    ensures same { T.signal tape.new ≡ T.signal tape.old }
{
    let len = tape.len();
    (offset_heard(tape.window(len - 1)), 2 * len, tape.source())
}

/// The answer if gaps are refused: why, the bytes and the gaps.
type Refused = (RdsError, Vec<u8>, Vec<(u64, u64)>);

/// The same with gaps, which are refused last, unless they are in order and among the bits.
pub fn with_gaps(bytes: Vec<u8>, bits: u64, gaps: Vec<(u64, u64)>) -> Result<Recording, Refused>
    ensures taken { bits ≤ 2 ^ 36 → bits ≤ 8 * vec_len bytes → AreGaps bits gaps.items
        → result ≡ Ok (record { bits = bits_of bytes.items bits; gaps = gaps.items }) }
    ensures too_long { 2 ^ 36 < bits → result ≡ Err (TooLong, bytes, gaps) }
    ensures past { bits ≤ 2 ^ 36 → 8 * vec_len bytes < bits → result ≡ Err (BitsPastBytes, bytes, gaps) }
    ensures bad_gaps { bits ≤ 2 ^ 36 → bits ≤ 8 * vec_len bytes → (AreGaps bits gaps.items → ⊥) → result ≡ Err (BadGaps, bytes, gaps) }
{
    Recording::with_gaps(bytes, bits, gaps)
}

/// The block of a window that touches a gap is lost, whatever its bits are, and has no offset. Any other window is heard as it is stored. A
/// window is counted either way.
pub fn block_with_gaps(
    table: &BurstTable,
    recording: &Recording,
    place: u64,
    number: BlockNumber,
    wanted: Wanted,
) -> (bool, Option<u32>, Reading, Option<Offset>)
    requires first { 25 ≤ place }
    requires last { place < length_of recording.now }
    ensures known { result.0 ≡ touched recording.now place }
    ensures touched { touched recording.now place ≡ true → (result.1 ≡ None) × (result.2 ≡ Lost) }
    ensures clear { touched recording.now place ≡ false → (result.1 ≡ Some (window recording.now.bits place))
        × (result.2 ≡ reading (window recording.now.bits place) number wanted 5) }
    ensures offset { result.3 ≡ offset_at recording.now place }
{
    let mut tape = Counted::new(recording);
    let heard = tape.window(place);
    prove!(tape.reads() == 1);
    let read = read_heard(table, heard, number, wanted, BurstLimit::LONGEST);
    (recording.touches(place), heard, read, offset_heard(heard))
}
