//! From a reader to a writer, as the bytes come.
ghost use Rattle.std.specs.Prelude.{◌+◌, ◌-◌, ◌*◌, ◌++◌, ◌<◌, ◌^◌, ◌≡◌, ◌≢◌, ◌≤◌, ◌⊎◌, ◌↔◌, [], IfErr, IfOk, IsOkUnless, IfSome, IsErrOf, List, None, Ok, OnOk, Option, Some, length, take, true, ℕ};
ghost use Rattle.std.specs.{Io.KnownBytes.Consumes, Io.KnownBytes.IsAtEnd, Io.KnownBytes.Keeps, Io.KnownBytes.Appends, List.flat_map};
ghost use Rattle.rds_live.specs.StreamDecoder.{HasHeard, complete, live_of, report_at};
ghost use Rattle.rds_stream.specs.Recording.{AreGaps};
ghost use Rattle.rds_sync.specs.{Advance.group_item, Totals.totals_of};
ghost use Rattle.rds_tool.specs.{Following.Follows, Following.IsHeardOut, Following.IsLong, Following.bit_stream, Following.listed, Following.most_read, Following.rows_so_far, History.Gave, Inside.Streams.Breaks, Inside.Streams.IsHeard, Inside.Streams.IsNear, Inside.Streams.IsPlaceOf, Inside.Streams.IsShortEnough, Inside.Streams.bits_left as the_bits_left, Listing.item_row, Listing.report_text, Listing.totals_text, Outcome.Writes, Outcome.WritesPrefix};

use crate::engine::zeros;
use crate::listing::{push_items, push_totals};
use crate::rows::RowWriter;
use crate::stream_rows::StreamRows;
use crate::text::write_flushed;
use crate::{Failed, Sink, Source};
use rds_code::RdsError;
use rds_live::{StreamDecoder, StreamEnd, StreamLister};
use rds_stream::MOST_BITS;
use rds_sync::{Item, Rules, laws};
use std::alloc::Global;
use std::thread::Threads;

/// How many bytes a read asks for at most.
const CHUNK: usize = 131_072;

/// How many bytes of a read each worker gets, as far as a read has room for.
const SHARE: usize = 32_768;

/// Follows a stream by these rules, from the reader's next byte to its end, the highest bit of a byte first:
/// after each read it writes and flushes the rows that are complete, and at the end of input the rest of the
/// listing. The text that was written then is, byte by byte, that of a list of all bytes that were read. That
/// rows are written so is this project's rule.
///
/// With `bits` the stream ends after that number of bits, in the middle of a byte too: no byte after theirs
/// is read. The gaps are those of [`Input`](crate::Input). A read that gives less than was asked for is
/// decoded as it is, so no row waits for bits after it. Of a stream no more is kept than the last read. Up to this number of workers
/// list it, if it has 16 KiB for each: the rows are the same by any number.
///
/// Refusals: `TooLong` past 2^36 bits, before anything is read if `bits` says so; `BitsPastBytes` if the
/// input ends before `bits`; `BadGaps`, before anything is read if no recording may have such gaps, and else
/// at the end; `Read` and `Write` if a device failed; and `OutOfMemory`. None takes back the text that was
/// written: whole rows of all bytes that were read but the last read, and, if the writer failed, a beginning
/// of the text that comes next. Reader and writer have counted fewer than 2^63 failures before.
pub fn follow<R: Threads + Sync, S: Source, K: Sink>(
    rt: &R,
    alloc: Global,
    reader: &mut S,
    writer: &mut K,
    rules: &Rules,
    bits: Option<u64>,
    gaps: &[(u64, u64)],
    workers: u32,
) -> Result<(), RdsError>
    requires reads { S.failed reader.old < 2 ^ 63 }
    requires writes { K.failed writer.old < 2 ^ 63 }
    ensures all { Follows S.Source K.Sink (bit_stream (record { rules = rules.now; gaps = gaps.now }) workers bits)
        reader.old reader.new writer.old writer.new result }

    // The text that a list makes of all bytes that count was written: of those that the reader held, if these are known, and
    // at every device of those that it gave.
    ensures ok { OnOk result (IfSome (S.remaining reader.old) (λ held.
        Writes (K.contents writer.old) (K.contents writer.new)
        (listed (record { rules = rules.now; gaps = gaps.now }) bits held))) }
    ensures heard { OnOk result (Gave (S.given reader.old) (S.given reader.new) (λ bytes.
        IsHeardOut bits (S.has_ended reader.new) bytes
        × Writes (K.contents writer.old) (K.contents writer.new)
        (listed (record { rules = rules.now; gaps = gaps.now }) bits bytes))) }
    ensures flushed { OnOk result (K.is_flushed writer.new ≡ true) }
{
    let live = follow_bytes(rt, alloc, reader, writer, rules, gaps, bits, workers)?;
    let left = bits_left(bits, live.place());
    let mut last = [0u8; 1];
    let count = read_last(reader, &mut last, left)?;
    let rows = rows_of_rest(alloc, live, &last[..count], left)?;
    write_flushed(writer, rows.as_slice())
}

/// Follows the whole bytes of a stream that count, to its end at most.
fn follow_bytes<'r, R: Threads + Sync, S: Source, K: Sink>(
    rt: &R,
    alloc: Global,
    reader: &mut S,
    writer: &mut K,
    rules: &'r Rules,
    gaps: &'r [(u64, u64)],
    bits: Option<u64>,
    workers: u32,
) -> Result<StreamDecoder<'r>, RdsError>
    requires reads { S.failed reader.old < 2 ^ 63 }
    requires writes { K.failed writer.old < 2 ^ 63 }
    ensures heard { IfOk result (λ live. (heard : List ℕ)
        × IsHeard S.Source K.Sink (bit_stream (record { rules = rules.now; gaps = gaps.now }) workers bits)
        reader.old reader.new writer.old writer.new heard
        × (live ≡ live_of (record { rules = rules.now; gaps = gaps.now }) heard)) }
    ensures near { IfOk result (λ live. IsNear bits 8 live.place
        (IsAtEnd (S.remaining reader.new) × (S.has_ended reader.new ≡ true))) }
    ensures claims { OnOk result (IsShortEnough bits) }
    ensures broke { IfErr result (Breaks S.Source K.Sink (bit_stream (record { rules = rules.now; gaps = gaps.now }) workers bits)
        reader.old reader.new writer.old writer.new) }
{
    prove!(1 <= rules.reach());
    laws::runs_are_reports();
    let (begun, mut buf) = begin(alloc, rules, gaps, bits, workers)?;
    let mut lister = begun;
    'reads: loop {
        let room = room_before_end(bits, lister.place());
        let count = read_once(reader, buf.as_mut_slice(), room)?;
        if count == 0 {
            break;
        }
        lister = follow_chunk(rt, alloc, writer, lister, &buf[..count], workers)?;
    }
    Ok(lister.into_decoder())
}

/// A lister that has heard nothing yet, of a stream that may have `bits` bits and these gaps, and room for a read.
fn begin<'r>(
    alloc: Global,
    rules: &'r Rules,
    gaps: &'r [(u64, u64)],
    bits: Option<u64>,
    workers: u32,
) -> Result<(StreamLister<'r, StreamRows>, Vec<u8>), RdsError>
    ensures live { IfOk result (λ begun. begun.0.live ≡ live_of
        (record { rules = rules.now; gaps = gaps.now }) []) }
    ensures room { IfOk result (λ begun. length begun.1.items ≡ most_read workers) }
    ensures claims { OnOk result (IsShortEnough bits) }
    ensures too_long { IsErrOf result RdsError.TooLong → IsLong bits }
    ensures bad_gaps { IsErrOf result RdsError.BadGaps → AreGaps (2 ^ 36) gaps.now → ⊥ }
    ensures kinds { IfErr result (λ error. (error ≡ RdsError.OutOfMemory)
        ⊎ ((error ≡ RdsError.TooLong) ⊎ (error ≡ RdsError.BadGaps))) }
{
    check_claim(bits)?;
    let live = StreamDecoder::with_gaps(alloc, rules, gaps)?;
    let lister = StreamLister::new(alloc, live, StreamRows::new(alloc)?)?;
    let buf = zeros(alloc, read_by(workers))?;
    Ok((lister, buf))
}

/// How many bytes a read asks for, by this number of workers.
fn read_by(workers: u32) -> usize
    ensures { result ≡ most_read workers }
{
    (SHARE * workers.min(4) as usize).max(65_536)
}

/// Refuses more bits than a stream may have.
pub(crate) fn check_claim(bits: Option<u64>) -> Result<(), RdsError>
    ensures fits { OnOk result (IsShortEnough bits) }
    ensures too_long { IfErr result (λ error. (error ≡ RdsError.TooLong) × IsLong bits) }
{
    match bits {
        Some(bits) if bits > MOST_BITS => Err(RdsError::TooLong),
        _ => Ok(()),
    }
}

/// How many bytes the next read may ask for: none if no whole byte is left of the bits that count.
fn room_before_end(bits: Option<u64>, place: u64) -> usize
    requires { IsPlaceOf bits place }
    ensures few { result ≤ 131072 }
    ensures within { IfSome bits (λ bits. place + 8 * result ≤ bits) }
    ensures none { result ≡ 0 → IfSome bits (λ bits. bits < place + 8) × (bits ≢ None) }
{
    match bits {
        Some(bits) => ((bits - place) / 8).min(CHUNK as u64) as usize,
        None => CHUNK,
    }
}

/// How many of the claimed bits are left after the place.
fn bits_left(bits: Option<u64>, place: u64) -> u64
    requires { IsPlaceOf bits place }
    ensures { result ≡ the_bits_left bits place }
{
    match bits {
        Some(bits) => bits - place,
        None => 0,
    }
}

/// One read of at most `room` bytes, and none if that is 0. Answers how many bytes it gave.
pub(crate) fn read_once<S: Source>(
    reader: &mut S,
    buf: &mut [u8],
    room: usize,
) -> Result<usize, RdsError>
    requires count { S.failed reader.old < 2 ^ 63 }
    requires room { 0 < length buf.old }
    ensures within { IfOk result (λ count. (count ≤ length buf.new) × (count ≤ room)) }
    ensures taken { IfOk result (λ count. Consumes (S.remaining reader.old) (S.remaining reader.new)
        (take count buf.new)) }
    ensures end { IfOk result (λ count. count ≡ 0 → (room ≡ 0) ⊎ IsAtEnd (S.remaining reader.new)) }
    ensures given { IfOk result (λ count. S.given reader.new ≡ S.given reader.old ++ take count buf.new) }
    ensures answer { IfOk result (λ count. count ≡ 0 → (room ≡ 0) ⊎ (S.has_ended reader.new ≡ true)) }
    ensures kept { IfErr result (λ error. Keeps (S.remaining reader.old) (S.remaining reader.new)) }
    ensures none_given { IfErr result (λ error. S.given reader.new ≡ S.given reader.old) }
    ensures count { OnOk result (S.failed reader.new ≡ S.failed reader.old) }
    ensures failed { IfErr result (λ error. S.failed reader.old < S.failed reader.new) }
    ensures kinds { IsOkUnless result RdsError.Read }
{
    let room = room.min(buf.len());
    if room == 0 {
        return Ok(0);
    }
    match reader.read(&mut buf[..room]) {
        Ok(count) => Ok(count),
        Err(Failed) => Err(RdsError::Read),
    }
}

/// Reads the byte of the bits that are left, if there are some. Answers how many bytes it gave, which hold
/// them.
fn read_last<S: Source>(reader: &mut S, last: &mut [u8], left: u64) -> Result<usize, RdsError>
    requires count { S.failed reader.old < 2 ^ 63 }
    requires room { length last.old ≡ 1 }
    ensures within { IfOk result (λ count. (count ≤ length last.new) × (left ≤ 8 * count)
        × (8 * count < left + 8)) }
    ensures few { IfOk result (λ count. count ≤ 1) }
    ensures short { OnOk result (left < 8) }
    ensures taken { IfOk result (λ count. Consumes (S.remaining reader.old) (S.remaining reader.new)
        (take count last.new)) }
    ensures given { IfOk result (λ count. S.given reader.new ≡ S.given reader.old ++ take count last.new) }
    ensures still { IfOk result (λ count. left ≡ 0 → reader.new ≡ reader.old) }
    ensures none_given { IfErr result (λ error. S.given reader.new ≡ S.given reader.old) }
    ensures kept { IfErr result (λ error. Keeps (S.remaining reader.old) (S.remaining reader.new)) }
    ensures count { OnOk result (S.failed reader.new ≡ S.failed reader.old) }
    ensures failed { IsErrOf result RdsError.Read → S.failed reader.old < S.failed reader.new }
    ensures past { IsErrOf result RdsError.BitsPastBytes → (0 < left) × (S.failed reader.new ≡ S.failed reader.old)
        × (((8 ≤ left) × (reader.new ≡ reader.old))
        ⊎ (IsAtEnd (S.remaining reader.new) × (S.has_ended reader.new ≡ true))) }
    ensures kinds { IfErr result (λ error. (error ≡ RdsError.Read) ⊎ (error ≡ RdsError.BitsPastBytes)) }
{
    if left == 0 {
        return Ok(0);
    }
    if left >= 8 {
        return Err(RdsError::BitsPastBytes);
    }
    match read_once(reader, last, 1)? {
        0 => Err(RdsError::BitsPastBytes),
        count => Ok(count),
    }
}

/// Decodes the next bytes of a stream, and writes and flushes the rows that they complete.
fn follow_chunk<'r, R: Threads + Sync, K: Sink>(
    rt: &R,
    alloc: Global,
    writer: &mut K,
    lister: StreamLister<'r, StreamRows>,
    bytes: &[u8],
    workers: u32,
) -> Result<StreamLister<'r, StreamRows>, RdsError>
    requires { K.failed writer.old < 2 ^ 63 }
    ensures heard { IfOk result (λ next. (before : List ℕ) → HasHeard lister.entry.live before
        → HasHeard next.live (before ++ bytes.now)) }
    ensures terms { IfOk result (λ next. next.live.terms ≡ lister.entry.live.terms) }
    ensures rows { OnOk result ((before : List ℕ) → HasHeard lister.entry.live before → (rows : List ℕ)
        × (rows_so_far lister.entry.live.terms (before ++ bytes.now)
        ≡ rows_so_far lister.entry.live.terms before ++ rows)
        × Appends (K.contents writer.old) (K.contents writer.new) rows) }
    ensures count { OnOk result (K.failed writer.new ≡ K.failed writer.old) }
    ensures fits { OnOk result (lister.entry.live.place + 8 * length bytes.now ≤ 2 ^ 36) }
    ensures flushed { OnOk result (K.is_flushed writer.new ≡ true) }
    ensures write { IsErrOf result RdsError.Write ↔ (K.failed writer.old < K.failed writer.new) }
    ensures too_long { IsErrOf result RdsError.TooLong
        → 2 ^ 36 < lister.entry.live.place + 8 * length bytes.now }
    ensures kinds { IfErr result (λ error. (error ≡ RdsError.OutOfMemory)
        ⊎ ((error ≡ RdsError.Write) ⊎ (error ≡ RdsError.TooLong))) }
    ensures untouched { IfErr result (λ error. error ≢ RdsError.Write → writer.new ≡ writer.old) }
    ensures prefix { IsErrOf result RdsError.Write → (before : List ℕ) → HasHeard lister.entry.live before
        → (rows : List ℕ)
        × (rows_so_far lister.entry.live.terms (before ++ bytes.now)
        ≡ rows_so_far lister.entry.live.terms before ++ rows)
        × WritesPrefix (K.contents writer.old) (K.contents writer.new) (Ok rows) }
{
    let next = list_chunk(rt, alloc, lister, bytes, workers)?;
    next.rows().write_to(writer)?;
    Ok(next)
}

/// Decodes the next bytes of a stream, and makes the rows that they complete, in place of those before.
fn list_chunk<'r, R: Threads + Sync>(
    rt: &R,
    alloc: Global,
    lister: StreamLister<'r, StreamRows>,
    bytes: &[u8],
    workers: u32,
) -> Result<StreamLister<'r, StreamRows>, RdsError>
    ensures heard { IfOk result (λ next. (before : List ℕ) → HasHeard lister.entry.live before
        → HasHeard next.live (before ++ bytes.now)) }
    ensures terms { IfOk result (λ next. next.live.terms ≡ lister.entry.live.terms) }
    ensures rows { IfOk result (λ next. (before : List ℕ) → HasHeard lister.entry.live before
        → rows_so_far lister.entry.live.terms (before ++ bytes.now)
        ≡ rows_so_far lister.entry.live.terms before ++ next.rows) }
    ensures fits { OnOk result (lister.entry.live.place + 8 * length bytes.now ≤ 2 ^ 36) }
    ensures too_long { IsErrOf result RdsError.TooLong
        → 2 ^ 36 < lister.entry.live.place + 8 * length bytes.now }
    ensures kinds { IfErr result (λ error. (error ≡ RdsError.OutOfMemory) ⊎ (error ≡ RdsError.TooLong)) }
{
    let mut lister = lister;
    lister.clear_rows();
    Ok(lister.list(rt, alloc, bytes, workers)?)
}

/// The rest of a listing: the rows that the first `bits` bits of these bytes complete, that of the group in
/// progress after them, if any, and those of the totals.
fn rows_of_rest(
    alloc: Global,
    live: StreamDecoder<'_>,
    bytes: &[u8],
    bits: u64,
) -> Result<Vec<u8>, RdsError>
    requires held { bits ≤ 8 * length bytes.now }
    requires few { bits ≤ 8 }
    requires limit { live.place + bits ≤ 2 ^ 36 }
    ensures rows { IfOk result (λ text. (before : List ℕ) → HasHeard live.entry before
        → let items = report_at live.entry.terms (before ++ bytes.now) (8 * length before + bits) in
        report_text items (totals_of items) ≡ rows_so_far live.entry.terms before ++ text.items) }
    ensures gaps { OnOk result (AreGaps (live.entry.place + bits) live.entry.terms.gaps) }
    ensures bad_gaps { IsErrOf result RdsError.BadGaps
        → AreGaps (live.entry.place + bits) live.entry.terms.gaps → ⊥ }
    ensures kinds { IfErr result (λ error. (error ≡ RdsError.OutOfMemory) ⊎ (error ≡ RdsError.BadGaps)) }
{
    let (items, end) = end_after(alloc, live, bytes, bits)?;
    let text = rows_to_end(alloc, items.as_slice(), &end)?;
    Ok(text)
}

/// The items that the first `bits` bits of these bytes complete, and the end of the stream after them.
pub(crate) fn end_after(
    alloc: Global,
    live: StreamDecoder<'_>,
    bytes: &[u8],
    bits: u64,
) -> Result<(Vec<Item>, StreamEnd), RdsError>
    requires held { bits ≤ 8 * length bytes.now }
    requires few { bits ≤ 8 }
    requires limit { live.place + bits ≤ 2 ^ 36 }
    ensures items { IfOk result (λ ended. (before : List ℕ) → HasHeard live.entry before
        → complete live.entry.terms before ++ ended.0.items ++ group_item ended.1.group
        ≡ report_at live.entry.terms (before ++ bytes.now) (8 * length before + bits)) }
    ensures totals { IfOk result (λ ended. (before : List ℕ) → HasHeard live.entry before
        → ended.1.totals ≡ totals_of (report_at live.entry.terms (before ++ bytes.now) (8 * length before + bits))) }
    ensures gaps { OnOk result (AreGaps (live.entry.place + bits) live.entry.terms.gaps) }
    ensures bad_gaps { IsErrOf result RdsError.BadGaps
        → AreGaps (live.entry.place + bits) live.entry.terms.gaps → ⊥ }
    ensures kinds { IfErr result (λ error. (error ≡ RdsError.OutOfMemory) ⊎ (error ≡ RdsError.BadGaps)) }
{
    if !live.may_end_after(bits) {
        return Err(RdsError::BadGaps);
    }
    let mut items = Vec::with_capacity(alloc, 2 * bits as usize)?;
    let end = live.finish_with(bytes, bits, &mut items)?;
    Ok((items, end))
}

/// The rows of the last items of a listing, and those of its end: of the group in progress, if there is one, and of
/// the totals.
fn rows_to_end(alloc: Global, items: &[Item], end: &StreamEnd) -> Result<Vec<u8>, RdsError>
    ensures rows { IfOk result (λ text. text.items
        ≡ flat_map item_row items.now ++ (flat_map item_row (group_item end.now.group)
        ++ totals_text end.now.totals)) }
    ensures refused { IsOkUnless result RdsError.OutOfMemory }
{
    let mut text = Vec::new(alloc);
    let mut pen = RowWriter::new();
    push_items(&mut pen, &mut text, items)?;
    push_last_group(&mut pen, &mut text, end)?;
    push_totals(&mut pen, &mut text, &end.totals)?;
    Ok(text)
}

/// The row of the group in progress, if there is one.
fn push_last_group(pen: &mut RowWriter, text: &mut Vec<u8>, end: &StreamEnd) -> Result<(), RdsError>
    ensures text { OnOk result (text.new.items ≡ text.old.items
        ++ flat_map item_row (group_item end.now.group)) }
    ensures refused { IsOkUnless result RdsError.OutOfMemory }
{
    if let Some(group) = end.group {
        push_items(pen, text, [Item::Group(group)].as_slice())?;
    }
    Ok(())
}
