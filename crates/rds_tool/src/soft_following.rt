//! From a reader of symbols to a writer, as the symbols come.
ghost use Rattle.std.specs.Prelude.{◌++◌, ◌+◌, ◌-◌, ◌<◌, ◌^◌, ◌≡◌, ◌≢◌, ◌≤◌, ◌⊎◌, ◌↔◌, [], IfErr, IfOk, IfSome, IsErrOf, List, None, Ok, OnOk, length, true, ℕ};
ghost use Rattle.std.specs.{Io.KnownBytes.Appends, Io.KnownBytes.IsAtEnd, List.flat_map};
ghost use Rattle.rds_soft.specs.SoftStream.{group_item};
ghost use Rattle.rds_stream.specs.Recording.{AreGaps};
ghost use Rattle.rds_tool.specs.{Following.Follows, Following.IsLong, Following.IsShort, SoftFollowing.most_symbols, SoftFollowing.soft_rows_so_far, SoftFollowing.soft_stream_text, SoftFollowing.symbol_stream, Inside.Streams.Breaks, Inside.Streams.IsHeard, Inside.Streams.IsNear, Inside.Streams.IsShortEnough, Outcome.WritesPrefix, Soft.soft_row, Soft.soft_totals_text};

use crate::engine::zeros;
use crate::following::{check_claim, read_once};
use crate::held_symbols::whole_list;
use crate::rows::RowWriter;
use crate::soft_rows::{push_listed, push_soft_totals};
use crate::text::write_flushed;
use crate::{Sink, Source};
use rds_code::RdsError;
use rds_soft::{Margin, SoftEnd, SoftList, SoftStream};
use rds_sync::{Rules, laws};
use std::alloc::{AllocError, Global};
use std::thread::Threads;

/// How many symbols a read asks for at most.
const CHUNK: usize = 4096;

/// Follows a stream of symbols, each a signed byte, by these rules and this margin, from the reader's next byte to its end: after each
/// read it writes and flushes the rows that are complete, and at the end of input the rest of the listing. The text that was written
/// then is, byte by byte, that of a soft list of all symbols that were read. That rows are written so is this project's rule.
///
/// With `bits` the stream ends after that number of bits, one fewer than its symbols: no symbol after theirs is read. The gaps are those
/// of [`Input`](crate::Input). A read that gives less than was asked for is decoded as it is, to its last symbol, so no row waits for
/// symbols after it. Of a stream no more is kept than the last read and 240 symbols.
///
/// Refusals: `TooLong` past 2^36 bits, before anything is read if `bits` says so; `BitsPastBytes` if the input ends before `bits`;
/// `BadGaps`, before anything is read if no recording may have such gaps, and else at the end; `Read` and `Write` if a device failed; and
/// `OutOfMemory`. None takes back the text that was written. Reader and writer have counted fewer than 2^63 failures before.
pub fn follow_soft<R: Threads + Sync, S: Source, K: Sink>(
    rt: &R,
    alloc: Global,
    reader: &mut S,
    writer: &mut K,
    rules: &Rules,
    margin: Margin,
    bits: Option<u64>,
    gaps: &[(u64, u64)],
    workers: u32,
) -> Result<(), RdsError>
    requires reads { S.failed reader.old < 2 ^ 63 }
    requires writes { K.failed writer.old < 2 ^ 63 }
    ensures { Follows S.Source K.Sink (symbol_stream (record { rules = rules.now; gaps = gaps.now; margin = margin }) bits)
        reader.old reader.new writer.old writer.new result }
{
    laws::runs_are_reports();
    let stream = follow_symbols(
        rt, alloc, reader, writer, rules, margin, bits, gaps, workers,
    )?;
    let rows = rows_of_end(alloc, stream, bits)?;
    write_flushed(writer, rows.as_slice())
}

/// Follows the symbols of a stream that count, to its end at most.
fn follow_symbols<'r, R: Threads + Sync, S: Source, K: Sink>(
    rt: &R,
    alloc: Global,
    reader: &mut S,
    writer: &mut K,
    rules: &'r Rules,
    margin: Margin,
    bits: Option<u64>,
    gaps: &'r [(u64, u64)],
    workers: u32,
) -> Result<SoftStream<'r>, RdsError>
    requires reads { S.failed reader.old < 2 ^ 63 }
    requires writes { K.failed writer.old < 2 ^ 63 }
    ensures heard { IfOk result (λ stream.
        IsHeard S.Source K.Sink (symbol_stream (record { rules = rules.now; gaps = gaps.now; margin = margin }) bits)
        reader.old reader.new writer.old writer.new stream.symbols
        × (stream.terms ≡ record { rules = rules.now; gaps = gaps.now; margin = margin })) }
    ensures near { IfOk result (λ stream. IsNear bits 1 (length stream.symbols - 1)
        (IsAtEnd (S.remaining reader.new) × (S.has_ended reader.new ≡ true))) }
    ensures claims { OnOk result (IsShortEnough bits) }
    ensures broke { IfErr result (Breaks S.Source K.Sink (symbol_stream (record { rules = rules.now; gaps = gaps.now; margin = margin }) bits)
        reader.old reader.new writer.old writer.new) }
{
    prove!(1 <= rules.reach());
    laws::runs_are_reports();
    let (begun, mut buf) = begin(alloc, rules, margin, bits, gaps, workers)?;
    let mut stream = begun;
    'reads: loop {
        let room = symbols_left(bits, stream.count());
        let count = read_once(reader, buf.as_mut_slice(), room)?;
        if count == 0 {
            break;
        }
        follow_next(rt, alloc, writer, &mut stream, &buf[..count])?;
    }
    Ok(stream)
}

/// A stream of which nothing was heard yet, that may have `bits` bits and these gaps, and room for a read.
fn begin<'r>(
    alloc: Global,
    rules: &'r Rules,
    margin: Margin,
    bits: Option<u64>,
    gaps: &'r [(u64, u64)],
    workers: u32,
) -> Result<(SoftStream<'r>, Vec<u8>), RdsError>
    ensures stream { IfOk result (λ begun. begun.0 ≡ record {
      terms = record { rules = rules.now; gaps = gaps.now; margin = margin };
      symbols = [];
    }) }
    ensures room { IfOk result (λ begun. length begun.1.items ≡ most_symbols) }
    ensures claims { OnOk result (IsShortEnough bits) }
    ensures too_long { IsErrOf result RdsError.TooLong → IsLong bits }
    ensures bad_gaps { IsErrOf result RdsError.BadGaps → AreGaps (2 ^ 36) gaps.now → ⊥ }
    ensures kinds { IfErr result (λ error. (error ≡ RdsError.OutOfMemory)
        ⊎ ((error ≡ RdsError.TooLong) ⊎ (error ≡ RdsError.BadGaps))) }
{
    check_claim(bits)?;
    let stream = SoftStream::new(alloc, rules, gaps, margin, workers)?;
    let buf = zeros(alloc, CHUNK)?;
    Ok((stream, buf))
}

/// How many symbols the next read may ask for: none if those of all bits that count were heard.
fn symbols_left(bits: Option<u64>, count: u64) -> usize
    requires claims { IsShortEnough bits }
    requires asked { IfSome bits (λ bits. count ≤ bits + 1) }
    ensures within { IfSome bits (λ bits. count + result ≤ bits + 1) }
    ensures none { result ≡ 0 → IfSome bits (λ bits. bits < count - 1 + 1) × (bits ≢ None) }
{
    match bits {
        Some(bits) => (bits + 1 - count).min(CHUNK as u64) as usize,
        None => CHUNK,
    }
}

/// Takes the next symbols of a stream, and writes and flushes the rows that they complete.
fn follow_next<R: Threads + Sync, K: Sink>(
    rt: &R,
    alloc: Global,
    writer: &mut K,
    stream: &mut SoftStream<'_>,
    symbols: &[u8],
) -> Result<(), RdsError>
    requires { K.failed writer.old < 2 ^ 63 }
    ensures heard { OnOk result (stream.new.symbols ≡ stream.old.symbols ++ symbols.now) }
    ensures terms { stream.new.terms ≡ stream.old.terms }
    ensures rows { OnOk result ((rows : List ℕ)
        × (soft_rows_so_far stream.old.terms (stream.old.symbols ++ symbols.now)
        ≡ soft_rows_so_far stream.old.terms stream.old.symbols ++ rows)
        × Appends (K.contents writer.old) (K.contents writer.new) rows) }
    ensures count { OnOk result (K.failed writer.new ≡ K.failed writer.old) }
    ensures flushed { OnOk result (K.is_flushed writer.new ≡ true) }
    ensures fits { OnOk result (length stream.old.symbols + length symbols.now ≤ 2 ^ 36 + 1) }
    ensures write { IsErrOf result RdsError.Write ↔ (K.failed writer.old < K.failed writer.new) }
    ensures too_long { IsErrOf result RdsError.TooLong
        → 2 ^ 36 + 1 < length stream.old.symbols + length symbols.now }
    ensures kinds { IfErr result (λ error. (error ≡ RdsError.OutOfMemory)
        ⊎ ((error ≡ RdsError.Write) ⊎ (error ≡ RdsError.TooLong))) }
    ensures untouched { IfErr result (λ error. error ≢ RdsError.Write → writer.new ≡ writer.old) }
    ensures prefix { IsErrOf result RdsError.Write → (rows : List ℕ)
        × (soft_rows_so_far stream.old.terms (stream.old.symbols ++ symbols.now)
        ≡ soft_rows_so_far stream.old.terms stream.old.symbols ++ rows)
        × WritesPrefix (K.contents writer.old) (K.contents writer.new) (Ok rows) }
{
    let rows = rows_of_next(rt, alloc, stream, symbols)?;
    write_flushed(writer, rows.as_slice())
}

/// Takes the next symbols of a stream, and makes the rows that they complete.
fn rows_of_next<R: Threads + Sync>(
    rt: &R,
    alloc: Global,
    stream: &mut SoftStream<'_>,
    symbols: &[u8],
) -> Result<Vec<u8>, RdsError>
    ensures heard { OnOk result (stream.new.symbols ≡ stream.old.symbols ++ symbols.now) }
    ensures terms { stream.new.terms ≡ stream.old.terms }
    ensures rows { IfOk result (λ rows. soft_rows_so_far stream.old.terms (stream.old.symbols ++ symbols.now)
        ≡ soft_rows_so_far stream.old.terms stream.old.symbols ++ rows.items) }
    ensures fits { OnOk result (length stream.old.symbols + length symbols.now ≤ 2 ^ 36 + 1) }
    ensures too_long { IsErrOf result RdsError.TooLong
        → 2 ^ 36 + 1 < length stream.old.symbols + length symbols.now }
    ensures kinds { IfErr result (λ error. (error ≡ RdsError.OutOfMemory) ⊎ (error ≡ RdsError.TooLong)) }
{
    let items = stream.take(rt, alloc, symbols)?;
    let mut rows = Vec::new(alloc);
    push_listed(&mut RowWriter::new(), &mut rows, &items)?;
    let _fits = stream.count();
    Ok(rows)
}

/// The rest of the listing of a stream that ends here: the row of the group in progress, if there is one, and those of the totals.
fn rows_of_end(
    alloc: Global,
    stream: SoftStream<'_>,
    bits: Option<u64>,
) -> Result<Vec<u8>, RdsError>
    ensures rows { IfOk result (λ rows. soft_stream_text stream.entry.terms stream.entry.symbols
        ≡ soft_rows_so_far stream.entry.terms stream.entry.symbols ++ rows.items) }
    ensures enough { OnOk result (IsShort bits (length stream.entry.symbols - 1) → ⊥) }
    ensures gaps { OnOk result (AreGaps (length stream.entry.symbols - 1) stream.entry.terms.gaps) }
    ensures fits { OnOk result (length stream.entry.symbols ≤ 2 ^ 36 + 1) }
    ensures past { IsErrOf result RdsError.BitsPastBytes → IsShort bits (length stream.entry.symbols - 1) }
    ensures bad_gaps { IsErrOf result RdsError.BadGaps → (IsShort bits (length stream.entry.symbols - 1) → ⊥)
        × (AreGaps (length stream.entry.symbols - 1) stream.entry.terms.gaps → ⊥) }
    ensures kinds { IfErr result (λ error. (error ≡ RdsError.OutOfMemory)
        ⊎ ((error ≡ RdsError.BitsPastBytes) ⊎ (error ≡ RdsError.BadGaps))) }
{
    if is_short(bits, stream.count()) {
        return Err(RdsError::BitsPastBytes);
    }
    if !stream.may_end() {
        return Err(RdsError::BadGaps);
    }
    let end = stream.finish(alloc)?;
    Ok(rows_to_end(alloc, &end)?)
}

/// Whether this number of symbols has fewer bits between them than are claimed.
fn is_short(bits: Option<u64>, count: u64) -> bool
    ensures { (result ≡ true) ↔ IsShort bits (count - 1) }
{
    match bits {
        Some(bits) => count.saturating_sub(1) < bits,
        None => false,
    }
}

/// The row of the group in progress, if there is one, and those of the totals.
fn rows_to_end(alloc: Global, end: &SoftEnd) -> Result<Vec<u8>, AllocError>
    ensures { IfOk result (λ rows. rows.items ≡ flat_map soft_row (group_item end.now.group) ++ soft_totals_text end.now.totals) }
{
    let mut rows = Vec::new(alloc);
    let mut pen = RowWriter::new();
    let last = whole_list(SoftList::new(alloc), end)?;
    push_listed(&mut pen, &mut rows, &last)?;
    push_soft_totals(&mut pen, &mut rows, &end.totals)?;
    Ok(rows)
}
