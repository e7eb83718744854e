//! All rows of a list, written.
ghost use Rattle.std.specs.Prelude.{◌*◌, ◌<◌, ◌^◌, ◌≡◌, ◌≤◌, IfOk, length};
ghost use Rattle.std.specs.List.{concat};
ghost use Rattle.rds_rows.specs.{Parts.part_of, Written.IsWritten};

use crate::error::RowsError;
use crate::gathered::Gathered;
use crate::handoff::Handoff;
use crate::owned_sink::{Lent, OwnedSink};
use crate::rounds::{Caller, Rounds};
use crate::rows::Rows;
use crate::sink::{Failed, Sink};
use crate::slot::{PartSpec, Slot};
use std::alloc::{AllocError, Global};
use std::marker::Brand;
use std::sync::atomic::AtomicUsize;
use std::thread::Threads;

/// For how many parts there are seats for each worker but the caller, and how many seats there are at most,
/// unless that is fewer than two for each.
const SEATS: usize = 8;

const MOST_SEATS: usize = 64;

/// Writes all rows in order, in parts of `most` rows. They are made by as many workers as there are parts, but
/// at most `workers`, part by part while others are written. The caller is one worker, which writes too; each
/// other gets a thread, and if the system starts none, the caller makes all parts. Each worker has room for a
/// part, and so has each seat, where parts wait to be written. The text is gathered to large writes.
///
/// `OutOfMemory` comes before the first byte, and before the first thread is started: the writer is as it
/// was. `Write` comes if a write failed; the text that was written is a beginning of the rows' text. There
/// is no other refusal. Each promise is a field of `IsWritten` (`specs/Written.antt`). It returns if the
/// calls of the rows and of the writer do: the bounds of `R` allow no wait.
pub fn write_rows<R: Threads + Sync, T: Rows + Sync, K: Sink>(
    rt: &R,
    alloc: Global,
    rows: &T,
    workers: u32,
    most: usize,
    writer: &mut K,
) -> Result<(), RowsError>
    requires some { 0 < workers }
    requires few { workers ≤ 256 }
    requires rows { 0 < most }
    requires count { K.failed writer.old < 2 ^ 63 }
    ensures { IsWritten K.contents K.failed (concat (T.rows rows.now)) writer.old writer.new result }
{
    // No sheet has room for more rows than there are.
    let most = most.min(rows.len()).max(1);
    let parts = rows.len().div_ceil(most);
    let others = parts.min(workers as usize).saturating_sub(1);
    let seats = (SEATS * others)
        .min(MOST_SEATS)
        .max(2 * others)
        .min(parts)
        .max(1);
    let (lent, result) = by_value(rt, alloc, rows, most, parts, seats, others, Lent { writer });
    let Lent { writer: back } = lent;
    take_back(back);
    result
}

/// Ends a loan: the lender then has the value that the returned reference points to.
fn take_back<K>(lent: &mut K)
    ensures { lent.new ≡ lent.old }
{
    let _ = lent;
}

/// The rows, written to a writer that is handed in and back. The types of the seats' locks name the parts:
/// they are picked here, where rows and sheets are known.
fn by_value<R: Threads + Sync, T: Rows + Sync, W: OwnedSink + Drop>(
    rt: &R,
    alloc: Global,
    rows: &T,
    most: usize,
    parts: usize,
    seats: usize,
    others: usize,
    out: W,
) -> (W, Result<(), RowsError>)
    requires some { 0 < seats }
    requires parts { length (T.rows rows.now) ≤ parts * most }
    requires count { W.failed out < 2 ^ 63 }
    ensures name { W.name result.0 ≡ W.name out }
    ensures written { IsWritten W.contents W.failed (concat (T.rows rows.now)) out result.0 result.1 }
{
    write_by_seats::<R, Brand, T, W>(rt, alloc, rows, most, parts, seats, others, out)
}

/// The rows, made by the caller and as many others, and written with this number of seats.
fn write_by_seats<
    R: Threads + Sync,
    J: PartSpec + Send + Sync,
    T: Rows + Sync,
    W: OwnedSink + Drop,
>(
    rt: &R,
    alloc: Global,
    rows: &T,
    most: usize,
    parts: usize,
    seats: usize,
    others: usize,
    out: W,
) -> (W, Result<(), RowsError>)
    requires size { J.size ≡ (most, T.longest rows.now) }
    requires part { J.part ≡ part_of (T.rows rows.now) most }
    requires some { 0 < seats }
    requires parts { length (T.rows rows.now) ≤ parts * most }
    requires count { W.failed out < 2 ^ 63 }
    ensures name { W.name result.0 ≡ W.name out }
    ensures written { IsWritten W.contents W.failed (concat (T.rows rows.now)) out result.0 result.1 }
{
    let longest = rows.longest_row();
    let (Ok(seats), Ok(sheets), Ok(mine), Ok(spare), Ok(gathered)) = (
        seats_of::<J>(alloc, seats, most, longest),
        slots_of::<J>(alloc, others, most, longest),
        Slot::<J>::new(alloc, most, longest),
        Slot::<J>::new(alloc, most, longest),
        Gathered::new(alloc, most, longest),
    ) else {
        return (out, Err(RowsError::OutOfMemory));
    };
    let rounds = Rounds {
        rows,
        seats,
        parts,
        next: AtomicUsize::new(0),
    };
    let caller = Caller {
        mine,
        spare,
        gathered,
        out,
    };
    match rounds.write(rt, sheets, caller) {
        (out, Ok(())) => (out, Ok(())),
        (out, Err(Failed)) => (out, Err(RowsError::Write)),
    }
}

/// This many slots with blank sheets.
fn slots_of<J: PartSpec>(
    alloc: Global,
    count: usize,
    most: usize,
    longest: usize,
) -> Result<Vec<Slot<J>>, AllocError>
    requires { J.size ≡ (most, longest) }
{
    let mut slots = Vec::with_capacity(alloc, count)?;
    for _ in 0..count {
        slots.push_reserved(Slot::new(alloc, most, longest)?);
    }
    Ok(slots)
}

/// This many seats with blank sheets.
fn seats_of<J: PartSpec>(
    alloc: Global,
    count: usize,
    most: usize,
    longest: usize,
) -> Result<Vec<Handoff<J>>, AllocError>
    requires { J.size ≡ (most, longest) }
    ensures { IfOk result (λ seats. length seats.items ≡ count) }
{
    let mut seats = Vec::with_capacity(alloc, count)?;
    for _ in 0..count {
        seats.push_reserved(Handoff::new(Slot::new(alloc, most, longest)?));
    }
    Ok(seats)
}
