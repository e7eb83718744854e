//! A stream that is listed by pieces, each by a thread of its own.
ghost use Rattle.std.specs.{Prelude.◌≡◌, Prelude.◌≤◌, Prelude.◌+◌, Prelude.◌*◌, Prelude.◌^◌, Prelude.IfOk, Prelude.length, Thread.IsSync};
ghost use Rattle.rds_live.specs.Listing.{IsListed};

use crate::StreamLister;
use crate::counted_pieces::{SEAM, piece_size};
use crate::item_rows::ItemRows;
use crate::laws::pieces_join;
use std::alloc::{AllocError, Global};
use std::thread::{Threads, join};

/// How many bytes keep a thread busy that lists them.
const SMALLEST: usize = 16_384;

/// Has these bytes listed by up to this number of threads, in pieces as [`count_by`](crate::counted_pieces::count_by) has them counted.
///
/// Takes memory for each thread, and does without one for which it is refused.
pub(crate) fn list_by<'r, R: Threads + Sync, T: ItemRows>(
    rt: &R,
    alloc: Global,
    lister: StreamLister<'r, T>,
    bytes: &[u8],
    workers: u32,
) -> Result<StreamLister<'r, T>, AllocError>
    requires { lister.live.place + 8 * length bytes.now ≤ 2 ^ 36 }
    ensures { IfOk result (IsListed T.row_of lister.entry bytes.now) }
{
    let size = piece_size(bytes.len(), workers, SMALLEST);
    if bytes.len() / 2 < size {
        lister.list_alone(bytes)
    } else {
        list_pieces(rt, alloc, lister, bytes, size)
    }
}

/// Has the last piece listed by a thread, and those before it in the same way, while the calling thread waits.
#[cycle(listed_pieces)]
fn list_pieces<'r, R: Threads + Sync, T: ItemRows>(
    rt: &R,
    alloc: Global,
    lister: StreamLister<'r, T>,
    bytes: &[u8],
    size: usize,
) -> Result<StreamLister<'r, T>, AllocError>
    requires size { 4096 ≤ size }
    requires fits { lister.live.place + 8 * length bytes.now ≤ 2 ^ 36 }
    ensures { IfOk result (IsListed T.row_of lister.entry bytes.now) }
{
    if bytes.len() / 2 < size {
        return list_apart(rt, lister, bytes);
    }
    pieces_join();
    let (front, back) = bytes.split_at(bytes.len() - size);
    let (seam, rest) = back.split_at(SEAM);
    lister.is_known();
    let Ok(guess) = lister.guess_after(alloc, front, seam) else {
        return lister.list_alone(bytes);
    };
    let mark = guess.state();
    let (lister, guess) = list_both(rt, alloc, lister, front, guess, rest, size)?;
    lister.is_known();
    lister.sew(seam, rest, mark, guess)
}

/// Has these bytes listed in pieces, and those by the guess.
#[cycle(listed_pieces)]
fn list_both<'r, R: Threads + Sync, T: ItemRows>(
    rt: &R,
    alloc: Global,
    lister: StreamLister<'r, T>,
    front: &[u8],
    guess: StreamLister<'r, T>,
    rest: &[u8],
    size: usize,
) -> Result<(StreamLister<'r, T>, StreamLister<'r, T>), AllocError>
    requires size { 4096 ≤ size }
    requires front { lister.live.place + 8 * length front.now ≤ 2 ^ 36 }
    requires rest { guess.live.place + 8 * length rest.now ≤ 2 ^ 36 }
    ensures front { IfOk result (λ both. IsListed T.row_of lister.entry front.now both.0) }
    ensures rest { IfOk result (λ both. IsListed T.row_of guess.entry rest.now both.1) }
{
    let last = move ||
        requires { guess.live.place + 8 * length rest.now ≤ 2 ^ 36 }
        ensures { IfOk result (IsListed T.row_of guess.entry rest.entry.now) }
    { guess.list_alone(rest) };
    let before = move ||
        requires { IsSync R.row × (4096 ≤ size) × (lister.live.place + 8 * length front.now ≤ 2 ^ 36) }
        ensures { IfOk result (IsListed T.row_of lister.entry front.entry.now) }
    { list_pieces(rt, alloc, lister, front, size) };
    let (guess, lister) = join(rt, last, before);
    Ok((lister?, guess?))
}

/// Has these bytes listed by a thread of their own.
fn list_apart<'r, R: Threads + Sync, T: ItemRows>(
    rt: &R,
    lister: StreamLister<'r, T>,
    bytes: &[u8],
) -> Result<StreamLister<'r, T>, AllocError>
    requires { lister.live.place + 8 * length bytes.now ≤ 2 ^ 36 }
    ensures { IfOk result (IsListed T.row_of lister.entry bytes.now) }
{
    let all = move ||
        requires { lister.live.place + 8 * length bytes.now ≤ 2 ^ 36 }
        ensures { IfOk result (IsListed T.row_of lister.entry bytes.entry.now) }
    { lister.list_alone(bytes) };
    let (lister, ()) = join(rt, all, || {});
    lister
}
