//! A stream that is counted by pieces, each by a thread of its own.
ghost use Rattle.std.specs.{Prelude.◌≡◌, Prelude.◌≤◌, Prelude.◌+◌, Prelude.◌*◌, Prelude.◌^◌, Prelude.length, Thread.IsSync};
ghost use Rattle.rds_live.specs.Next.{IsWithin, live_next};

use crate::StreamDecoder;
use crate::laws::pieces_join;
use std::alloc::Global;
use std::thread::{Threads, join_mut};

/// How many bytes keep a thread busy: one for fewer costs more than it saves.
const SMALLEST: usize = 65_536;

/// How many bytes a guess goes over before it is looked at. Over a sound signal it has the true state long before.
pub(crate) const SEAM: usize = 4_096;

/// The most threads at a time.
const MOST_THREADS: u32 = 256;

/// Has the decoder count all of these bytes, in pieces, by up to this number of threads.
///
/// A piece is counted from a guess: as if nothing was locked at its begin. Once the bytes before it are counted, the decoder goes over
/// its first bytes, too. If it comes into the state that the guess had there, both go on alike: the rest is what the guess counted. Else
/// it goes over the rest by itself.
///
/// Takes memory for each thread, and does without one for which it is refused.
pub(crate) fn count_by<R: Threads + Sync>(
    rt: &R,
    alloc: Global,
    live: &mut StreamDecoder<'_>,
    bytes: &[u8],
    workers: u32,
)
    requires fits { live.old.place + 8 * length bytes.now ≤ 2 ^ 36 }
    ensures next { live.new ≡ live_next live.old bytes.now }
    ensures small { IsWithin (8 * length bytes.now) live.old.totals live.new.totals }
{
    let size = piece_size(bytes.len(), workers, SMALLEST);
    if bytes.len() / 2 < size {
        live.count(bytes);
    } else {
        count_pieces(rt, alloc, live, bytes, size);
    }
}

/// Has the last piece counted by a thread, and those before it in the same way. The calling thread only starts threads and waits: until
/// it waits, a system may leave the first of them on the same processor.
#[cycle(counted_pieces)]
fn count_pieces<R: Threads + Sync>(
    rt: &R,
    alloc: Global,
    live: &mut StreamDecoder<'_>,
    bytes: &[u8],
    size: usize,
)
    requires size { 4096 ≤ size }
    requires fits { live.old.place + 8 * length bytes.now ≤ 2 ^ 36 }
    ensures next { live.new ≡ live_next live.old bytes.now }
    ensures small { IsWithin (8 * length bytes.now) live.old.totals live.new.totals }
{
    if bytes.len() / 2 < size {
        count_apart(rt, live, bytes);
        return;
    }
    pieces_join();
    let (front, back) = bytes.split_at(bytes.len() - size);
    let (seam, rest) = back.split_at(SEAM);
    live.is_known();
    let Ok(mut guess) = live.guess_after(alloc, front, seam) else {
        live.count(bytes);
        return;
    };
    let mark = guess.state();
    count_both(rt, alloc, live, front, &mut guess, rest, size);
    live.is_known();
    live.sew(seam, rest, mark, guess);
}

/// Has the decoder count these bytes in pieces, and the guess those.
#[cycle(counted_pieces)]
fn count_both<R: Threads + Sync>(
    rt: &R,
    alloc: Global,
    live: &mut StreamDecoder<'_>,
    front: &[u8],
    guess: &mut StreamDecoder<'_>,
    rest: &[u8],
    size: usize,
)
    requires size { 4096 ≤ size }
    requires front { live.old.place + 8 * length front.now ≤ 2 ^ 36 }
    requires rest { guess.old.place + 8 * length rest.now ≤ 2 ^ 36 }
    ensures front { live.new ≡ live_next live.old front.now }
    ensures rest { guess.new ≡ live_next guess.old rest.now }
    ensures small_front { IsWithin (8 * length front.now) live.old.totals live.new.totals }
    ensures small_rest { IsWithin (8 * length rest.now) guess.old.totals guess.new.totals }
{
    let mut last = ||
        requires { guess.now.place + 8 * length rest.now ≤ 2 ^ 36 }
        ensures next { guess.exit.now ≡ live_next guess.entry.now rest.entry.now }
        ensures small { IsWithin (8 * length rest.entry.now) guess.entry.now.totals guess.exit.now.totals }
    { guess.count(rest) };
    let mut before = ||
        requires { IsSync R.row × (4096 ≤ size) × (live.now.place + 8 * length front.now ≤ 2 ^ 36) }
        ensures next { live.exit.now ≡ live_next live.entry.now front.entry.now }
        ensures small { IsWithin (8 * length front.entry.now) live.entry.now.totals live.exit.now.totals }
    { count_pieces(rt, alloc, live, front, size) };
    join_mut(rt, &mut last, &mut before);
}

/// Has these bytes counted by a thread of their own.
fn count_apart<R: Threads + Sync>(rt: &R, live: &mut StreamDecoder<'_>, bytes: &[u8])
    requires fits { live.old.place + 8 * length bytes.now ≤ 2 ^ 36 }
    ensures next { live.new ≡ live_next live.old bytes.now }
    ensures small { IsWithin (8 * length bytes.now) live.old.totals live.new.totals }
{
    let mut all = ||
        requires { live.now.place + 8 * length bytes.now ≤ 2 ^ 36 }
        ensures next { live.exit.now ≡ live_next live.entry.now bytes.entry.now }
        ensures small { IsWithin (8 * length bytes.entry.now) live.entry.now.totals live.exit.now.totals }
    { live.count(bytes) };
    join_mut(rt, &mut all, &mut || {});
}

/// How many of `len` bytes each of the workers takes: no fewer than `least`.
pub(crate) fn piece_size(len: usize, workers: u32, least: usize) -> usize
    ensures { least ≤ result }
{
    let threads = workers.clamp(1, MOST_THREADS) as usize;
    (len / threads).max(least)
}
