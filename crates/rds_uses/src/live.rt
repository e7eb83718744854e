//! Promises to a user of the decoder of a stream.
ghost use Rattle.std.specs.Prelude.{◌≡◌, ◌<◌, ◌≤◌, ◌↔◌, ◌+◌, ◌*◌, ◌/◌, ◌^◌, ◌++◌, [], List, ℕ, Err, IfOk, IsErrOf, IsOkUnless, OnErr, OnOk, length, min, take, vec_capacity};
ghost use Rattle.rds_live.specs.{Moving.moved_state, Next.completed, Next.group_next, Next.items_next, Next.live_next, StreamDecoder.HasHeard, StreamDecoder.complete, StreamDecoder.live_of, StreamDecoder.report_of};
ghost use Rattle.rds_stream.specs.Recording.{AreGaps, length_of};
ghost use Rattle.rds_sync.specs.{Advance.group_item, Counting.plus, Ranges.IsInRange, Step.run, Totals.totals_of, declared.state.State.TheVariants.Searching};

use rds_code::RdsError;
use rds_live::{
    ResumeError, StreamCounter, StreamDecoder, StreamEnd, finish_part, gaps_of_part, laws, run_part,
};
use rds_stream::Recording;
use rds_sync::{Item, Rules, State, Totals};
use std::alloc::{AllocError, Global};
use std::thread::Threads;

/// A decoder of a stream, which has heard nothing yet. Its gaps are refused exactly if no recording may have them, and without gaps only
/// memory can be refused.
pub fn begun<'r>(
    alloc: Global,
    rules: &'r Rules,
    gaps: &'r [(u64, u64)],
) -> Result<StreamDecoder<'r>, RdsError>
    ensures live { IfOk result (λ live. live ≡ live_of (record { rules = rules.now; gaps = gaps.now }) []) }
    ensures bad_gaps { IsErrOf result RdsError.BadGaps ↔ (AreGaps (2 ^ 36) gaps.now → ⊥) }
    ensures gapless { gaps.now ≡ [] → IsOkUnless result RdsError.OutOfMemory }
{
    if gaps.is_empty() {
        return StreamDecoder::new(alloc, rules);
    }
    StreamDecoder::with_gaps(alloc, rules, gaps)
}

/// A decoder made anew of another's numbers, rules and gaps is equal to it. It fails only if memory is refused.
pub fn anew<'r>(
    alloc: Global,
    live: &StreamDecoder<'_>,
    rules: &'r Rules,
    gaps: &'r [(u64, u64)],
) -> Result<StreamDecoder<'r>, ResumeError>
    requires { live.now.terms ≡ record { rules = rules.now; gaps = gaps.now } }
    ensures same { IfOk result (λ again. again ≡ live.now) }
    ensures only_memory { IsOkUnless result ResumeError.OutOfMemory }
{
    StreamDecoder::resume(
        alloc,
        rules,
        gaps,
        live.tail(),
        live.place(),
        live.state(),
        live.totals(),
    )
}

/// As many bytes are heard as there is room for, and their items are told. A chunk past 2^36 bits is refused, and was not heard.
pub fn taken(
    live: &mut StreamDecoder<'_>,
    bytes: &[u8],
    items: &mut Vec<Item>,
) -> Result<usize, RdsError>
    ensures heard { IfOk result (λ count. (before : List ℕ) → HasHeard live.old before
        → HasHeard live.new (before ++ take count bytes.now)) }
    ensures items { IfOk result (λ count. (before : List ℕ) → HasHeard live.old before
        → complete live.old.terms (before ++ take count bytes.now)
        ≡ complete live.old.terms before ++ items.new.items) }
    ensures count { IfOk result (λ count. count ≡ min (length bytes.now) (min 960 (vec_capacity items.old / 16))) }
    ensures refused { OnErr result ((live.new ≡ live.old) × (items.new ≡ items.old)) }
    ensures too_long { IsErrOf result RdsError.TooLong ↔ (2 ^ 36 < live.old.place + 8 * length bytes.now) }
    ensures next { IfOk result (λ count. live.new ≡ live_next live.old (take count bytes.now)) }
    ensures completed { IfOk result (λ count. items.new.items ≡ completed live.old (take count bytes.now)) }
{
    live.take(bytes, items)
}

/// The items of the bytes heard so far, those of the rest, and that of the end are the stream's report.
pub fn take_rest(
    alloc: Global,
    live: StreamDecoder<'_>,
    rest: &[u8],
) -> Result<(Vec<Item>, StreamEnd), RdsError>
    ensures { IfOk result (λ r. (before : List ℕ) → HasHeard live.entry before
        → (complete live.entry.terms before ++ r.0.items ++ group_item r.1.group
        ≡ report_of live.entry.terms (before ++ rest.now))
        × (r.1.totals ≡ totals_of (report_of live.entry.terms (before ++ rest.now)))) }
{
    let mut live = live;
    match live.take_all(alloc, rest) {
        Ok(items) => Ok((items, live.finish())),
        Err(error) => Err(error),
    }
}

/// Bytes in two chunks give the same as at once, whatever numbers the decoder is made of.
pub fn in_two_chunks(
    alloc: Global,
    live: &mut StreamDecoder<'_>,
    first: &[u8],
    second: &[u8],
) -> Result<(Vec<Item>, Vec<Item>), RdsError>
    requires { IsInRange live.old.terms.rules }
    ensures { IfOk result (λ r. (live.new ≡ live_next live.old (first.now ++ second.now))
        × (r.0.items ++ r.1.items ≡ completed live.old (first.now ++ second.now))) }
{
    laws::pieces_join();
    prove!(live.tail().len() <= 30);
    let one = live.take_all(alloc, first)?;
    let other = live.take_all(alloc, second)?;
    Ok((one, other))
}

/// The end of such a stream closes the group in progress that its numbers tell of, and counts it.
pub fn ended(live: StreamDecoder<'_>) -> StreamEnd
    ensures group { group_item result.group ≡ group_next live.entry [] 0 }
    ensures totals { result.totals ≡ plus live.entry.totals (totals_of (group_item result.group)) }
{
    live.finish()
}

/// So does an end inside a byte, after the items that its last bits complete.
pub fn ended_inside(
    live: StreamDecoder<'_>,
    last: &[u8],
    bits: u64,
    items: &mut Vec<Item>,
) -> Result<StreamEnd, RdsError>
    requires held { bits ≤ 8 * length last.now }
    requires few { bits ≤ 7 }
    requires room { 14 ≤ vec_capacity items.old }
    ensures items { OnOk result (items.new.items ≡ items_next live.entry last.now bits) }
    ensures group { IfOk result (λ end. group_item end.group ≡ group_next live.entry last.now bits) }
    ensures totals { IfOk result (λ end. end.totals
        ≡ plus (plus live.entry.totals (totals_of (items_next live.entry last.now bits)))
        (totals_of (group_next live.entry last.now bits))) }
{
    live.finish_with(last, bits, items)
}

/// A decoder that counts from here on, by any number of workers.
pub fn counter_of<'r>(
    alloc: Global,
    live: StreamDecoder<'r>,
    workers: u32,
) -> Result<StreamCounter<'r>, AllocError>
    ensures { IfOk result (λ counter. counter ≡ live.entry) }
{
    StreamCounter::new(alloc, live, workers)
}

/// It hears further bytes. A chunk past 2^36 bits is refused as such, and was not heard.
pub fn counted<R: Threads + Sync>(
    rt: &R,
    alloc: Global,
    counter: &mut StreamCounter<'_>,
    bytes: &[u8],
) -> Result<(), RdsError>
    ensures heard { OnOk result ((before : List ℕ) → HasHeard counter.old before → HasHeard counter.new (before ++ bytes.now)) }
    ensures terms { counter.new.terms ≡ counter.old.terms }
    ensures refused { 2 ^ 36 < counter.old.place + 8 * length bytes.now → (result ≡ Err RdsError.TooLong) × (counter.new ≡ counter.old) }
{
    counter.count(rt, alloc, bytes)
}

/// Its totals are those of the report of all bytes that it heard.
pub fn totals_counted<R: Threads + Sync>(
    rt: &R,
    alloc: Global,
    counter: StreamCounter<'_>,
) -> Totals
    ensures { (heard : List ℕ) → HasHeard counter.entry heard → result ≡ totals_of (report_of counter.entry.terms heard) }
{
    counter.into_decoder(rt, alloc).finish().totals
}

/// A part that begins with the stream is gone over as a recording of its own, from a search on. After a search no group is in progress, and
/// a stream without gaps has none in a part.
pub fn run_from_start(alloc: Global, part: &Recording, rules: &Rules, list: &mut Vec<Item>) -> State
    requires { 2 * length_of part.now ≤ vec_capacity list.old }
    ensures items { list.new.items ≡ (run part.now rules.now Searching 0 (length_of part.now)).1 }
    ensures state { result ≡ moved_state 0 (run part.now rules.now Searching 0 (length_of part.now)).0 }
{
    if let Ok(gaps) = gaps_of_part(alloc, &[], 0, part.len()) {
        prove!(gaps.is_empty());
    }
    let is_none = finish_part(part, 0, rules, State::Searching).is_none();
    prove!(is_none);
    run_part(part, 0, rules, State::Searching, 0, list)
}
