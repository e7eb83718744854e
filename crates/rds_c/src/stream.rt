//! A stream that is followed chunk by chunk.

ghost use Rattle.std.specs.Prelude.{◌≡◌, ◌≢◌, ◌≤◌, ◌*◌, ◌^◌, length, map, take};
ghost use Rattle.rds_abi.specs.Stream.{AreClosed, AreCompleted, AreLast, AreLeft, AreTotals, AreTotalsAt, AreWritten, GoesOn, HearsOn, IsFollowed, IsLaid, IsMostTaken, RefusesClosed, RefusesFollowed, RefusesLeft, RefusesTaken, items_after, place_after, stream_of, terms_of};
ghost use Rattle.rds_abi.specs.{Asked.IsFilled, Asked.RefusedBy, Refusals.number_of, declared.refusal.Refusal.TheVariants.SmallRoom, Layout.item_in_c};

use rds_abi::{RdsGap, RdsItem, RdsRules, RdsStream, RdsTotals, check, finish, finish_with, push};
use std::alloc::Global;

/// Takes as many of the next bytes of a stream as there is room for the items that they complete. It writes these to the beginning of
/// `room`, how many they are to `count`, how many bytes it took to `taken`, and the stream after them to `stream`. It returns 0, or the
/// number of a refusal. After that of `SmallRoom`, if the items of the first byte do not fit, only `count` was written.
#[unsafe(no_mangle)]
pub extern "C" fn rds_push(
    alloc: Global,
    bytes: &[u8],
    gaps: &[RdsGap],
    rules: &RdsRules,
    stream: &mut RdsStream,
    room: &mut [RdsItem],
    taken: &mut u64,
    count: &mut u64,
) -> u8
    ensures heard { result ≡ 0
        → HearsOn (terms_of rules.now gaps.now) stream.old stream.new (take taken.new bytes.now) }
    ensures laid { result ≡ 0 → IsLaid (terms_of rules.now gaps.now) stream.new }
    ensures items { result ≡ 0
        → AreWritten (AreCompleted (terms_of rules.now gaps.now) stream.old (take taken.new bytes.now)) room.old room.new count.new }
    ensures most { result ≡ 0
        → IsMostTaken (stream_of (terms_of rules.now gaps.now) stream.old) bytes.now (length room.old) taken.new }
    ensures few { result ≡ 0 → count.new ≤ 16 * taken.new }
    ensures next { result ≡ 0 → IsFollowed rules.now gaps.now stream.new }
    ensures lawful { result ≡ 0
        → IsFollowed rules.now gaps.now stream.old × (place_after stream.old bytes.now ≤ 2 ^ 36) }
    ensures refused { result ≢ 0 → RefusedBy
        (RefusesTaken rules.now gaps.now stream.old bytes.now (length room.old) count.old count.new) result }
    ensures roomy { 16 ≤ length room.old → result ≢ number_of SmallRoom }
    ensures untouched { result ≢ 0 → (room.new ≡ room.old) × (stream.new ≡ stream.old) × (taken.new ≡ taken.old) }

    // The same of numbers that are lawful and of no stream.
    ensures after { result ≡ 0
        → GoesOn (terms_of rules.now gaps.now) stream.old stream.new (take taken.new bytes.now) }
    ensures filled { result ≡ 0
        → IsFilled (map item_in_c (items_after (terms_of rules.now gaps.now) stream.old (take taken.new bytes.now))) room.old room.new }
    ensures count { result ≡ 0
        → count.new ≡ length (items_after (terms_of rules.now gaps.now) stream.old (take taken.new bytes.now)) }
{
    match push(alloc, bytes, gaps, *rules, stream, room, taken, count) {
        Ok(()) => 0,
        Err(refusal) => refusal.number(),
    }
}

/// Ends a stream: writes the group in progress to the beginning of `room`, to `count` how many groups these are, one or
/// none, and to `totals` those of the report of all that was heard, and returns 0, or the number of a refusal. After that
/// of `SmallRoom` only `count` was written.
#[unsafe(no_mangle)]
pub extern "C" fn rds_finish(
    alloc: Global,
    gaps: &[RdsGap],
    rules: &RdsRules,
    stream: &RdsStream,
    room: &mut [RdsItem],
    count: &mut u64,
    totals: &mut RdsTotals,
) -> u8
    ensures items { result ≡ 0
        → AreWritten (AreClosed (terms_of rules.now gaps.now) stream.now) room.old room.new count.new }
    ensures totals { result ≡ 0 → AreTotals (terms_of rules.now gaps.now) stream.now totals.new }
    ensures lawful { result ≡ 0 → IsFollowed rules.now gaps.now stream.now }
    ensures refused { result ≢ 0
        → RefusedBy (RefusesClosed rules.now gaps.now stream.now (length room.old) count.old count.new) result }
    ensures untouched { result ≢ 0 → (room.new ≡ room.old) × (totals.new ≡ totals.old) }
{
    match finish(alloc, gaps, *rules, stream, room, count, totals) {
        Ok(()) => 0,
        Err(refusal) => refusal.number(),
    }
}

/// Ends a stream with the first `bits` bits of these bytes. It writes the items that they complete to the beginning of `room`, and after
/// them the group in progress, and to `count` how many these are. It writes to `totals` those of the report of all that was heard and of
/// these bits. It returns 0, or the number of a refusal. After that of `SmallRoom` only `count` was written.
#[unsafe(no_mangle)]
pub extern "C" fn rds_finish_with(
    alloc: Global,
    bytes: &[u8],
    bits: u64,
    gaps: &[RdsGap],
    rules: &RdsRules,
    stream: &RdsStream,
    room: &mut [RdsItem],
    count: &mut u64,
    totals: &mut RdsTotals,
) -> u8
    ensures items { result ≡ 0
        → AreWritten (AreLeft (terms_of rules.now gaps.now) stream.now bytes.now bits) room.old room.new count.new }
    ensures totals { result ≡ 0 → AreTotalsAt (terms_of rules.now gaps.now) stream.now bytes.now bits totals.new }
    ensures lawful { result ≡ 0 → IsFollowed rules.now gaps.now stream.now × AreLast stream.now bytes.now bits }
    ensures refused { result ≢ 0 → RefusedBy
        (RefusesLeft rules.now gaps.now stream.now bytes.now bits (length room.old) count.old count.new) result }
    ensures untouched { result ≢ 0 → (room.new ≡ room.old) × (totals.new ≡ totals.old) }
{
    let rules = *rules;
    match finish_with(alloc, bytes, bits, gaps, rules, stream, room, count, totals) {
        Ok(()) => 0,
        Err(refusal) => refusal.number(),
    }
}

/// Returns 0 if a stream can be continued by these rules and gaps, or else the number of a refusal.
#[unsafe(no_mangle)]
pub extern "C" fn rds_check(
    alloc: Global,
    gaps: &[RdsGap],
    rules: &RdsRules,
    stream: &RdsStream,
) -> u8
    ensures lawful { result ≡ 0 → IsFollowed rules.now gaps.now stream.now }
    ensures refused { result ≢ 0 → RefusedBy (RefusesFollowed rules.now gaps.now stream.now) result }
{
    match check(alloc, gaps, *rules, stream) {
        Ok(()) => 0,
        Err(refusal) => refusal.number(),
    }
}
