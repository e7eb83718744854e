//! A recording that is handed over whole.

ghost use Rattle.std.specs.Prelude.{◌≡◌, ◌≢◌, length};
ghost use Rattle.rds_abi.specs.Asked.{IsFilled, IsLawful, RefusedBy, Refuses, RefusesItems, asked, items_asked, totals_asked};

use rds_abi::{RdsGap, RdsItem, RdsRules, RdsTotals, items, totals};
use std::alloc::Global;

/// Writes the totals of the first `bits` bits of these bytes, and returns 0, or the number of a refusal.
#[unsafe(no_mangle)]
pub extern "C" fn rds_totals(
    alloc: Global,
    bytes: &[u8],
    bits: u64,
    gaps: &[RdsGap],
    rules: &RdsRules,
    found: &mut RdsTotals,
) -> u8
    ensures found { result ≡ 0 → found.new ≡ totals_asked (asked bytes.now bits gaps.now rules.now) }
    ensures lawful { result ≡ 0 → IsLawful (asked bytes.now bits gaps.now rules.now) }
    ensures refused { result ≢ 0 → RefusedBy (Refuses (asked bytes.now bits gaps.now rules.now)) result }
    ensures untouched { result ≢ 0 → found.new ≡ found.old }
{
    match totals(alloc, bytes, bits, gaps, *rules) {
        Ok(totals) => {
            *found = totals;
            0
        }
        Err(refusal) => refusal.number(),
    }
}

/// Writes the items of the first `bits` bits of these bytes to the beginning of `room`, and how many they are to `count`,
/// and returns 0, or the number of a refusal. After that of `SmallRoom` only `count` was written.
#[unsafe(no_mangle)]
pub extern "C" fn rds_items(
    alloc: Global,
    bytes: &[u8],
    bits: u64,
    gaps: &[RdsGap],
    rules: &RdsRules,
    room: &mut [RdsItem],
    count: &mut u64,
) -> u8
    ensures filled { result ≡ 0 → IsFilled (items_asked (asked bytes.now bits gaps.now rules.now)) room.old room.new }
    ensures count { result ≡ 0 → count.new ≡ length (items_asked (asked bytes.now bits gaps.now rules.now)) }
    ensures lawful { result ≡ 0 → IsLawful (asked bytes.now bits gaps.now rules.now) }
    ensures refused { result ≢ 0 → RefusedBy
        (RefusesItems (asked bytes.now bits gaps.now rules.now) (length room.old) count.old count.new) result }
    ensures untouched { result ≢ 0 → room.new ≡ room.old }
{
    match items(alloc, bytes, bits, gaps, *rules, room, count) {
        Ok(()) => 0,
        Err(refusal) => refusal.number(),
    }
}
