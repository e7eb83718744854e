//! A recording that is handed over whole.

ghost use Rattle.std.specs.Prelude.{◌≡◌, ◌<◌, ◌≤◌, IfErr, IfOk, OnErr, OnOk, length, map};
ghost use Rattle.rds_abi.specs.{Asked.IsFilled, Asked.IsLawful, Asked.IsTooMuch, Asked.Refuses, Asked.RefusesItems, Asked.asked, Asked.items_asked, Asked.totals_asked, Layout.item_in_c};

use crate::asked::{Input, input_of};
use crate::in_c::{item_in_c, totals_in_c};
use crate::layout::{RdsGap, RdsItem, RdsRules, RdsTotals};
use crate::refusal::Refusal;
use rds_sync::{ItemIter, Items, decode_plain};
use std::alloc::Global;

/// The totals of the first `bits` bits of these bytes, the highest bit of a byte first, with these gaps, by these rules.
///
/// Refuses rules out of their range, then a recording that is too long, or longer than the bytes, or whose gaps are none. Otherwise it
/// fails only if memory is refused. It takes memory for a copy of the bytes and for the parts of a report that are kept.
pub fn totals(
    alloc: Global,
    bytes: &[u8],
    bits: u64,
    gaps: &[RdsGap],
    rules: RdsRules,
) -> Result<RdsTotals, Refusal>
    ensures found { IfOk result (λ totals. totals ≡ totals_asked (asked bytes.now bits gaps.now rules)) }
    ensures lawful { IfOk result (λ _. IsLawful (asked bytes.now bits gaps.now rules)) }
    ensures refused { IfErr result (Refuses (asked bytes.now bits gaps.now rules)) }
{
    let input = input_of(alloc, bytes, bits, gaps, rules)?;
    match decode_plain(alloc, &input.recording, &input.rules) {
        Ok(report) => Ok(totals_in_c(report.totals)),
        Err(_) => Err(Refusal::OutOfMemory),
    }
}

/// Writes the items of the first `bits` bits of these bytes to the beginning of `room`, in order, and how many they are to `count`.
///
/// Refuses as [`totals`] does, and then `SmallRoom` if they are more than there is room for: `count` tells
/// how many, and nothing else was written. It takes memory as [`totals`] does.
pub fn items(
    alloc: Global,
    bytes: &[u8],
    bits: u64,
    gaps: &[RdsGap],
    rules: RdsRules,
    room: &mut [RdsItem],
    count: &mut u64,
) -> Result<(), Refusal>
    ensures filled { OnOk result (IsFilled (items_asked (asked bytes.now bits gaps.now rules)) room.old room.new) }
    ensures count { OnOk result (count.new ≡ length (items_asked (asked bytes.now bits gaps.now rules))) }
    ensures lawful { OnOk result (IsLawful (asked bytes.now bits gaps.now rules)) }
    ensures room { OnErr result (room.new ≡ room.old) }
    ensures refused { IfErr result
        (RefusesItems (asked bytes.now bits gaps.now rules) (length room.old) count.old count.new) }
{
    let input = input_of(alloc, bytes, bits, gaps, rules)?;
    match decode_plain(alloc, &input.recording, &input.rules) {
        Ok(report) => write_items(room, &report.items, &input, count),
        Err(_) => Err(Refusal::OutOfMemory),
    }
}

/// Writes the items of a report to the beginning of the room, and how many they are to the count.
fn write_items(
    room: &mut [RdsItem],
    items: &Items,
    input: &Input,
    count: &mut u64,
) -> Result<(), Refusal>
    requires source { items.now.source ≡ input.now.recording }
    requires rules { items.now.rules ≡ input.now.rules }
    ensures filled { OnOk result (IsFilled (map item_in_c items.now.list) room.old room.new) }
    ensures count { OnOk result (count.new ≡ length items.now.list) }
    ensures room { OnErr result (room.new ≡ room.old) }
    ensures refused { IfErr result
        (λ refusal. IsTooMuch (map item_in_c items.now.list) (length room.old) refusal count.new) }
{
    *count = items.len() as u64;
    if room.len() < items.len() {
        return Err(Refusal::SmallRoom);
    }
    fill(room, items.iter(&input.recording, &input.rules));
    Ok(())
}

/// Writes these items to the beginning of the room.
pub(crate) fn fill(room: &mut [RdsItem], items: ItemIter<'_>)
    requires { length items ≤ length room.old }
    ensures { IsFilled (map item_in_c items.entry) room.old room.new }
{
    let mut at = 0;
    for item in items {
        room[at] = item_in_c(item);
        at += 1;
    }
}
