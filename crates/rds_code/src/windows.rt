//! How a window is read as a block.
ghost use Rattle.std.specs.Prelude.{◌≡◌, ◌^◌, ◌<◌, ◌≤◌, [], ◌∷◌, bit_xor, IfSome, None, Some};
ghost use Rattle.rds_code.specs.{declared.offset.Offset.TheVariants.C, declared.offset.Offset.TheVariants.Cx, Remainder.rem, Offsets.number as number_of, Offsets.offset_of as the_offset_of, Reading.information, Reading.IsReading, Reading.corrections, Reading.by_only, Reading.corrected as the_corrected, Reading.reading};

use crate::block_number::BlockNumber;
use crate::burst::Burst;
use crate::burst_limit::BurstLimit;
use crate::burst_table::BurstTable;
use crate::offset::{Offset, offset_of};
use crate::reading::{Reading, Wanted};
use crate::remainder::rem26;

/// Reads the window `w`, a word of 26 bits, as block `number`, and corrects a burst within `limit`.
///
/// The window is valid if its remainder is an offset word of that number, whatever is wanted. Else it is
/// corrected if exactly one pair of a wanted offset and a burst fits, and else lost: this project's rule.
// In line: a valid block then stays in registers, and is not stored and loaded again when it is kept.
#[inline(always)]
pub fn read_block(
    table: &BurstTable,
    w: u32,
    number: BlockNumber,
    wanted: Wanted,
    limit: BurstLimit,
) -> Reading
    requires block { w < 2 ^ 26 }
    ensures value { result ≡ reading w number wanted limit }
    ensures rule { IsReading w number wanted limit result }
{
    prove!(number.get() <= 4 && limit.bits() <= 5);
    let remainder = rem26(w);
    if let Some(offset) = own_offset(remainder, number) {
        return Reading::Valid {
            offset,
            info: (w >> 10) as u16,
        };
    }
    correct_window(table, w, remainder, number, wanted, limit)
}

/// The offset of block `number` whose word is `remainder`.
fn own_offset(remainder: u16, number: BlockNumber) -> Option<Offset>
    ensures offset { IfSome result (λ o. the_offset_of remainder ≡ Some o) }
    ensures own { IfSome result (λ o. number_of o ≡ number) }
    ensures none { result ≡ None → (o : Offset) → the_offset_of remainder ≡ Some o
        → number_of o ≡ number → ⊥ }
{
    match offset_of(remainder) {
        Some(offset) if offset.number() == number => Some(offset),
        _ => None,
    }
}

/// The window corrected as block `number`.
#[cold]
fn correct_window(
    table: &BurstTable,
    w: u32,
    remainder: u16,
    number: BlockNumber,
    wanted: Wanted,
    limit: BurstLimit,
) -> Reading
    requires block { w < 2 ^ 26 }
    requires of_window { remainder ≡ rem w }
    ensures { result ≡ the_corrected w number wanted limit }
{
    match (number.get(), wanted) {
        (1, _) => corrected_to(table, w, remainder, Offset::A, limit),
        (2, _) => corrected_to(table, w, remainder, Offset::B, limit),
        (4, _) => corrected_to(table, w, remainder, Offset::D, limit),
        (_, Wanted::OnlyC) => corrected_to(table, w, remainder, Offset::C, limit),
        (_, Wanted::OnlyCx) => corrected_to(table, w, remainder, Offset::Cx, limit),
        (_, Wanted::Either) => corrected_to_either(table, w, remainder, limit),
    }
}

/// The window corrected to a block with `offset`.
fn corrected_to(
    table: &BurstTable,
    w: u32,
    remainder: u16,
    offset: Offset,
    limit: BurstLimit,
) -> Reading
    requires block { w < 2 ^ 26 }
    requires of_window { remainder ≡ rem w }
    ensures { result ≡ by_only w (corrections (offset ∷ []) limit w) }
{
    match table.find(remainder ^ offset.word(), limit) {
        Some(burst) => without(w, offset, burst),
        None => Reading::Lost,
    }
}

/// The window corrected to block 3 of either version, if exactly one fits.
fn corrected_to_either(table: &BurstTable, w: u32, remainder: u16, limit: BurstLimit) -> Reading
    requires block { w < 2 ^ 26 }
    requires of_window { remainder ≡ rem w }
    ensures { result ≡ by_only w (corrections (C ∷ Cx ∷ []) limit w) }
{
    let version_a = table.find(remainder ^ Offset::C.word(), limit);
    let version_b = table.find(remainder ^ Offset::Cx.word(), limit);
    match (version_a, version_b) {
        (Some(burst), None) => without(w, Offset::C, burst),
        (None, Some(burst)) => without(w, Offset::Cx, burst),
        (None, None) => Reading::Lost,
        (Some(_), Some(_)) => Reading::Lost,
    }
}

/// The window without the burst.
fn without(w: u32, offset: Offset, burst: Burst) -> Reading
    requires { w < 2 ^ 26 }
    ensures { result ≡ Reading.Corrected offset (information (bit_xor w burst)) burst }
{
    Reading::Corrected {
        offset,
        info: ((w ^ burst.pattern()) >> 10) as u16,
        burst,
    }
}
