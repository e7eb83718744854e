//! Items, blocks and totals, laid out for C.

ghost use Rattle.std.specs.Prelude.{◌≡◌};
ghost use Rattle.rds_abi.specs.Layout.{block_in_c, group_in_c, item_in_c, kind_in_c, mark_in_c, offset_in_c, reading_in_c, soft_block_in_c, soft_item_in_c, soft_reading_in_c, totals_in_c, version_in_c};

use crate::layout::{RdsBlock, RdsItem, RdsTotals};
use rds_code::{Offset, Reading};
use rds_soft::{SoftBlock, SoftItem, SoftReading, mask_of};
use rds_sync::{Block, Item, Totals, Version};

/// Totals, for C.
pub(crate) fn totals_in_c(totals: Totals) -> RdsTotals
    ensures { result ≡ totals_in_c totals }
{
    let bursts = totals.bursts;
    RdsTotals {
        valid: totals.valid,
        bursts,
        lost: totals.lost,
        bits: totals.bits,
        groups: totals.groups,
        complete: totals.complete,
        acquired: totals.acquired,
        losses: totals.losses,
        reserved: [0; 4],
    }
}

/// An offset, for C.
fn offset_in_c(offset: Offset) -> u8
    ensures { result ≡ offset_in_c offset }
{
    match offset {
        Offset::A => 1,
        Offset::B => 2,
        Offset::C => 3,
        Offset::Cx => 4,
        Offset::D => 5,
    }
}

/// A reading, for C.
pub(crate) fn reading_in_c(reading: Reading) -> RdsBlock
    ensures { result ≡ reading_in_c reading }
{
    match reading {
        Reading::Lost => RdsBlock {
            kind: 1,
            ..RdsBlock::MISSING
        },
        Reading::Valid { offset, info } => RdsBlock {
            burst: 0,
            info,
            kind: 2,
            offset: offset_in_c(offset),
        },
        Reading::Corrected {
            offset,
            info,
            burst,
        } => RdsBlock {
            burst: burst.pattern(),
            info,
            kind: 3,
            offset: offset_in_c(offset),
        },
    }
}

/// A block, for C.
fn block_in_c(block: Block) -> RdsBlock
    ensures { result ≡ block_in_c block }
{
    match block {
        Block::Missing => RdsBlock::MISSING,
        Block::Read(reading) => reading_in_c(reading),
    }
}

/// A version, for C.
fn version_in_c(version: Version) -> u8
    ensures { result ≡ version_in_c version }
{
    match version {
        Version::A => 1,
        Version::B => 2,
        Version::Unknown => 3,
    }
}

/// A group's type, for C.
fn kind_in_c(kind: Option<u8>) -> u8
    ensures { result ≡ kind_in_c kind }
{
    match kind {
        Some(kind) => kind,
        None => u8::MAX,
    }
}

/// An item, for C.
pub(crate) fn item_in_c(item: Item) -> RdsItem
    ensures { result ≡ item_in_c item }
{
    match item {
        Item::Acquired { place, number } => mark_in_c(place, 1, number),
        Item::Group(group) => {
            let [first, second, third, fourth] = group.blocks;
            let blocks = [
                block_in_c(first),
                block_in_c(second),
                block_in_c(third),
                block_in_c(fourth),
            ];
            group_in_c(
                group.place,
                blocks,
                group.kind,
                group.version,
                group.conflict,
            )
        }
        Item::LostLock { place } => mark_in_c(place, 3, 0),
    }
}

/// An acquisition or a loss, for C.
fn mark_in_c(place: u64, what: u8, number: u8) -> RdsItem
    ensures { result ≡ mark_in_c place what number }
{
    RdsItem {
        place,
        blocks: [RdsBlock::MISSING; 4],
        what,
        number,
        version: 0,
        conflict: 0,
        unused: 0,
    }
}

/// A group, for C.
fn group_in_c(
    place: u64,
    blocks: [RdsBlock; 4],
    kind: Option<u8>,
    version: Version,
    conflict: bool,
) -> RdsItem
    ensures { result ≡ group_in_c place blocks kind version conflict }
{
    RdsItem {
        place,
        blocks,
        what: 2,
        number: kind_in_c(kind),
        version: version_in_c(version),
        conflict: u8::from(conflict),
        unused: 0,
    }
}

/// A soft reading, for C.
fn soft_reading_in_c(reading: SoftReading) -> RdsBlock
    ensures { result ≡ soft_reading_in_c reading }
{
    match reading {
        SoftReading::Lost => reading_in_c(Reading::Lost),
        SoftReading::Valid { offset, info } => reading_in_c(Reading::Valid { offset, info }),
        SoftReading::Corrected {
            offset,
            info,
            flips,
        } => RdsBlock {
            burst: mask_of(flips),
            info,
            kind: 3u8,
            offset: offset_in_c(offset),
        },
    }
}

/// A block that was read again, for C.
fn soft_block_in_c(block: SoftBlock) -> RdsBlock
    ensures { result ≡ soft_block_in_c block }
{
    match block {
        SoftBlock::Missing => RdsBlock::MISSING,
        SoftBlock::Read(reading) => soft_reading_in_c(reading),
    }
}

/// An item that was read again, for C.
pub(crate) fn soft_item_in_c(item: SoftItem) -> RdsItem
    ensures { result ≡ soft_item_in_c item }
{
    match item {
        SoftItem::Acquired { place, number } => mark_in_c(place, 1, number),
        SoftItem::Group(again) => {
            let [one, two, three, four] = again.blocks;
            let blocks = [
                soft_block_in_c(one),
                soft_block_in_c(two),
                soft_block_in_c(three),
                soft_block_in_c(four),
            ];
            group_in_c(
                again.place,
                blocks,
                again.kind,
                again.version,
                again.conflict,
            )
        }
        SoftItem::LostLock { place } => mark_in_c(place, 3, 0),
    }
}
