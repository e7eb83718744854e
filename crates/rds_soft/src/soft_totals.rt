//! The totals of items that were read again.
ghost use Rattle.std.specs.Prelude.{◌≡◌, ◌≤◌, ◌<◌, ◌∷◌, ◌+◌, ◌*◌, ◌^◌, ℕ, [], sum_by};
ghost use Rattle.rds_soft.specs.SoftTotals.{bits_in as the_bits_in, flipped_in as the_flipped_in, is_known as the_is_known, lost_in as the_lost_in, valid_in as the_valid_in};
ghost use Rattle.rds_soft.specs.Inside.Totals.{clean};
ghost use Rattle.rds_soft.specs.declared.soft_item.SoftItem.TheVariants as ASoftItem;

use crate::soft_item::{SoftBlock, SoftGroup, SoftItem};
use crate::soft_reading::{SoftReading, mask_of};
use rds_sync::Totals;

/// Counts over a list of items that were read again: this project's rule.
#[derive(Clone, Copy)]
pub struct SoftTotals {
    /// Those of any report. No block is corrected by a burst; `bits` are those that flips invert.
    pub totals: Totals,
    /// Corrected blocks, by how many symbols were flipped: 1 to 5, and 6 or more.
    pub flipped: [u64; 6],
}

impl SoftTotals {
    ghost use Rattle.rds_soft.specs.SoftTotals.{AreAtMost, FitTogether, plus, soft_totals_of};

    /// The totals of no items.
    pub const NONE: SoftTotals = SoftTotals {
        totals: Totals::NONE,
        flipped: [0; 6],
    };

    /// The totals of a group of four valid blocks, as most are.
    const CLEAN: SoftTotals = SoftTotals {
        totals: Totals {
            valid: 4,
            groups: 1,
            complete: 1,
            ..Totals::NONE
        },
        flipped: [0; 6],
    };

    /// The totals of one item.
    pub fn of_item(item: &SoftItem) -> SoftTotals
        ensures value { result ≡ soft_totals_of (item.now ∷ []) }
        ensures small { AreAtMost (2 ^ 10) result }
    {
        match item {
            SoftItem::Acquired { .. } => SoftTotals {
                totals: Totals {
                    acquired: 1,
                    ..Totals::NONE
                },
                flipped: [0; 6],
            },
            SoftItem::Group(group) => SoftTotals::of_group(group),
            SoftItem::LostLock { .. } => SoftTotals {
                totals: Totals {
                    losses: 1,
                    ..Totals::NONE
                },
                flipped: [0; 6],
            },
        }
    }

    /// The totals of `count` groups of four valid blocks.
    pub(crate) fn of_clean(count: u64) -> SoftTotals
        requires { count < 2 ^ 54 }
        ensures value { result ≡ clean count }
        ensures small { AreAtMost (2 ^ 10 * count) result }
    {
        SoftTotals {
            totals: Totals {
                valid: 4 * count,
                groups: count,
                complete: count,
                ..Totals::NONE
            },
            flipped: [0; 6],
        }
    }

    /// The totals of a group.
    fn of_group(group: &SoftGroup) -> SoftTotals
        ensures value { result ≡ soft_totals_of (ASoftItem.Group group.now ∷ []) }
        ensures small { AreAtMost (2 ^ 10) result }
    {
        let [one, two, three, four] = &group.blocks;
        let valid = valid_in(one) + valid_in(two) + valid_in(three) + valid_in(four);
        if valid == 4 {
            return SoftTotals::CLEAN;
        }
        let is_complete = is_known(one) && is_known(two) && is_known(three) && is_known(four);
        SoftTotals {
            totals: Totals {
                valid,
                bursts: [0; 5],
                lost: lost_in(one) + lost_in(two) + lost_in(three) + lost_in(four),
                bits: bits_in(one) + bits_in(two) + bits_in(three) + bits_in(four),
                groups: 1,
                complete: u64::from(is_complete),
                acquired: 0,
                losses: 0,
            },
            flipped: [
                flipped_by(1, &group.blocks),
                flipped_by(2, &group.blocks),
                flipped_by(3, &group.blocks),
                flipped_by(4, &group.blocks),
                flipped_by(5, &group.blocks),
                flipped_by(6, &group.blocks),
            ],
        }
    }

    /// The totals of two lists, one after the other, whose counts are not too great for that.
    pub fn plus(self, other: SoftTotals) -> SoftTotals
        requires { FitTogether self other }
        ensures value { result ≡ plus self other }
        ensures small { (m n : ℕ) → AreAtMost m self → AreAtMost n other → AreAtMost (m + n) result }
    {
        SoftTotals {
            totals: self.totals.plus(other.totals),
            flipped: [
                self.flipped[0] + other.flipped[0],
                self.flipped[1] + other.flipped[1],
                self.flipped[2] + other.flipped[2],
                self.flipped[3] + other.flipped[3],
                self.flipped[4] + other.flipped[4],
                self.flipped[5] + other.flipped[5],
            ],
        }
    }
}

/// How many of four blocks were corrected by this number of flips, 6 being six or more.
fn flipped_by(count: u32, blocks: &[SoftBlock; 4]) -> u64
    ensures value { result ≡ sum_by (the_flipped_in count) blocks.now }
    ensures most { result ≤ 4 }
{
    let [one, two, three, four] = blocks;
    flipped_in(count, one)
        + flipped_in(count, two)
        + flipped_in(count, three)
        + flipped_in(count, four)
}

/// 1 if the block is valid.
fn valid_in(block: &SoftBlock) -> u64
    ensures value { result ≡ the_valid_in block.now }
    ensures most { result ≤ 1 }
{
    u64::from(matches!(block, SoftBlock::Read(SoftReading::Valid { .. })))
}

/// 1 if the block is lost.
fn lost_in(block: &SoftBlock) -> u64
    ensures value { result ≡ the_lost_in block.now }
    ensures most { result ≤ 1 }
{
    u64::from(matches!(block, SoftBlock::Read(SoftReading::Lost)))
}

/// How many bits of the block were corrected.
fn bits_in(block: &SoftBlock) -> u64
    ensures value { result ≡ the_bits_in block.now }
    ensures most { result ≤ 32 }
{
    match block {
        SoftBlock::Read(SoftReading::Corrected { flips, .. }) => {
            u64::from(mask_of(*flips).count_ones())
        }
        _ => 0,
    }
}

/// Whether the block is valid or corrected.
fn is_known(block: &SoftBlock) -> bool
    ensures { result ≡ the_is_known block.now }
{
    match block {
        SoftBlock::Read(SoftReading::Valid { .. }) => true,
        SoftBlock::Read(SoftReading::Corrected { .. }) => true,
        _ => false,
    }
}

/// 1 if the block was corrected by this number of flips, 6 being six or more.
fn flipped_in(count: u32, block: &SoftBlock) -> u64
    ensures value { result ≡ the_flipped_in count block.now }
    ensures most { result ≤ 1 }
{
    match block {
        SoftBlock::Read(SoftReading::Corrected { flips, .. }) => {
            u64::from(flips.count_ones().min(6) == count)
        }
        _ => 0,
    }
}
