//! Gaps of a stream, and those of a part of it.
ghost use Rattle.std.specs.Prelude.{◌≡◌, ◌≤◌, ◌↔◌, ◌^◌, length, min, true, vec_capacity};
ghost use Rattle.rds_stream.specs.Recording.{AreGaps};
ghost use Rattle.rds_live.specs.{Room.filled_up, Gaps.gaps_within, Gaps.part_of_gap as the_part_of_gap};

use crate::room::HELD_BITS;
use rds_stream::{MOST_BITS, are_gaps};

/// Whether a stream may have these gaps: each has a place and ends by 2^36 bits, and each begins at or after the end of the one
/// before it.
///
/// Its cost: the gaps are read twice. It takes no memory.
pub fn may_have_gaps(gaps: &[(u64, u64)]) -> bool
    ensures { (result ≡ true) ↔ AreGaps (2 ^ 36) gaps.now }
{
    are_gaps(gaps, MOST_BITS)
}

/// Puts the gaps in the part of a stream that begins at `before` and has `len` places, by their places in the part, in the
/// place of those of `found`, which has room for them.
pub(crate) fn fill_gaps(found: &mut Vec<(u64, u64)>, gaps: &[(u64, u64)], before: u64, len: u64)
    requires are { AreGaps (2 ^ 36) gaps.now }
    requires room { min (length gaps.now) len ≤ vec_capacity found.old }
    ensures gaps { found.new.items ≡ gaps_within gaps.now before len }
    ensures room { vec_capacity found.new ≡ vec_capacity found.old }
{
    found.clear();
    let near = near(gaps, before, len);
    for &gap in near {
        if let Some(part) = part_of_gap(before, len, gap) {
            found.push_reserved(part);
        }
    }
}

/// Leaves out the gaps that end before the part of a stream that begins at `before` and has `len` places, and those that begin
/// after it. Two binary searches.
fn near(gaps: &[(u64, u64)], before: u64, len: u64) -> &[(u64, u64)]
    requires are { AreGaps (2 ^ 36) gaps.now }
    ensures gaps { gaps_within result.now before len ≡ gaps_within gaps.now before len }
{
    let first = gaps.partition_point(|gap| gap.1 <= before);
    let rest = &gaps[first..];
    let count = rest.partition_point(|gap| gap.0.saturating_sub(before) < len);
    &rest[..count]
}

/// Appends gaps after the bytes that are heard, until there are `slots` gaps.
pub(crate) fn fill_up(gaps: &mut Vec<(u64, u64)>, slots: usize)
    requires few { slots ≤ 7920 }
    requires room { slots ≤ vec_capacity gaps.old }
    ensures gaps { gaps.new.items ≡ filled_up gaps.old.items slots }
    ensures room { vec_capacity gaps.new ≡ vec_capacity gaps.old }
{
    for number in gaps.len()..slots {
        let place = HELD_BITS + number as u64;
        gaps.push_reserved((place, place + 1));
    }
}

/// A gap, as far as it is in the part, by its places there.
fn part_of_gap(before: u64, len: u64, gap: (u64, u64)) -> Option<(u64, u64)>
    ensures { result ≡ the_part_of_gap before len gap }
{
    let from = gap.0.saturating_sub(before);
    let to = gap.1.saturating_sub(before).min(len);
    if from < to { Some((from, to)) } else { None }
}
