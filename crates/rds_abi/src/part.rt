//! The part of a recording that a run over a range hears.

ghost use Rattle.std.specs.Prelude.{◌≡◌, ◌-◌, ◌*◌, ◌<◌, ◌≤◌, ◌^◌, ℕ, IfOk};
ghost use Rattle.rds_stream.specs.Recording.{AreGaps, length_of};
ghost use Rattle.rds_live.specs.{Gaps.gaps_within as the_gaps_within, Gaps.part_of_gap as the_part_of_gap, Moving.IsPartHeard};
ghost use Rattle.rds_abi.specs.Asked.{IsRecording, gap_of, gaps_of, recording_of as the_recording_of};

use crate::layout::RdsGap;
use rds_stream::Recording;
use std::alloc::{AllocError, Global};

/// How many bits before a place a run may hear there: those of a partner's window, eight blocks back.
const HEARD_BEFORE: u64 = 233;

/// A part of a recording, which begins with a whole byte.
#[derive(Drop)]
pub(crate) struct Part {
    pub(crate) recording: Recording,
    /// The place in the recording at which the part begins.
    pub(crate) before: u64,
}

/// The part of a recording of `bits` bits that a run over the places from `from` to before `to` hears. It takes memory for the
/// bytes and the gaps in the part.
pub(crate) fn part_of(
    alloc: Global,
    bytes: &[u8],
    bits: u64,
    gaps: &[RdsGap],
    from: u64,
    to: u64,
) -> Result<Part, AllocError>
    requires order { from ≤ to }
    requires within { to ≤ bits }
    requires lawful { IsRecording bytes.now bits gaps.now }
    ensures begins { IfOk result (λ part. part.before ≤ from) }
    ensures len { IfOk result (λ part. length_of part.recording ≡ to - part.before) }
    ensures heard { IfOk result (λ part. (place : ℕ) → from - part.before ≤ place
        → IsPartHeard (the_recording_of bytes.now bits gaps.now) part.recording part.before place) }
{
    let first = from.saturating_sub(HEARD_BEFORE) / 8;
    let before = 8 * first;
    let len = to - before;
    let copy = Vec::from_slice(alloc, &bytes[first as usize..to.div_ceil(8) as usize])?;
    let near = gaps_within(alloc, gaps, before, len)?;
    match Recording::with_gaps(copy, len, near) {
        Ok(recording) => Ok(Part { recording, before }),
        Err(_) => unreachable!(),
    }
}

/// Leaves out the gaps that end before the part of a stream that begins at `before` and has `len` places, and those that begin
/// after it. Two binary searches.
pub(crate) fn near(gaps: &[RdsGap], before: u64, len: u64) -> &[RdsGap]
    requires { AreGaps (2 ^ 36) (gaps_of gaps.now) }
    ensures same { (n : ℕ) → n ≤ len
        → the_gaps_within (gaps_of result.now) before n ≡ the_gaps_within (gaps_of gaps.now) before n }
    ensures some { AreGaps (2 ^ 36) (gaps_of result.now) }
{
    let first = gaps.partition_point(|gap| gap.end <= before);
    let rest = &gaps[first..];
    let count = rest.partition_point(|gap| gap.begin.saturating_sub(before) < len);
    &rest[..count]
}

/// The gaps in the part that begins at `before` and has `len` places, by their places in the part.
pub(crate) fn gaps_within(
    alloc: Global,
    gaps: &[RdsGap],
    before: u64,
    len: u64,
) -> Result<Vec<(u64, u64)>, AllocError>
    ensures { IfOk result (λ near. near.items ≡ the_gaps_within (gaps_of gaps.now) before len) }
{
    gaps.iter()
        .filter_map(|gap| part_of_gap(before, len, *gap))
        .collect(alloc)
}

/// A gap, as far as it is in the part, by its places there.
fn part_of_gap(before: u64, len: u64, gap: RdsGap) -> Option<(u64, u64)>
    ensures { result ≡ the_part_of_gap before len (gap_of gap) }
{
    let from = gap.begin.saturating_sub(before);
    let to = gap.end.saturating_sub(before).min(len);
    if from < to { Some((from, to)) } else { None }
}
