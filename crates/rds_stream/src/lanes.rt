//! Vectors of two lanes, of which each holds the bits of some places in a row, the first place lowest.
ghost use Rattle.std.specs.{Prelude.◌≡◌, Prelude.ℕ, Prelude.◌+◌, Prelude.◌*◌, Prelude.◌/◌, Prelude.◌^◌, Prelude.◌<◌, Prelude.bit_and, Prelude.bit_or, Prelude.bit_xor, Prelude.slice_index, Int.bit_at};
ghost use Rattle.rds_stream.specs.Inside.Lanes.{HasLanes};

use std::simd::prelude::*;

/// How many windows end in the places of one lane: it has 57 places, and 26 make a window.
const LANE: u64 = 32;

/// Each lane from the place `by` places on.
#[inline(always)]
pub(crate) fn from_on(lanes: u64x2, by: u64) -> u64x2
    requires { by < 64 }
    ensures { HasLanes result (λ j. slice_index lanes j / 2 ^ by) }
{
    lanes >> u64x2::splat(by)
}

/// The sums of the lanes, place by place.
#[inline(always)]
#[tactic(auto, using(crate::proofs::Places::steps))]
pub(crate) fn sum(a: u64x2, b: u64x2) -> u64x2
    ensures { HasLanes result (λ j. bit_xor (slice_index a j) (slice_index b j)) }
{
    a ^ b
}

/// The ones of both lanes' words together.
#[inline(always)]
#[tactic(auto, using(crate::proofs::Places::steps))]
pub(crate) fn either(a: u64x2, b: u64x2) -> u64x2
    ensures { HasLanes result (λ j. bit_or (slice_index a j) (slice_index b j)) }
{
    a | b
}

/// The ones of `same` at which `plane` plus `flip` has a one.
#[inline(always)]
pub(crate) fn narrow(same: u64x2, plane: u64x2, flip: u64) -> u64x2
    ensures { HasLanes result (λ j. bit_and (slice_index same j) (bit_xor (slice_index plane j) flip)) }
{
    same & (plane ^ u64x2::splat(flip))
}

/// The lowest 32 bits of both lanes, those of the first one lowest.
#[inline(always)]
pub(crate) fn join_lanes(lanes: u64x2) -> u64
    ensures { (j k : ℕ) → j < 2 → k < 32 → bit_at result (32 * j + k) ≡ bit_at (slice_index lanes j) k }
{
    let [low, high] = lanes.to_array();
    low & 0xFFFF_FFFF | high << LANE
}
