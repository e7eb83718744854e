//! The remainders of the windows at 64 places in a row, at once.
//!
//! A remainder's bits are sums of bits of its window, the same ones at each place. So ten planes, one for each bit of
//! a remainder, come of the bits of a recording by shifts and sums of whole words. From a window to that of the next
//! place division takes one step: x times the remainder, less the generator if that reaches x^10, and the
//! place that comes in, less x^26 times the one that leaves. Taken back, that makes a plane of the one above
//! it: it is that one a place on. To it come the highest plane if the generator has a one, and the first
//! places of the windows if x^26 leaves a one. Only the highest plane is summed up from the places.
//!
//! The 64 places are split by halves into two lanes of a vector: 57 bits of a lane hold the windows of 32
//! places.
ghost use Rattle.std.specs.{Prelude.◌≡◌, Prelude.ℕ, Prelude.◌+◌, Prelude.◌*◌, Prelude.◌<◌, Prelude.◌≤◌, Prelude.slice_index, Int.bit_at};
ghost use Rattle.rds_code.specs.Remainder.{rem};
ghost use Rattle.rds_stream.specs.{Recording.length_of, Recording.window, Planes.Hold, Inside.Lanes.HoldInLane, Inside.Lanes.IsWindowAt, Inside.Lanes.lane};

use crate::lanes::{from_on, join_lanes, sum};
use crate::recording::Recording;
use rds_code::laws;
use std::simd::prelude::*;

/// The remainders of the windows at the 64 places from `at` on, as ten planes: bit k of plane r, counted from the
/// lowest, is bit r of the remainder of the window at place `at` + k. This layout is this project's rule.
///
/// `at` is at least 25, and `at` + 63 below the length. It takes no memory.
pub fn planes(recording: &Recording, at: u64) -> [u64; 10]
    requires first { 25 ≤ at }
    requires last { at + 64 ≤ length_of recording.now }
    ensures { (k : ℕ) → k < 64 → Hold result k (rem (window recording.now.bits (at + k))) }
{
    let [zero, one, two, three, four, five, six, seven, eight, nine] = plane_lanes(recording, at);
    [
        join_lanes(zero),
        join_lanes(one),
        join_lanes(two),
        join_lanes(three),
        join_lanes(four),
        join_lanes(five),
        join_lanes(six),
        join_lanes(seven),
        join_lanes(eight),
        join_lanes(nine),
    ]
}

/// The planes of the 64 places from `at` on, in lanes of 32 places.
#[inline(always)]
pub(crate) fn plane_lanes(recording: &Recording, at: u64) -> [u64x2; 10]
    requires first { 25 ≤ at }
    requires last { at + 64 ≤ length_of recording.now }
    ensures { (j k : ℕ) → j < 2 → k < 32 → HoldInLane result j k
        (rem (window recording.now.bits (at + (32 * j + k)))) }
{
    laws::blocks_have_one_remainder();
    planes_of(u64x2::from_array(recording.places(at - 25)))
}

/// The planes of the windows that begin in each lane, at each of its bits.
#[inline(always)]
fn planes_of(places: u64x2) -> [u64x2; 10]
    ensures { (j r k block : ℕ) → j < 2 → r < 10 → IsWindowAt (slice_index places j) k block
        → bit_at (lane result r j) k ≡ bit_at (rem block) r }
{
    laws::remainders_are_linear();

    // Sums of two, four and five places in a row, and of two such fives nine places apart. With one place more these
    // are the highest bits of the remainders.
    let pairs = sum(places, from_on(places, 1));
    let fours = sum(pairs, from_on(pairs, 2));
    let fives = sum(fours, from_on(places, 4));
    let tens = sum(fives, from_on(fives, 9));
    let nine = from_on(sum(tens, from_on(places, 15)), 1);

    let both = sum(nine, places);
    let eight = from_on(nine, 1);
    let seven = sum(from_on(eight, 1), nine);
    let six = sum(from_on(seven, 1), both);
    let five = sum(from_on(six, 1), places);
    let four = sum(from_on(five, 1), both);
    let three = sum(from_on(four, 1), nine);
    let two = sum(from_on(three, 1), both);
    let one = sum(from_on(two, 1), places);
    let zero = sum(from_on(one, 1), places);
    [zero, one, two, three, four, five, six, seven, eight, nine]
}
