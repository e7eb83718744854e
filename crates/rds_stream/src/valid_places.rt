//! Words of valid places: which of up to 64 places in a row have a valid window.
//!
//! A bit is a one exactly when all ten planes agree with one of the five offset words, so words are exact
//! both ways: each valid window has a one, and no other is looked at.
ghost use Rattle.std.specs.{Prelude.◌≡◌, Prelude.◌≢◌, Prelude.ℕ, Prelude.max, Prelude.◌+◌, Prelude.◌<◌, Prelude.◌≤◌, Prelude.◌^◌, Prelude.◌↔◌, Prelude.false, Prelude.slice_index, Prelude.IsSome, Int.bit_at};
ghost use Rattle.rds_code.specs.Offsets.{offset_of as the_offset_of};
ghost use Rattle.rds_stream.specs.{Inside.Lanes.HoldInLane, Recording.Signal, Recording.length_of, Recording.offset_at, Inside.Sections.IsSection, ValidWindows.NoneValid, Inside.ValidPlaces.TellsValidPlaces};

use crate::bit_planes::plane_lanes;
use crate::gaps::Section;
use crate::lanes::{either, join_lanes, narrow};
use crate::recording::Recording;
use rds_code::Offset;
use std::simd::prelude::*;

/// Up to 64 places in a row, from `next` to before `ahead`. Bit k of `word` is a one if the window at place
/// `next` + k is valid.
#[derive(Clone, Copy, Drop)]
pub(crate) struct ValidPlaces {
    pub(crate) next: u64,
    pub(crate) ahead: u64,
    pub(crate) word: u64,
}

impl ValidPlaces {
    /// The valid ones of the places from `from` on to before `end`, of 64 at most. None of their windows touches a gap.
    fn of(recording: &Recording, from: u64, end: u64) -> ValidPlaces
        requires first { 25 ≤ from }
        requires order { from ≤ end }
        requires within { end ≤ length_of recording.now }
        requires clear { IsSection recording.now from end false }
        ensures places { TellsValidPlaces recording.now result.next result.ahead result.word }
        ensures from { result.next ≡ from }
        ensures forward { (result.ahead ≤ end) × (from < end → from < result.ahead) }
    {
        if end - from < 64 {
            return ValidPlaces {
                next: from,
                ahead: end,
                word: one_by_one(recording, from, end),
            };
        }
        ValidPlaces {
            next: from,
            ahead: from + 64,
            word: at_once(recording, from),
        }
    }

    /// Moves on from places without a valid one, to the next places of the section that they end in, or of
    /// the one after it.
    #[tactic(auto, using(std::proofs::lemmas::Grind::common_steps, crate::proofs::WindowLists::off_touched))]
    fn next(self, recording: &Recording, section: &mut Section, end: u64) -> ValidPlaces
        requires first { 25 ≤ self.ahead }
        requires order { self.ahead < end }
        requires within { end ≤ length_of recording.now }
        requires section { IsSection recording.now section.old.from section.old.to section.old.touched }
        ensures places { TellsValidPlaces recording.now result.next result.ahead result.word }
        ensures forward { (self.ahead ≤ result.next) × (self.ahead < result.ahead) × (result.ahead ≤ end) }
        ensures over { NoneValid recording.now self.ahead result.next }
        ensures section { IsSection recording.now section.new.from section.new.to section.new.touched }
    {
        recording.go_on_to(section, self.ahead);
        let limit = end.min(section.to);
        if section.touched {
            ValidPlaces {
                next: limit,
                ahead: limit,
                word: 0,
            }
        } else {
            ValidPlaces::of(recording, self.ahead, limit)
        }
    }

    /// Those from `place` on: none, if it is after all of these.
    #[inline(always)]
    pub(crate) fn from_on(self, place: u64) -> ValidPlaces
        requires order { self.next ≤ place }
        requires width { self.ahead ≤ self.next + 64 }
        ensures places { (b : Signal) → TellsValidPlaces b self.next self.ahead self.word
            → TellsValidPlaces b result.next result.ahead result.word }
        ensures from { result.next ≡ place }
        ensures ahead { result.ahead ≡ max self.ahead place }
    {
        if place < self.ahead {
            return ValidPlaces {
                next: place,
                ahead: self.ahead,
                word: self.word >> (place - self.next),
            };
        }
        ValidPlaces {
            next: place,
            ahead: place,
            word: 0,
        }
    }

    /// Goes on to the next places that have a valid one, or up to `end` if there are none; to these same
    /// places, if they have one.
    pub(crate) fn next_valid(
        self,
        recording: &Recording,
        section: &mut Section,
        end: u64,
    ) -> ValidPlaces
        requires places { TellsValidPlaces recording.now self.next self.ahead self.word }
        requires first { self.ahead < end → 25 ≤ self.ahead }
        requires order { self.ahead ≤ end }
        requires within { end ≤ length_of recording.now }
        requires section { IsSection recording.now section.old.from section.old.to section.old.touched }
        ensures places { TellsValidPlaces recording.now result.next result.ahead result.word }
        ensures forward { (self.next ≤ result.next) × (result.ahead ≤ end) }
        ensures first { result.ahead < end → 25 ≤ result.ahead }
        ensures over { NoneValid recording.now self.next result.next }
        ensures ended { result.word ≡ 0 → result.ahead ≡ end }
        ensures section { IsSection recording.now section.new.from section.new.to section.new.touched }
    {
        let mut places = self;
        while places.word == 0 && places.ahead < end {
            places = places.next(recording, section, end);
        }
        places
    }
}

/// Ones at the valid places of the 64 from `at` on; bit k is place `at` + k.
#[inline(always)]
fn at_once(recording: &Recording, at: u64) -> u64
    requires first { 25 ≤ at }
    requires last { at + 64 ≤ length_of recording.now }
    requires clear { IsSection recording.now at (at + 64) false }
    ensures { (k : ℕ) → k < 64 → (bit_at result k ≡ 1) ↔ IsSome (offset_at recording.now (at + k)) }
{
    prove!(at < recording.len());
    join_lanes(offset_words(&plane_lanes(recording, at)))
}

/// Ones at the valid places from `from` to before `to`, fewer than 64, one by one; bit k is place `from` + k.
fn one_by_one(recording: &Recording, from: u64, to: u64) -> u64
    requires first { 25 ≤ from }
    requires order { from ≤ to }
    requires few { to < from + 64 }
    requires within { to ≤ length_of recording.now }
    requires clear { IsSection recording.now from to false }
    ensures { TellsValidPlaces recording.now from to result }
{
    let mut places = 0;
    for place in from..to {
        if recording.stored_offset(place).is_some() {
            places |= 1 << (place - from);
        }
    }
    places
}

/// Ones at the places at which the planes hold an offset word.
#[inline(always)]
fn offset_words(planes: &[u64x2; 10]) -> u64x2
    ensures { (j k remainder : ℕ) → j < 2 → k < 32 → HoldInLane planes.now j k remainder
        → (bit_at (slice_index result j) k ≡ 1) ↔ IsSome (the_offset_of remainder) }
{
    let first = either(
        equal_to(planes, Offset::A.word()),
        equal_to(planes, Offset::B.word()),
    );
    let third = either(
        equal_to(planes, Offset::C.word()),
        equal_to(planes, Offset::Cx.word()),
    );
    either(either(first, third), equal_to(planes, Offset::D.word()))
}

/// Ones at the places at which the planes hold `word`.
#[inline(always)]
fn equal_to(planes: &[u64x2; 10], word: u16) -> u64x2
    requires { word < 2 ^ 10 }
    ensures { (j k remainder : ℕ) → j < 2 → k < 32 → HoldInLane planes.now j k remainder
        → (bit_at (slice_index result j) k ≡ 1) ↔ (remainder ≡ word) }
{
    let mut same = u64x2::splat(u64::MAX);
    for r in 0..10usize {
        let flip = if word >> r & 1 == 1 { 0 } else { u64::MAX };
        same = narrow(same, planes[r], flip);
    }
    same
}

/// The place of the lowest one.
pub(crate) fn lowest(word: u64) -> u32
    requires { word ≢ 0 }
    ensures bound { result < 64 }
    ensures set { bit_at word result ≡ 1 }
    ensures below { (k : ℕ) → k < result → bit_at word k ≡ 0 }
{
    word.trailing_zeros()
}

/// The bits above bit `bit`, moved down so that the first of them is the lowest.
pub(crate) fn above(word: u64, bit: u32) -> u64
    requires { bit < 64 }
    ensures { (k : ℕ) → bit_at result k ≡ bit_at word (k + (bit + 1)) }
{
    word >> bit >> 1
}
