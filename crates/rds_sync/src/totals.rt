//! The totals of a report.

ghost use Rattle.std.specs.Prelude.{◌≡◌, ◌≤◌, ◌<◌, ◌+◌, ◌-◌, ◌*◌, ◌^◌, ℕ, [], ◌∷◌, length, true};
ghost use Rattle.rds_sync.specs.Totals.{totals_of};

use crate::counts::{Counts, MOST_ITEMS};
use crate::item::{Group, Item};

/// Twelve counts over a list of items: this project's rule. Blocks that are missing are not counted.
#[derive(Clone, Copy)]
pub struct Totals {
    /// Valid blocks.
    pub valid: u64,
    /// Corrected blocks, by the span of their burst: 1 to 5 bits.
    pub bursts: [u64; 5],
    /// Blocks that were read and are neither valid nor corrected.
    pub lost: u64,
    /// Bits corrected: the ones of all bursts.
    pub bits: u64,
    /// Groups.
    pub groups: u64,
    /// Groups of which all four blocks are valid or corrected.
    pub complete: u64,
    /// Acquisitions.
    pub acquired: u64,
    /// Losses.
    pub losses: u64,
}

impl Totals {
    ghost use Rattle.rds_sync.specs.{Totals.totals_of, Counting.plus, Counting.IsAtMost, Counting.FitTogether, Counting.IsRest, Advance.group_item};

    /// The totals of no items.
    pub const NONE: Totals = Totals {
        valid: 0,
        bursts: [0; 5],
        lost: 0,
        bits: 0,
        groups: 0,
        complete: 0,
        acquired: 0,
        losses: 0,
    };

    /// The totals of the group that a recording's end closes, if there is one.
    pub fn of_end(group: Option<Group>) -> Totals
        ensures value { result ≡ totals_of (group_item group) }
        ensures small { IsAtMost (2 ^ 10) result }
    {
        match group {
            Some(group) => Totals::of_item(&Item::Group(group)),
            None => Totals::NONE,
        }
    }

    /// The totals of these items, of which there are at most 2^40.
    pub fn of(items: &[Item]) -> Totals
        requires { length items.now ≤ 2 ^ 40 }
        ensures value { result ≡ totals_of items.now }
        ensures small { IsAtMost (2 ^ 10 * length items.now) result }
    {
        let mut totals = Totals::NONE;
        let mut rest = items;
        while !rest.is_empty() {
            let (part, others) = rest.split_at(rest.len().min(MOST_ITEMS as usize));
            totals = totals.plus(Counts::of(part).totals());
            rest = others;
        }
        totals
    }

    /// The totals of one item.
    pub fn of_item(item: &Item) -> Totals
        ensures value { result ≡ totals_of (item.now ∷ []) }
        ensures small { IsAtMost (2 ^ 10) result }
    {
        Totals::of(&[*item])
    }

    /// The totals of two lists, one after the other, whose counts are not too great for that.
    pub fn plus(self, other: Totals) -> Totals
        requires { FitTogether self other }
        ensures value { result ≡ plus self other }
        ensures small { (m n : ℕ) → IsAtMost m self → IsAtMost n other → IsAtMost (m + n) result }
    {
        Totals {
            valid: self.valid + other.valid,
            bursts: [
                self.bursts[0] + other.bursts[0],
                self.bursts[1] + other.bursts[1],
                self.bursts[2] + other.bursts[2],
                self.bursts[3] + other.bursts[3],
                self.bursts[4] + other.bursts[4],
            ],
            lost: self.lost + other.lost,
            bits: self.bits + other.bits,
            groups: self.groups + other.groups,
            complete: self.complete + other.complete,
            acquired: self.acquired + other.acquired,
            losses: self.losses + other.losses,
        }
    }

    /// The totals of the rest of a list, these being those of all of it and `part` those of its first items.
    #[tactic(auto, using(crate::proofs::TotalsLemmas::part_fits))]
    pub fn less(self, part: Totals) -> Totals
        requires { (rest : Totals) × IsRest part self rest }
        ensures value { (rest : Totals) → IsRest part self rest → result ≡ rest }
        ensures small { (n : ℕ) → IsAtMost n self → IsAtMost n result }
    {
        Totals {
            valid: self.valid - part.valid,
            bursts: [
                self.bursts[0] - part.bursts[0],
                self.bursts[1] - part.bursts[1],
                self.bursts[2] - part.bursts[2],
                self.bursts[3] - part.bursts[3],
                self.bursts[4] - part.bursts[4],
            ],
            lost: self.lost - part.lost,
            bits: self.bits - part.bits,
            groups: self.groups - part.groups,
            complete: self.complete - part.complete,
            acquired: self.acquired - part.acquired,
            losses: self.losses - part.losses,
        }
    }
}
