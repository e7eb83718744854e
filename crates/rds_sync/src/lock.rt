//! A lock: the knowledge of a synchroniser that is locked, and the effect of a block on it, however it was
//! read.

ghost use Rattle.std.specs.Prelude.{◌≡◌, ◌≤◌, ◌<◌, ◌+◌, ◌^◌, ◌↔◌, IsTrue, true};
ghost use Rattle.rds_sync.specs.{Lawful.IsLawfulLock, Inside.Locks.IsAfter, Loss.IsLawfulBad, Loss.bad_by, Ranges.IsLossInRange, Rules.RuleNumbers, Step.lock_after};

use crate::due::Due;
use crate::loss::{Bad, Loss};
use crate::rules::Rules;
use rds_code::BLOCK_BITS;
use rds_stream::FIRST_WINDOW;

/// How far apart the last bits of two consecutive blocks are, in places.
pub(crate) const BLOCK_PLACES: u64 = BLOCK_BITS as u64;

/// The least place at which a block that is waited for ends: no place before 51 acquires.
const LEAST_DUE: u64 = FIRST_WINDOW + 2 * BLOCK_PLACES;

/// The state of a synchroniser that is locked: this project's rule, after the flywheel of EN 50067:1998,
/// annex C.
///
/// The next block ends at place `due` and is read as block `number` (1 to 4). The first block that was read
/// in the group in progress has number `first`, which is below `number`; both are 1 if no group is in
/// progress.
#[derive(Clone, Copy, PartialEq, Eq)]
pub struct Lock {
    /// The place at which the next block ends.
    pub due: u64,
    /// The number that it is read as.
    pub number: u8,
    /// The loss history: the blocks that were not valid, too few for a loss; 0 if there are none. By the rule
    /// `Loss::Run(n)` it is how many of them came in a row, below `n`. By `Loss::Share { bad, of }` it is a mask of
    /// the last `of` blocks, in which 1 is a bad one and the newest is the lowest bit.
    pub bad: u64,
    /// The number of the first block that was read in the group in progress, or 1.
    pub first: u8,
}

impl Lock {
    /// The lock after block `number` was read at `place`: after block 4 comes block 1, of a new
    /// group.
    pub(crate) fn after_block(place: u64, number: u8, bad: u64, first: u8) -> Lock
        requires { place < 2 ^ 60 }
        ensures { result ≡ lock_after place number bad first }
    {
        Lock {
            due: place + BLOCK_PLACES,
            number: number % 4 + 1,
            bad,
            first: if number == 4 { 1 } else { first },
        }
    }

    /// The history of bad blocks, as this rule of loss has it.
    pub fn bad_by(self, loss: Loss) -> Bad
        requires range { IsLossInRange loss }
        requires lawful { IsLawfulBad loss self.bad }
        ensures { result ≡ bad_by loss self.bad }
    {
        match loss {
            Loss::Run(_) => Bad::Run(self.bad as u8),
            Loss::Share { .. } => Bad::Mask(self.bad),
        }
    }

    /// Whether it is lawful before the bit at `place`.
    pub(crate) fn is_lawful(self, rules: &Rules, place: u64) -> bool
        ensures { IsTrue result ↔ IsLawfulLock rules.now place self }
    {
        let group_places = BLOCK_PLACES * u64::from(self.number.saturating_sub(self.first));
        place <= self.due
            && self.due - place < BLOCK_PLACES
            && LEAST_DUE <= self.due
            && rules.loss().is_lawful_bad(self.bad)
            && group_places + FIRST_WINDOW <= self.due
            && (self.number == 1 && self.first == 1
                || 1 <= self.first && self.first < self.number && self.number <= 4)
    }

    /// Whether no group is in progress, and the next one begins at `place`.
    #[inline(always)]
    pub(crate) fn begins_group_at(self, place: u64) -> bool
        ensures { (result ≡ true) ↔ ((self.number ≡ 1) × (self.first ≡ 1) × (place + 25 ≡ self.due)) }
    {
        self.number == 1
            && self.first == 1
            && FIRST_WINDOW <= self.due
            && place == self.due - FIRST_WINDOW
    }

    /// The effect of the block that is due, which is valid with the expected number (`good`) or is not.
    pub(crate) fn after(self, loss: Loss, good: bool) -> Due
        requires range { IsLossInRange loss }
        requires lawful { IsLawfulBad loss self.bad }
        requires place { self.due < 2 ^ 36 }
        requires number { self.number ≤ 4 }
        ensures { IsAfter loss self good result }
    {
        let bad = loss.bad_after(good, self.bad);
        if loss.are_too_many(bad) {
            return Due::Lost;
        }
        let next = Lock::after_block(self.due, self.number, bad, self.first);
        if self.number == 4 {
            Due::Closed(next)
        } else {
            Due::Inside(next)
        }
    }
}
