//! The state of a synchroniser between two bits.

ghost use Rattle.std.specs.Prelude.{◌≡◌, ◌≤◌, ◌<◌, ◌^◌, ◌↔◌, IsTrue};
ghost use Rattle.rds_sync.specs.Rules.{RuleNumbers};

use crate::lock::Lock;
use crate::rules::Rules;

/// The state before a bit: this project's rule, after the flywheel of annex C.
#[derive(Clone, Copy, PartialEq, Eq)]
pub enum State {
    /// No block is known: each bit is tried as the last of a block that acquires.
    Searching,
    /// Blocks are known, and so are the place and the number of the next.
    Locked(Lock),
}

impl State {
    ghost use Rattle.rds_sync.specs.Lawful.{IsLawful};

    /// Whether the state is lawful before the bit at `place`, by these rules. It is a search, or a lock whose
    /// block is due within 26 places, and at place 77 or later. The lock's bad blocks do not lose it, its
    /// group is in the recording, and its numbers are in order. Runs lead from lawful states to lawful ones.
    pub fn is_lawful(&self, rules: &Rules, place: u64) -> bool
        ensures { IsTrue result ↔ IsLawful rules.now place self.now }
    {
        match *self {
            State::Searching => true,
            State::Locked(lock) => lock.is_lawful(rules, place),
        }
    }
}
