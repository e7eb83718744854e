ghost use Rattle.std.specs.Prelude.{◌≡◌, ◌≤◌, ◌↔◌, IfSome, IsSome};
ghost use Rattle.rds_code.specs.Cycle.{next_number};

use std::marker::Model;

/// The number of a block in its group, 1 to 4 (EN 50067:1998, 2.1). Clauses see the number.
#[derive(Clone, Copy, Debug, PartialEq, Eq, PartialOrd, Ord)]
pub struct BlockNumber {
    number: u8,
}

impl Model for BlockNumber {
    ghost use Rattle.std.specs.Prelude.{ℕ, ◌≤◌};

    ghost Value = { ℕ };

    ghost view = { λ n. n.number };

    ghost invariant = { λ n. (1 ≤ n.number) × (n.number ≤ 4) };

    ghost inverse = { λ number. record { number = number } };
}

impl BlockNumber {
    /// Block 1, with offset A.
    pub const ONE: BlockNumber = BlockNumber { number: 1 };

    /// Block 2, with offset B.
    pub const TWO: BlockNumber = BlockNumber { number: 2 };

    /// Block 3, with offset C or C'.
    pub const THREE: BlockNumber = BlockNumber { number: 3 };

    /// Block 4, with offset D.
    pub const FOUR: BlockNumber = BlockNumber { number: 4 };

    /// The block number that is this number, or none if it is not 1 to 4.
    pub fn new(number: u8) -> Option<BlockNumber>
        ensures number { IfSome result (λ block. block ≡ number) }
        ensures range { IsSome result ↔ ((1 ≤ number) × (number ≤ 4)) }
    {
        match number {
            1..=4 => Some(BlockNumber { number }),
            _ => None,
        }
    }

    /// The number: 1 to 4.
    #[inline(always)]
    pub fn get(self) -> u8
        ensures value { result ≡ self }
        ensures least { 1 ≤ result }
        ensures most { result ≤ 4 }
    {
        self.number
    }

    /// The number of the next block: after block 4 comes block 1, of the next group.
    #[inline(always)]
    pub fn next(self) -> BlockNumber
        ensures { result ≡ next_number self }
    {
        BlockNumber {
            number: self.number % 4 + 1,
        }
    }
}
