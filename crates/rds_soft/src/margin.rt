ghost use Rattle.std.specs.Prelude.{◌≡◌, ◌≤◌, ◌↔◌, IfSome, IsSome};

use std::marker::Model;

/// How much more all other flips must weigh than those that are taken: 1 to 127. Clauses see the number.
#[derive(Clone, Copy, Debug, PartialEq, Eq)]
pub struct Margin {
    weight: u8,
}

impl Model for Margin {
    ghost use Rattle.std.specs.Prelude.{ℕ, ◌≤◌};

    ghost Value = { ℕ };

    ghost view = { λ m. m.weight };

    ghost invariant = { λ m. (1 ≤ m.weight) × (m.weight ≤ 127) };

    ghost inverse = { λ weight. record { weight = weight } };
}

impl Margin {
    /// Two nats, in units of 1/16 nat.
    pub const DEFAULT: Margin = Margin { weight: 32 };

    /// The margin of this weight, or none if it is not 1 to 127.
    pub fn new(weight: u8) -> Option<Margin>
        ensures margin { IfSome result (λ margin. margin ≡ weight) }
        ensures range { IsSome result ↔ ((1 ≤ weight) × (weight ≤ 127)) }
    {
        match weight {
            1..=127 => Some(Margin { weight }),
            _ => None,
        }
    }

    /// Its weight: 1 to 127.
    #[inline(always)]
    pub fn weight(self) -> u8
        ensures value { result ≡ self }
        ensures least { 1 ≤ result }
        ensures most { result ≤ 127 }
    {
        self.weight
    }
}
