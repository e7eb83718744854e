ghost use Rattle.std.specs.Prelude.{◌≡◌, ◌≤◌, ◌↔◌, IfSome, IsSome};

use std::marker::Model;

/// How long a burst may be that is still corrected, in bits: 0, by which none is, to 5. Clauses see the number.
///
/// EN 50067:1998, Annex B: the code corrects any single burst of up to five bits. How many of them are corrected is this
/// project's rule.
#[derive(Clone, Copy, Debug, PartialEq, Eq)]
pub struct BurstLimit {
    bits: u8,
}

impl Model for BurstLimit {
    ghost use Rattle.std.specs.Prelude.{ℕ, ◌≤◌};

    ghost Value = { ℕ };

    ghost view = { λ l. l.bits };

    ghost invariant = { λ l. l.bits ≤ 5 };

    ghost inverse = { λ bits. record { bits = bits } };
}

impl BurstLimit {
    /// Bursts of up to five bits are corrected.
    pub const LONGEST: BurstLimit = BurstLimit { bits: 5 };

    /// The limit of this number of bits, or none if it is above five.
    pub fn new(bits: u32) -> Option<BurstLimit>
        ensures limit { IfSome result (λ limit. limit ≡ bits) }
        ensures range { IsSome result ↔ (bits ≤ 5) }
    {
        if bits <= u32::from(BurstLimit::LONGEST.bits) {
            Some(BurstLimit { bits: bits as u8 })
        } else {
            None
        }
    }

    /// Its number of bits: 0 to 5.
    #[inline(always)]
    pub fn bits(self) -> u8
        ensures value { result ≡ self }
        ensures most { result ≤ 5 }
    {
        self.bits
    }
}
