ghost use Rattle.std.{specs.Prelude.◌≡◌, specs.Prelude.◌==◌, proofs.Common.rules, specs.Cmp.Rules.comparing};

use std::marker::Model;

/// A burst of errors in a block: a word of 26 bits, not 0, whose highest and lowest ones are fewer than five
/// places apart. Clauses see its pattern.
///
/// It takes two bytes, since every block that a decoder keeps has room for one. EN 50067:1998, Annex B: the code
/// corrects any single burst of up to five bits.
#[derive(Clone, Copy, Debug)]
pub struct Burst {
    /// The pattern, shifted down until its lowest bit is a one.
    shape: u8,
    /// The place of the pattern's lowest one.
    shift: u8,
}

impl Model for Burst {
    ghost use Rattle.std.specs.Prelude.{ℕ, ◌*◌, ◌^◌};
    ghost use Rattle.rds_code.specs.Inside.BurstShape.{IsShape, shape_of, shift_of};

    ghost Value = { ℕ };

    ghost view = { λ b. b.shape * 2 ^ b.shift };

    ghost invariant = { λ b. IsShape b.shape b.shift };

    ghost inverse = { λ p. record { shape = shape_of p; shift = shift_of p } };

    ghost inverse_ok = { λ b h i. record { shape = h.shape_again i; shift = h.shift_again i } };
}

impl Burst {
    ghost use Rattle.std.specs.{Prelude.◌≤◌, Int.Count.ones};
    ghost use Rattle.rds_code.specs.{Bursts.burst_length, Bursts.IsBurst, Outcomes.burst_outcome};

    /// The burst whose ones are those of `pattern`.
    pub(crate) fn new(pattern: u32) -> Burst
        requires { IsBurst 5 pattern }
        ensures { result ≡ pattern }
    {
        let shift = pattern.trailing_zeros();
        Burst {
            shape: (pattern >> shift) as u8,
            shift: shift as u8,
        }
    }

    /// The places that it inverts, as the ones of a word of 26 bits.
    pub fn pattern(self) -> u32
        ensures value { result ≡ self }
        ensures burst { IsBurst 5 self }
    {
        u32::from(self.shape) << self.shift
    }

    /// How many places it spans, from its highest one to its lowest: 1 to 5.
    pub fn span(self) -> u8
        ensures value { result ≡ burst_length self }
        ensures least { 1 ≤ result }
        ensures most { result ≤ 5 }
    {
        (8 - self.shape.leading_zeros()) as u8
    }

    /// How many bits it inverts: 1 to 5.
    pub fn ones(self) -> u8
        ensures value { result ≡ ones self }
        ensures least { 1 ≤ result }
        ensures most { result ≤ 5 }
    {
        self.shape.count_ones() as u8
    }

    /// Which of the eleven pairs of a span and a number of ones it has: 3 to 13, by the span and then by the ones. This
    /// project's rule.
    pub fn outcome(self) -> u8
        ensures value { result ≡ burst_outcome (burst_length self) (ones self) }
        ensures least { 3 ≤ result }
        ensures most { result ≤ 13 }
    {
        let span = self.span();
        (span - 1) * span.saturating_sub(2) / 2 + self.ones() + 2
    }
}

// Equality compares patterns, as clauses do.
impl PartialEq for Burst {
    ghost eq = { ◌==◌ };

    ghost laws = { Prim.search (comparing, rules) };

    fn eq(&self, other: &Burst) -> bool {
        self.pattern() == other.pattern()
    }
}

impl Eq for Burst {
    ghost laws = { Prim.search (comparing, rules) };
}
