ghost use Rattle.std.specs.Prelude.{◌≡◌, ℕ, ◌*◌, ◌%◌, ◌^◌, ◌<◌, ◌≤◌, length, IfOk, replicate};
ghost use Rattle.rds_code.specs.{Remainder.rem, Bursts.IsBurst, Inside.BurstTable.IsSound, Inside.BurstTable.HasBurst};

use crate::block::BLOCK_BITS;
use crate::burst::Burst;
use crate::burst_limit::BurstLimit;
use crate::error::RdsError;
use crate::remainder::rem26;
use std::alloc::{AllocError, Global};
use std::marker::Model;

/// The bursts of up to five bits by their remainders (EN 50067:1998, Annex B).
///
/// Their remainders differ, so that a remainder tells its burst. All tables are alike: clauses see nothing of one.
#[derive(Debug, Drop)]
pub struct BurstTable {
    patterns: Vec<u32>,
}

impl Model for BurstTable {
    ghost use Rattle.std.specs.Prelude.{◌≡◌};
    ghost use Rattle.rds_code.specs.Inside.BurstTable.{IsBurstTable};

    ghost Value = { Unit {0} };

    ghost view = { λ _. tt };

    ghost invariant = { λ t. IsBurstTable t.patterns.items };
}

impl BurstTable {
    ghost use Rattle.std.specs.Prelude.{IfSome, IsOkUnless, None};
    ghost use Rattle.rds_code.specs.{Remainder.rem, Bursts.IsBurst};

    /// The table, in one growth of 4,096 bytes. Its type keeps its contents. Fails only with `OutOfMemory`.
    pub fn new(alloc: Global) -> Result<BurstTable, RdsError>
        ensures only_memory { IsOkUnless result RdsError.OutOfMemory }
    {
        let mut patterns = no_bursts(alloc)?;
        enter_all(&mut patterns);
        Ok(BurstTable { patterns })
    }

    /// The burst within `limit` whose remainder is `remainder`, below 1024, or none (EN 50067:1998, Annex B). There is none
    /// for limit 0, nor for remainder 0.
    #[tactic(auto, using(std::proofs::lemmas::Grind::common_steps, crate::proofs::BurstLemmas::rem_burst))]
    pub fn find(&self, remainder: u16, limit: BurstLimit) -> Option<Burst>
        requires { remainder < 1024 }
        ensures burst { IfSome result (λ e. IsBurst limit e) }
        ensures fits { IfSome result (λ e. rem e ≡ remainder) }
        ensures only { IfSome result (λ e. (d : ℕ) → IsBurst 5 d → rem d ≡ remainder → d ≡ e) }
        ensures none { result ≡ None → (d : ℕ) → IsBurst limit d → rem d ≡ remainder → ⊥ }
        ensures zero { remainder ≡ 0 → result ≡ None }
        ensures limit { limit ≤ 5 }
    {
        let pattern = self.patterns[remainder as usize];
        if pattern == 0 {
            return None;
        }
        let burst = Burst::new(pattern);
        if burst.span() <= limit.bits() {
            Some(burst)
        } else {
            None
        }
    }
}

/// A table without bursts.
fn no_bursts(alloc: Global) -> Result<Vec<u32>, AllocError>
    ensures { IfOk result (λ patterns. patterns.items ≡ replicate 1024 0) }
{
    vec![in alloc; 0u32; 1024]
}

/// Enters each burst of up to five bits into an empty table.
fn enter_all(patterns: &mut [u32])
    requires long { length patterns.old ≡ 1024 }
    requires sound { IsSound patterns.old }
    ensures sound { IsSound patterns.new }
    ensures complete { (e : ℕ) → IsBurst 5 e → HasBurst patterns.new e }
{
    for half in 0..16u32 {
        enter_shifts(patterns, 2 * half + 1);
    }
}

/// Enters an odd pattern of up to five bits at each shift that stays in a block.
fn enter_shifts(patterns: &mut [u32], pattern: u32)
    requires long { length patterns.old ≡ 1024 }
    requires odd { pattern % 2 ≡ 1 }
    requires short { pattern < 32 }
    requires sound { IsSound patterns.old }
    ensures sound { IsSound patterns.new }
    ensures entered { (shift : ℕ) → shift < 26 → pattern * 2 ^ shift < 2 ^ 26
        → HasBurst patterns.new (pattern * 2 ^ shift) }
    ensures kept { (e : ℕ) → IsBurst 5 e → HasBurst patterns.old e → HasBurst patterns.new e }
{
    for shift in 0..BLOCK_BITS {
        let burst = pattern << shift;
        if burst < 1 << BLOCK_BITS {
            enter(patterns, burst);
        }
    }
}

/// Enters one burst.
fn enter(patterns: &mut [u32], burst: u32)
    requires long { length patterns.old ≡ 1024 }
    requires burst { IsBurst 5 burst }
    requires sound { IsSound patterns.old }
    ensures sound { IsSound patterns.new }
    ensures entered { HasBurst patterns.new burst }
    ensures kept { (e : ℕ) → IsBurst 5 e → HasBurst patterns.old e → HasBurst patterns.new e }
{
    patterns[rem26(burst) as usize] = burst;
}
