//! The rules by which sync is acquired, kept and lost.

ghost use Rattle.std.specs.Prelude.{◌≡◌, ◌≢◌, ◌<◌, ◌≤◌, ◌⊎◌, ◌↔◌, ◌^◌, IfErr, IfOk, IfSome, IsErrOf};
ghost use Rattle.rds_code.specs.{Outcomes.outcome_number, declared.reading.Wanted.TheVariants.Either};
ghost use Rattle.rds_stream.specs.Recording.{reading_heard};
ghost use Rattle.rds_sync.specs.{Groups.wanted_beside, Ranges.IsInRange, Ranges.IsOfRules, Ranges.IsRunOutside, Ranges.IsShareOutside, Ranges.farthest_reach, Ranges.longest_burst, Ranges.most_blocks, declared.item.Block.TheVariants.Read, declared.loss.Loss.TheVariants.Run, declared.loss.Loss.TheVariants.Share};

use crate::loss::Loss;
use rds_code::{BlockNumber, BurstLimit, BurstTable, Outcomes, RdsError, Reading, Wanted};
use rds_stream::read_heard;
use std::alloc::Global;
use std::marker::Model;

const FARTHEST_REACH: u32 = 8;

/// The numbers of a synchroniser's rules.
#[derive(Clone, Copy, Debug, PartialEq, Eq)]
pub struct RuleNumbers {
    /// The longest burst that is corrected, in bits: 0 to 5.
    pub burst: u32,
    /// How many blocks back a partner is looked for while acquiring: 1 to 8.
    pub reach: u32,
    /// When a lock is lost.
    pub loss: Loss,
}

/// The rules of a synchroniser: their numbers, with the table of bursts that its corrections are
/// looked up in, and that of the outcomes of blocks. Building them takes memory; using them takes none.
#[derive(Drop)]
pub struct Rules {
    numbers: RuleNumbers,
    table: BurstTable,
    outcomes: Outcomes,
}

impl Model for Rules {
    ghost use Rattle.rds_sync.specs.{Rules.RuleNumbers, Ranges.IsInRange};
    ghost use Rattle.std.specs.Prelude.{◌≡◌};

    ghost Value = { RuleNumbers };

    ghost view = { λ r. r.numbers };

    ghost invariant = { λ r. IsInRange r.numbers × (r.outcomes ≡ r.numbers.burst) };
}

impl Rules {
    /// Rules of these numbers.
    ///
    /// Refuses a burst, then a reach, then a loss or a share out of its range. Otherwise it fails only if
    /// memory is refused.
    pub fn of(alloc: Global, numbers: RuleNumbers) -> Result<Rules, RdsError>
        ensures numbers { IfOk result (λ rules. rules ≡ numbers) }

        ensures burst_range { IsErrOf result RdsError.BurstRange ↔ (longest_burst < numbers.burst) }
        ensures reach_range { IsErrOf result RdsError.ReachRange
            ↔ ((numbers.burst ≤ longest_burst) × ((numbers.reach < 1) ⊎ (farthest_reach < numbers.reach))) }
        ensures loss_range { IsErrOf result RdsError.LossRange
            ↔ ((numbers.burst ≤ longest_burst) × (1 ≤ numbers.reach) × (numbers.reach ≤ farthest_reach)
            × IsRunOutside numbers.loss) }
        ensures share_range { IsErrOf result RdsError.ShareRange
            ↔ ((numbers.burst ≤ longest_burst) × (1 ≤ numbers.reach) × (numbers.reach ≤ farthest_reach)
            × IsShareOutside numbers.loss) }
        ensures only { IfErr result IsOfRules }
    {
        let Some(limit) = BurstLimit::new(numbers.burst) else {
            return Err(RdsError::BurstRange);
        };
        if numbers.reach < 1 || numbers.reach > FARTHEST_REACH {
            return Err(RdsError::ReachRange);
        }
        numbers.loss.check()?;
        let table = BurstTable::new(alloc)?;
        let outcomes = Outcomes::new(alloc, &table, limit)?;
        Ok(Rules {
            numbers,
            table,
            outcomes,
        })
    }

    /// Rules that correct bursts of up to `burst` bits (0 to 5), acquire if a fitting block is up to `reach`
    /// blocks back (1 to 8), and lose a lock after `loss` bad blocks in a row (1 to 64).
    ///
    /// Refuses a burst, then a reach, then a loss out of its range. Otherwise it fails only if memory is
    /// refused.
    pub fn new(alloc: Global, burst: u32, reach: u32, loss: u32) -> Result<Rules, RdsError>
        ensures numbers { IfOk result (λ rules. (rules.burst ≡ burst) × (rules.reach ≡ reach)
            × (rules.loss ≡ Run loss)) }

        ensures burst_range { IsErrOf result RdsError.BurstRange ↔ (longest_burst < burst) }
        ensures reach_range { IsErrOf result RdsError.ReachRange
            ↔ ((burst ≤ longest_burst) × ((reach < 1) ⊎ (farthest_reach < reach))) }
        ensures loss_range { IsErrOf result RdsError.LossRange
            ↔ ((burst ≤ longest_burst) × (1 ≤ reach) × (reach ≤ farthest_reach)
            × ((loss < 1) ⊎ (most_blocks < loss))) }
        ensures only { IfErr result IsOfRules }
        ensures no_share_range { IfErr result (λ e. e ≢ RdsError.ShareRange) }
    {
        Rules::of(
            alloc,
            RuleNumbers {
                burst,
                reach,
                loss: Loss::Run(loss),
            },
        )
    }

    /// Rules that correct and acquire as those of [`new`](Rules::new), and lose a lock if `bad` of the last
    /// `of` blocks read in it are bad (1 ≤ bad ≤ of ≤ 64).
    ///
    /// Refuses a burst, then a reach, then a share out of its range. Otherwise it fails only if memory is
    /// refused.
    pub fn with_share(
        alloc: Global,
        burst: u32,
        reach: u32,
        bad: u32,
        of: u32,
    ) -> Result<Rules, RdsError>
        ensures numbers { IfOk result (λ rules. (rules.burst ≡ burst) × (rules.reach ≡ reach)
            × (rules.loss ≡ Share bad of)) }

        ensures burst_range { IsErrOf result RdsError.BurstRange ↔ (longest_burst < burst) }
        ensures reach_range { IsErrOf result RdsError.ReachRange
            ↔ ((burst ≤ longest_burst) × ((reach < 1) ⊎ (farthest_reach < reach))) }
        ensures share_range { IsErrOf result RdsError.ShareRange
            ↔ ((burst ≤ longest_burst) × (1 ≤ reach) × (reach ≤ farthest_reach)
            × ((bad < 1) ⊎ (of < bad) ⊎ (most_blocks < of))) }
        ensures only { IfErr result IsOfRules }
        ensures no_loss_range { IfErr result (λ e. e ≢ RdsError.LossRange) }
    {
        Rules::of(
            alloc,
            RuleNumbers {
                burst,
                reach,
                loss: Loss::Share { bad, of },
            },
        )
    }

    /// The numbers of these rules.
    pub fn numbers(&self) -> RuleNumbers
        ensures value { result ≡ self.now }
        ensures range { IsInRange self.now }
    {
        let Rules { numbers, .. } = self;
        *numbers
    }

    /// The longest burst that is corrected, in bits: 0 to 5.
    pub fn burst(&self) -> u32
        ensures value { result ≡ self.now.burst }
        ensures range { IsInRange self.now }
    {
        self.numbers.burst
    }

    /// How many blocks back a partner is looked for while acquiring: 1 to 8.
    pub fn reach(&self) -> u32
        ensures value { result ≡ self.now.reach }
        ensures range { IsInRange self.now }
    {
        self.numbers.reach
    }

    /// When a lock is lost.
    pub fn loss(&self) -> Loss
        ensures value { result ≡ self.now.loss }
        ensures range { IsInRange self.now }
    {
        self.numbers.loss
    }

    /// The window that was heard, read as the block of this number, corrected if these rules allow it.
    #[inline]
    pub(crate) fn read(&self, heard: Option<u32>, number: BlockNumber, wanted: Wanted) -> Reading
        requires { IfSome heard (λ window. window < 2 ^ 26) }
        ensures { result ≡ reading_heard heard number wanted self.now.burst }
    {
        read_heard(&self.table, heard, number, wanted, self.outcomes.limit())
    }

    /// The offsets that are tried for block 3 beside the block 2 that was heard.
    #[inline(always)]
    pub(crate) fn wanted_beside(&self, second: Option<u32>) -> Wanted
        requires { IfSome second (λ window. window < 2 ^ 26) }
        ensures { result ≡ wanted_beside (Read (reading_heard second 2 Either self.now.burst)) }
    {
        match second {
            Some(window) => self.outcomes.wanted_after(window),
            None => Wanted::Either,
        }
    }

    /// The outcome of that reading, which takes less time.
    #[inline(always)]
    pub(crate) fn outcome(&self, heard: Option<u32>, number: BlockNumber, wanted: Wanted) -> u16
        requires { IfSome heard (λ window. window < 2 ^ 26) }
        ensures value { result ≡ outcome_number (reading_heard heard number wanted self.now.burst) }
        ensures most { result ≤ 13 }
    {
        match heard {
            Some(window) => u16::from(self.outcomes.of_block(window, number, wanted)),
            None => u16::from(Outcomes::LOST),
        }
    }
}
