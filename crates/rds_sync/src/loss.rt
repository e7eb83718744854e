//! The rule of loss: a lock's history of bad blocks, and when they lose it.

ghost use Rattle.std.specs.Prelude.{◌≡◌, true, false, ◌≤◌, ◌<◌, ◌↔◌, ◌+◌, ◌*◌, ◌%◌, ◌^◌, ◌⊎◌, IsTrue, IsErrOf, IfOk, IfErr, if◌then◌else◌};
ghost use Rattle.rds_sync.specs.Loss.{bad_after, are_too_many, IsLawfulBad};
ghost use Rattle.rds_sync.specs.Ranges.{IsLossInRange, IsRunOutside, IsShareOutside};

use rds_code::RdsError;

/// The most blocks that a rule of loss looks at: a mask has a bit for each.
const MOST_BLOCKS: u32 = 64;

/// When a lock is lost. This project's rules: the standard leaves them to the receiver.
#[derive(Clone, Copy, Debug, PartialEq, Eq)]
pub enum Loss {
    /// After this many bad blocks in a row: 1 to 64.
    Run(u32),
    /// If `bad` of the last `of` blocks are bad: 1 ≤ bad ≤ of ≤ 64.
    Share { bad: u32, of: u32 },
}

/// The history of bad blocks of a lock, by the kind of its rule.
#[derive(Clone, Copy)]
pub enum Bad {
    /// By `Loss::Run`: how many were bad in a row.
    Run(u8),
    /// By `Loss::Share`: a mask of the last ones, in which 1 is a bad one and the newest is the lowest bit.
    Mask(u64),
}

/// History of a fresh lock: 0 under both rules.
pub(crate) const NONE_BAD: u64 = 0;

impl Loss {
    /// Refuses a rule that is out of its range.
    pub(crate) fn check(self) -> Result<(), RdsError>
        ensures ok { IfOk result (λ _. IsLossInRange self) }
        ensures err { IfErr result (λ e. (e ≡ RdsError.LossRange) ⊎ (e ≡ RdsError.ShareRange)) }
        ensures run { IsErrOf result RdsError.LossRange ↔ IsRunOutside self }
        ensures share { IsErrOf result RdsError.ShareRange ↔ IsShareOutside self }
    {
        match self {
            Loss::Run(loss) if loss < 1 || loss > MOST_BLOCKS => Err(RdsError::LossRange),
            Loss::Share { bad, of } if bad < 1 || of < bad || of > MOST_BLOCKS => Err(
                RdsError::ShareRange,
            ),
            _ => Ok(()),
        }
    }

    /// Whether one bad block is known to lose a lock.
    pub(crate) fn loses_by_one(self) -> bool
        requires { IsLossInRange self }
        ensures { result ≡ true → are_too_many self (bad_after self false 0) ≡ true }
    {
        match self {
            Loss::Run(1) => true,
            Loss::Share { bad: 1, .. } => true,
            _ => false,
        }
    }

    /// The history after one more block: how many were bad in a row, or a mask of the last ones.
    pub(crate) fn bad_after(self, good: bool, bad: u64) -> u64
        requires range { IsLossInRange self }
        requires lawful { IsLawfulBad self bad }
        ensures { result ≡ bad_after self good bad }
    {
        match self {
            Loss::Run(_) => if good { 0 } else { bad + 1 },
            Loss::Share { of, .. } => mask_after(bad, good, of),
        }
    }

    /// Whether these bad blocks lose the lock.
    pub(crate) fn are_too_many(self, bad: u64) -> bool
        ensures { result ≡ are_too_many self bad }
    {
        match self {
            Loss::Run(most) => u64::from(most) <= bad,
            Loss::Share { bad: most, .. } => most <= bad.count_ones(),
        }
    }

    /// Whether a lock that is not lost can have these bad blocks.
    pub(crate) fn is_lawful_bad(self, bad: u64) -> bool
        requires { IsLossInRange self }
        ensures { IsTrue result ↔ IsLawfulBad self bad }
    {
        match self {
            Loss::Run(most) => bad < u64::from(most),
            Loss::Share { bad: most, of } => is_mask_of(bad, of) && bad.count_ones() < most,
        }
    }
}

/// The mask of the last `of` blocks, with one block more.
pub(crate) fn mask_after(mask: u64, good: bool, of: u32) -> u64
    requires some { 1 ≤ of }
    requires few { of ≤ 64 }
    ensures { result ≡ (2 * mask + (if good then 0 else 1)) % 2 ^ of }
{
    let newest = if good { 0 } else { 1 };
    ((mask << 1) + newest) & (u64::MAX >> (64 - of))
}

/// Whether a mask has only the last `of` blocks.
fn is_mask_of(mask: u64, of: u32) -> bool
    requires some { 1 ≤ of }
    requires few { of ≤ 64 }
    ensures { IsTrue result ↔ (mask < 2 ^ of) }
{
    mask <= u64::MAX >> (64 - of)
}
