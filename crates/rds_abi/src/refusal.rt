//! The errors of the calls.

ghost use Rattle.std.specs.Prelude.{◌≡◌, IfSome, None};
ghost use Rattle.rds_abi.specs.declared.refusal.Refusal.TheVariants.{OutOfMemory};

use std::alloc::AllocError;
use thiserror::Error;

/// A refusal. Those of the decoder have the numbers and names that the program gives them; those of only the
/// library have numbers from 64 on. None ever changes.
#[derive(Clone, Copy, Debug, PartialEq, Eq, Error)]
pub enum Refusal {
    /// The longest burst to be corrected is above 5 bits.
    #[error("the burst limit is above 5")]
    BurstRange,
    /// The reach is not 1 to 8 blocks.
    #[error("the reach is not 1 to 8")]
    ReachRange,
    /// The loss is not 1 to 64 blocks.
    #[error("the loss is not 1 to 64")]
    LossRange,
    /// More bits were claimed than the bytes hold.
    #[error("more bits than the bytes hold")]
    BitsPastBytes,
    /// A recording holds at most 2^36 bits.
    #[error("more than 2^36 bits")]
    TooLong,
    /// Memory was refused.
    #[error("out of memory")]
    OutOfMemory,
    /// The share is not `loss` of the last `of` blocks, 1 ≤ loss ≤ of ≤ 64.
    #[error("the share is not 1 to 64 bad blocks of as many or more, up to 64")]
    ShareRange,
    /// The gaps of a recording each have a place, are within its bits, and begin at or after the end of the one before.
    #[error("gaps that are empty, out of order or past the bits")]
    BadGaps,
    /// There is too little room for the items. How many there are was told.
    #[error("too little room for the items")]
    SmallRoom,
    /// The state is none that a call can have left.
    #[error("a state that no call left")]
    UnlawfulState,
    /// The places are no range of the recording.
    #[error("places that are no range of the recording")]
    PlaceRange,
    /// A word has more than 26 bits.
    #[error("a word of more than 26 bits")]
    BlockRange,
    /// A number that is none of an offset.
    #[error("a number that is none of an offset")]
    OffsetRange,
    /// A number that is none of a refusal.
    #[error("a number that is none of a refusal")]
    NoRefusal,
    /// A reserved field of the rules is not 0.
    #[error("a reserved field that is not 0")]
    ReservedField,
    /// The margin is not 1 to 127.
    #[error("the margin is not 1 to 127")]
    MarginRange,
}

impl Refusal {
    ghost use Rattle.rds_abi.specs.Refusals.{number_of, name_of};

    /// The number of the refusal, never 0.
    pub fn number(self) -> u8
        ensures { result ≡ number_of self }
    {
        self.number_and_name().0
    }

    /// The refusal of this number, or none.
    pub fn of_number(number: u8) -> Option<Refusal>
        ensures some { IfSome result (λ refusal. number_of refusal ≡ number) }
        ensures none { result ≡ None → (refusal : Refusal) → number_of refusal ≡ number → ⊥ }
    {
        match number {
            1 => Some(Refusal::BurstRange),
            2 => Some(Refusal::ReachRange),
            3 => Some(Refusal::LossRange),
            4 => Some(Refusal::BitsPastBytes),
            5 => Some(Refusal::TooLong),
            8 => Some(Refusal::OutOfMemory),
            15 => Some(Refusal::ShareRange),
            16 => Some(Refusal::BadGaps),
            64 => Some(Refusal::SmallRoom),
            65 => Some(Refusal::UnlawfulState),
            66 => Some(Refusal::PlaceRange),
            67 => Some(Refusal::BlockRange),
            68 => Some(Refusal::OffsetRange),
            69 => Some(Refusal::NoRefusal),
            71 => Some(Refusal::ReservedField),
            75 => Some(Refusal::MarginRange),
            _ => None,
        }
    }

    /// The name of the refusal.
    pub fn name(self) -> &'static str
        ensures { result.now ≡ name_of self }
    {
        self.number_and_name().1
    }

    fn number_and_name(self) -> (u8, &'static str)
        ensures number { result.0 ≡ number_of self }
        ensures name { result.1.now ≡ name_of self }
    {
        match self {
            Refusal::BurstRange => (1, "BurstRange"),
            Refusal::ReachRange => (2, "ReachRange"),
            Refusal::LossRange => (3, "LossRange"),
            Refusal::BitsPastBytes => (4, "BitsPastBytes"),
            Refusal::TooLong => (5, "TooLong"),
            Refusal::OutOfMemory => (8, "OutOfMemory"),
            Refusal::ShareRange => (15, "ShareRange"),
            Refusal::BadGaps => (16, "BadGaps"),
            Refusal::SmallRoom => (64, "SmallRoom"),
            Refusal::UnlawfulState => (65, "UnlawfulState"),
            Refusal::PlaceRange => (66, "PlaceRange"),
            Refusal::BlockRange => (67, "BlockRange"),
            Refusal::OffsetRange => (68, "OffsetRange"),
            Refusal::NoRefusal => (69, "NoRefusal"),
            Refusal::ReservedField => (71, "ReservedField"),
            Refusal::MarginRange => (75, "MarginRange"),
        }
    }
}

impl From<AllocError> for Refusal {
    ghost from_gives = { λ _ refusal. refusal ≡ OutOfMemory };

    fn from(_error: AllocError) -> Refusal {
        Refusal::OutOfMemory
    }
}
