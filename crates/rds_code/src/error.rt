//! Why a call is refused. The crates from blocks to listings share this type.
ghost use Rattle.std.specs.Prelude.{◌≡◌};
ghost use Rattle.rds_code.specs.declared.error.RdsError.TheVariants.{OutOfMemory};

use std::alloc::{AllocError, AllocFailed};
use thiserror::Error;

/// Why a call is refused, here and in the crates above. Each refusal has a number and a name, which never change:
/// this project's rule.
#[derive(Clone, Copy, Debug, PartialEq, Eq, Error)]
pub enum RdsError {
    /// The longest burst to be corrected is above 5 bits.
    #[error("the burst is above 5 bits")]
    BurstRange,
    /// The reach of acquiring is not 1 to 8 blocks.
    #[error("the reach is not 1 to 8 blocks")]
    ReachRange,
    /// The loss is not 1 to 64 blocks.
    #[error("the loss is not 1 to 64 blocks")]
    LossRange,
    /// More bits are claimed than the bytes hold.
    #[error("more bits are claimed than the bytes hold")]
    BitsPastBytes,
    /// The recording has more than 2^36 bits.
    #[error("the recording has more than 2^36 bits")]
    TooLong,
    /// The places of the cuts don't cut the recording, or an even cutting is asked for with no piece.
    #[error("the cuts are no cutting of the recording")]
    BadCutting,
    /// The workers of a crew, or the seats of a dealer, are not 1 to 256.
    #[error("the workers or seats are not 1 to 256")]
    CrewRange,
    /// The system refused memory.
    #[error("out of memory")]
    OutOfMemory,
    /// The reader failed.
    #[error("the reader failed")]
    Read,
    /// The writer failed.
    #[error("the writer failed")]
    Write,
    /// The hexadecimal input has an odd number of digits or a strange byte.
    #[error("the input is no hexadecimal text")]
    HexText,
    /// A line to be encoded isn't empty and isn't sixteen hexadecimal digits.
    #[error("a line is no group of sixteen digits")]
    GroupText,
    /// The reader gave bytes 16,777,216 times, and no end had come.
    #[error("the input has no end")]
    TooManyTurns,
    /// Never answered: a job goes on without a thread that the system refuses.
    #[error("a thread was not started")]
    NoWorker,
    /// The share is not 1 ≤ bad ≤ of ≤ 64.
    #[error("the share is not 1 to 64 bad blocks of as many or more, up to 64")]
    ShareRange,
    /// A gap is empty, out of order or past the end.
    #[error("the gaps are none that the recording may have")]
    BadGaps,
}

impl RdsError {
    ghost use Rattle.rds_code.specs.Refusals.{number_of, name_of};

    /// The number of the refusal: 1 to 16.
    pub fn number(self) -> u8
        ensures { result ≡ number_of self }
    {
        self.number_and_name().0
    }

    /// The name of the refusal, as the program prints it after the number.
    pub fn name(self) -> &'static str
        ensures { result.now ≡ name_of self }
    {
        self.number_and_name().1
    }

    fn number_and_name(self) -> (u8, &'static str)
        ensures number { result.0 ≡ number_of self }
        ensures name { result.1.now ≡ name_of self }
    {
        match self {
            RdsError::BurstRange => (1, "BurstRange"),
            RdsError::ReachRange => (2, "ReachRange"),
            RdsError::LossRange => (3, "LossRange"),
            RdsError::BitsPastBytes => (4, "BitsPastBytes"),
            RdsError::TooLong => (5, "TooLong"),
            RdsError::BadCutting => (6, "BadCutting"),
            RdsError::CrewRange => (7, "CrewRange"),
            RdsError::OutOfMemory => (8, "OutOfMemory"),
            RdsError::Read => (9, "Read"),
            RdsError::Write => (10, "Write"),
            RdsError::HexText => (11, "HexText"),
            RdsError::GroupText => (12, "GroupText"),
            RdsError::TooManyTurns => (13, "TooManyTurns"),
            RdsError::NoWorker => (14, "NoWorker"),
            RdsError::ShareRange => (15, "ShareRange"),
            RdsError::BadGaps => (16, "BadGaps"),
        }
    }
}

impl From<AllocError> for RdsError {
    ghost from_gives = { λ _ error. error ≡ OutOfMemory };

    fn from(_error: AllocError) -> RdsError {
        RdsError::OutOfMemory
    }
}

impl<T: Drop> From<AllocFailed<T>> for RdsError {
    ghost from_gives = { λ _ error. error ≡ OutOfMemory };

    fn from(_error: AllocFailed<T>) -> RdsError {
        RdsError::OutOfMemory
    }
}
