//! Why a command line asks for nothing.
ghost use Rattle.std.specs.Prelude.{◌≡◌};
ghost use Rattle.rds_tool.specs.declared.fault.NoJob.TheVariants.{Memory};

use std::alloc::AllocError;

/// Why words ask for nothing.
#[derive(Clone, Copy, PartialEq, Eq)]
pub enum FaultKind {
    /// Help was asked for.
    Help,
    /// The program's name and version were asked for.
    Version,
    /// The words aren't a command line.
    Words,
    /// A growth of memory was refused.
    Memory,
}

/// The text to show instead of doing a job.
#[derive(Drop)]
pub struct CliFault {
    /// Whether that text was asked for, or why the words were refused.
    pub kind: FaultKind,
    /// The text to show, its line ends included. It is empty if memory was refused.
    pub text: String,
}

/// Why entries ask for nothing.
#[derive(Clone, Copy)]
pub enum NoJob {
    /// `--gaps` spells no gaps.
    Gaps,
    /// `--hex` is given beside `--soft`.
    SoftHex,
    /// `--burst` is given beside `--soft`.
    SoftBurst,
    /// `--margin` is given without `--soft`.
    HardMargin,
    /// Another entry is none that a job or a stream has.
    Entries,
    /// A growth of memory was refused.
    Memory,
}

impl From<AllocError> for NoJob {
    ghost from_gives = { λ _ why. why ≡ Memory };

    fn from(_error: AllocError) -> NoJob {
        NoJob::Memory
    }
}
