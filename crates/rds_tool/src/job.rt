//! Jobs, and the other requests of a command line.
ghost use Rattle.std.specs.{Prelude.◌≡◌, Cmp.partial_equiv_from_equiv};
ghost use Rattle.rds_tool.specs.{CommandLine.warning_of, InputOf.says_same, InputOf.says_same_equiv};

use rds_soft::Margin;
use rds_sync::{Loss, RuleNumbers};
use std::marker::Model;

/// The recording that a job reads.
#[derive(Drop)]
pub struct Input {
    /// Whether the input is hexadecimal text, in which space, tab, carriage return and line feed don't
    /// count; else it is the recording's bytes themselves.
    pub hex: bool,
    /// How many bits the recording has; without it, all those of its bytes. More than 2^36 is refused as `TooLong`, more
    /// than the bytes hold as `BitsPastBytes`.
    pub bits: Option<u64>,
    /// The gaps in the recording: ranges of places whose bits mean nothing, each from its first number to
    /// before its second. Each has a place, is below the number of bits, and begins at or after the end of
    /// the one before it. Anything else is refused as `BadGaps`.
    pub gaps: Vec<(u64, u64)>,
}

impl Model for Input {
    ghost use Rattle.rds_tool.specs.InputOf.{InputOf};

    ghost Value = { InputOf };

    ghost view = { λ i. record { hex = i.hex; bits = i.bits; gaps = i.gaps.items } };
}

impl PartialEq for Input {
    ghost eq = { says_same };

    ghost laws = { partial_equiv_from_equiv says_same_equiv };

    fn eq(&self, other: &Input) -> bool {
        self.hex == other.hex && self.bits == other.bits && self.gaps == other.gaps
    }
}

impl Eq for Input {
    ghost laws = { says_same_equiv };
}

/// Where a recording is cut into pieces. The listing doesn't depend on it.
#[derive(PartialEq, Eq, Drop)]
pub enum Cuts {
    /// At most this number of pieces, of equal length except the last. `Even(0)` is refused as `BadCutting`.
    Even(u64),
    /// The places of the cuts: a cut at place p is just before bit p. They rise strictly, above 0 and below
    /// the number of bits, so a recording of at most one bit has none. Anything else is refused as
    /// `BadCutting`.
    At(Vec<u64>),
}

/// How synchronism is acquired, kept and lost, and who does the work. Settings outside their range are
/// refused, not clipped.
#[derive(PartialEq, Eq, Drop)]
pub struct Settings {
    /// The longest burst of errors that is corrected, in bits: 0 to 5.
    pub burst: u32,
    /// How many blocks back an acquiring block looks for another that fits it: 1 to 8.
    pub reach: u32,
    /// When a lock is lost: after 1 to 64 blocks in a row that are not valid, or when `bad` of the last `of`
    /// are not, with 1 ≤ bad ≤ of ≤ 64.
    pub loss: Loss,
    /// By how many threads at most the pieces are decoded, and the rows of a list made: 1 to 256. The listing doesn't depend
    /// on it.
    pub workers: u32,
    /// Where the recording is cut into pieces, each of which is decoded by one thread.
    pub cuts: Cuts,
}

/// The task for the bytes that a reader holds.
#[derive(PartialEq, Eq, Drop)]
pub enum Job {
    /// A row for each valid window of a recording: its place and its offset. The rows are made by at most
    /// this number of threads, 1 to 256 as for [`Settings::workers`], and don't depend on it.
    Scan(Input, u32),
    /// A row for each item of the recording's report, in the order of the bits that complete them, and then its twelve totals.
    List(Input, Settings),
    /// Only the twelve totals.
    Totals(Input, Settings),
    /// The list of symbols, which the bytes of the input are, each a signed byte: the report of their bits, each group read again
    /// from its symbols by this margin, and then its eighteen totals; or only the totals, without `rows`.
    Soft {
        input: Input,
        settings: Settings,
        margin: Margin,
        rows: bool,
    },
    /// The blocks of groups that are given as lines of sixteen hexadecimal digits, four words each;
    /// spaces, tabs and carriage returns don't count, and empty lines are skipped. A group is 13 bytes,
    /// or with `hex` a line of 26 lower-case digits.
    Encode {
        hex: bool,
    },
}

/// The request of a command line, and the option that it gives in vain.
#[derive(PartialEq, Eq, Drop)]
pub struct Asked {
    pub request: Request,
    /// The option that is ignored, of which the program warns.
    pub ignored: Option<Ignored>,
}

/// A job, or a stream.
#[derive(PartialEq, Eq, Drop)]
pub enum Request {
    /// A job, and whether the program is to tell how far it is. The job's text doesn't depend on it.
    Job {
        job: Job,
        progress: bool,
    },
    /// To follow a stream by these rules and at most this number of threads, each in the range that [`Settings`] has for it. The input
    /// is the bytes themselves, so `hex` is off.
    Follow(Input, RuleNumbers, u32),
    /// To follow a stream of symbols, which the bytes are, each a signed byte, by these rules and this margin. The number of threads is in
    /// the same range, and one does the work.
    FollowSoft {
        input: Input,
        rules: RuleNumbers,
        margin: Margin,
        workers: u32,
    },
}

/// An option of the rule of loss that the rule asked for leaves out.
#[derive(Clone, Copy, PartialEq, Eq)]
pub enum Ignored {
    /// `--loss` beside `--share`.
    Loss,
    /// `--of` without `--share`.
    Of,
}

impl Ignored {
    /// The warning of it.
    pub fn warning(self) -> &'static str
        ensures { result.now ≡ warning_of self }
    {
        match self {
            Ignored::Loss => "--loss is ignored with --share",
            Ignored::Of => "--of is ignored without --share",
        }
    }
}
