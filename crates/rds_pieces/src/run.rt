//! The run of a piece.
ghost use Rattle.std.specs.Prelude.{◌≡◌, ◌-◌, ◌<◌, ◌≤◌, ◌^◌, IfOk, IsOkUnless};
ghost use Rattle.rds_stream.specs.Recording.{length_of};
ghost use Rattle.rds_sync.specs.{Decoding.listed, Ranges.IsInRange, Totals.totals_of};
ghost use Rattle.rds_pieces.specs.{Cutting.IsCutting, Cutting.pieces_of, Guess.guess, Marks.marks_of, RunOf.run_at, RunOf.run_over, Inside.RunInside.IsKept};
ghost use Rattle.rds_code.specs.declared.error.RdsError.TheVariants.{OutOfMemory};

use crate::cutting::Cutting;
use crate::marks::Marks;
use rds_code::RdsError;
use rds_stream::Recording;
use rds_sync::{ItemIter, Items, Report, Rules, Spans, State, Totals, run_report};
use std::alloc::Global;
use std::marker::Model;

/// The guess of a range of places, for the recording and the rules that its items name: the result of a run
/// from Searching at the range's first place. It keeps its totals, its end state and the spans of its items.
/// Contracts see the recording's bits, the rules' numbers and the range. It borrows nothing and holds nothing
/// of the recording.
#[derive(Drop)]
pub struct PieceRun {
    from: u64,
    to: u64,
    report: Report,
    end_state: State,
    cut: Spans,
}

impl Model for PieceRun {
    ghost use Rattle.rds_pieces.specs.{RunOf.RunOf, RunOf.run_over, Inside.RunInside.IsKept};

    ghost Value = { RunOf };

    ghost view = { λ r. run_over r.report.items.source r.report.items.rules r.from r.to };

    ghost invariant = { λ r. IsKept
        (run_over r.report.items.source r.report.items.rules r.from r.to) r.report r.end_state };
}

impl PieceRun {
    /// A run of these parts, whose seams cut their way into such spans.
    pub(crate) fn new(from: u64, to: u64, report: Report, end_state: State, cut: Spans) -> PieceRun
        requires { IsKept (run_over report.items.source report.items.rules from to) report end_state }
        ensures { result ≡ run_over report.items.source report.items.rules from to }
    {
        PieceRun {
            from,
            to,
            report,
            end_state,
            cut,
        }
    }

    /// The spans of its items, into which a seam cuts its way along it.
    pub(crate) fn cut(&self) -> Spans {
        self.cut
    }

    /// The piece's first place, which is not after its end, and that is in the recording.
    pub fn from(&self) -> u64
        ensures value { result ≡ self.now.from }
        ensures inside { (self.now.from ≤ self.now.to) × (self.now.to ≤ length_of self.now.source) }
    {
        self.from
    }

    /// The place after the piece's last.
    pub fn to(&self) -> u64
        ensures { result ≡ self.now.to }
    {
        self.to
    }

    /// The range, with the bounds on the reads over it.
    pub(crate) fn range(&self) -> (u64, u64)
        ensures first { result.0 ≡ self.now.from }
        ensures end { result.1 ≡ self.now.to }
        ensures inside { (self.now.from ≤ self.now.to) × (self.now.to ≤ length_of self.now.source) }
        ensures few { length_of self.now.source ≤ 2 ^ 36 }
        ensures rules { IsInRange self.now.rules }
    {
        (self.from, self.to)
    }

    /// The items that the bits of the piece give, in order, of the recording and by the rules that it is of.
    pub fn items<'a>(&'a self, rec: &'a Recording, rules: &'a Rules) -> ItemIter<'a>
        requires source { self.now.source ≡ rec.now }
        requires rules { self.now.rules ≡ rules.now }
        ensures { result ≡ (guess self.now.source self.now.rules self.now.from
            (self.now.to - self.now.from)).1 }
    {
        self.report.items.iter(rec, rules)
    }

    /// The marks: the piece's first place, and the place after each bit that gave an item, with the state there. There
    /// another run may meet it. They are decoded one by one.
    pub fn marks<'a>(&self, rec: &'a Recording, rules: &'a Rules) -> Marks<'a>
        requires source { self.now.source ≡ rec.now }
        requires rules { self.now.rules ≡ rules.now }
        ensures { result
            ≡ marks_of self.now.source self.now.rules State.Searching self.now.from
            (self.now.to - self.now.from) }
    {
        Marks::over(rec, rules, self.from, self.to)
    }

    /// The list of these items.
    pub fn list(&self) -> &Items
        ensures { result.now ≡ listed self.now.source self.now.rules
            (guess self.now.source self.now.rules self.now.from (self.now.to - self.now.from)).1 }
    {
        &self.report.items
    }

    /// The totals of these items.
    pub fn totals(&self) -> Totals
        ensures { result
            ≡ totals_of (guess self.now.source self.now.rules self.now.from (self.now.to - self.now.from)).1 }
    {
        self.report.totals
    }

    /// The state after the piece's last bit.
    pub fn end_state(&self) -> State
        ensures { result ≡ (guess self.now.source self.now.rules self.now.from
            (self.now.to - self.now.from)).0 }
    {
        self.end_state
    }
}

/// Guesses piece `j` of a cutting: runs from Searching at its first place to its end, as if nothing came
/// before. Its windows may look before that place. Its only error is `OutOfMemory`.
///
/// Its cost: the piece is gone over once, as by [`run_report`]. It takes memory for the spans of its items.
pub fn speculate(
    alloc: Global,
    rec: &Recording,
    rules: &Rules,
    cutting: &Cutting,
    j: u64,
) -> Result<PieceRun, RdsError>
    requires fits { IsCutting (length_of rec.now) cutting.now }
    requires piece { j < pieces_of cutting.now }
    ensures ok { IfOk result (λ r. r ≡ run_at rec.now rules.now cutting.now j) }
    ensures err { IsOkUnless result OutOfMemory }
{
    speculate_into(alloc, rec, rules, cutting, j, Spans::Short)
}

/// The same, with its items in such spans.
#[tactic(auto, using(std::proofs::lemmas::Grind::common_steps, crate::proofs::CuttingLemmas::range_inside))]
pub(crate) fn speculate_into(
    alloc: Global,
    rec: &Recording,
    rules: &Rules,
    cutting: &Cutting,
    j: u64,
    cut: Spans,
) -> Result<PieceRun, RdsError>
    requires fits { IsCutting (length_of rec.now) cutting.now }
    requires piece { j < pieces_of cutting.now }
    ensures ok { IfOk result (λ r. r ≡ run_at rec.now rules.now cutting.now j) }
    ensures err { IsOkUnless result OutOfMemory }
{
    let (from, to) = (cutting.from(j), cutting.to(j));
    let len = rec.len();
    prove!(to <= len);
    prove!(1 <= rules.reach());
    let Ok((end_state, report)) = run_report(alloc, rec, rules, State::Searching, from, to, cut)
    else {
        return Err(RdsError::OutOfMemory);
    };
    Ok(PieceRun::new(from, to, report, end_state, cut))
}
