//! The only way of a crew to the bits.
ghost use Rattle.std.specs.Prelude.{◌≡◌, ℕ, List, ◌<◌, length, IfOk, IsOkUnless};
ghost use Rattle.rds_stream.specs.Recording.{Signal, length_of};
ghost use Rattle.rds_sync.specs.{Decoding.listed, Report.report_items, Rules.RuleNumbers, Totals.totals_of};
ghost use Rattle.rds_pieces.specs.{Cutting.IsCutting, Cutting.pieces_of, Joining.AreNeighbours, RunOf.FollowEachOther, RunOf.run_at, RunOf.run_over};
ghost use Rattle.rds_code.specs.declared.error.RdsError.TheVariants.{OutOfMemory};

use crate::cutting::Cutting;
use crate::joining::join_over;
use crate::run::{PieceRun, speculate_into};
use crate::stitching::stitch;
use rds_code::RdsError;
use rds_stream::{Counted, Recording};
use rds_sync::{Report, Rules, Spans};
use std::alloc::Global;
use std::marker::Model;
use std::snapshot::Snapshot;

/// The decoding of one recording by one set of rules, piece by piece. Who is lent a work has no other way to the bits.
pub trait Work {
    /// The bits of the recording that it names.
    ghost recording: { Self → Signal };

    /// The rules that it names.
    ghost rule_set: { Self → RuleNumbers };

    /// The places of the cutting that it names.
    ghost places: { Self → List ℕ };

    /// The recording, only for contracts.
    fn source(&self) -> Snapshot<Recording>
        ensures { result.value ≡ recording self.now };

    /// The rules.
    fn rules(&self) -> &Rules
        ensures { result.now ≡ rule_set self.now };

    /// The cutting.
    fn cutting(&self) -> &Cutting
        ensures { result.now ≡ places self.now };

    /// The guess of piece `j`. Its only error is `OutOfMemory`.
    fn guess(&self, alloc: Global, j: u64) -> Result<PieceRun, RdsError>
        requires fits { IsCutting (length_of (recording self.now)) (places self.now) }
        requires piece { j < pieces_of (places self.now) }
        ensures ok { IfOk result (λ r. r ≡ run_at (recording self.now) (rule_set self.now)
            (places self.now) j) }
        ensures err { IsOkUnless result OutOfMemory };

    /// The run of two ranges that follow each other. Its only error is `OutOfMemory`.
    fn join(&self, alloc: Global, left: &PieceRun, right: &PieceRun) -> Result<PieceRun, RdsError>
        requires { AreNeighbours (recording self.now) (rule_set self.now) left.now right.now }
        ensures ok { IfOk result (λ r. r ≡ run_over (recording self.now)
            (rule_set self.now) left.now.from right.now.to) }
        ensures err { IsOkUnless result OutOfMemory };

    /// The report, from runs that follow each other from place 0 to the recording's end. Its only error is
    /// `OutOfMemory`.
    fn report(&self, alloc: Global, runs: &[PieceRun]) -> Result<Report, RdsError>
        requires in_a_row { FollowEachOther (recording self.now) (rule_set self.now)
            0 (length_of (recording self.now)) runs.now }
        ensures items { IfOk result (λ report. report.items ≡ listed (recording self.now) (rule_set self.now)
            (report_items (recording self.now) (rule_set self.now))) }
        ensures totals { IfOk result (λ report. report.totals
            ≡ totals_of (report_items (recording self.now) (rule_set self.now))) }
        ensures err { IsOkUnless result OutOfMemory };
}

/// The work over a recording that is lent to it: `guess` is `speculate`, and `join` and `report` are `join_runs` and `stitch`, each on a
/// tape of its own. But if a join finds no meeting within 32,768 places, the left run goes on over the right range alone. It can be shared
/// between threads.
#[derive(Drop)]
pub struct RecordingWork<'a> {
    recording: &'a Recording,
    rules: &'a Rules,
    cutting: &'a Cutting,
    spans: Spans,
}

impl<'a> Model for RecordingWork<'a> {
    ghost use Rattle.rds_pieces.specs.WorkOf.{WorkOf};

    ghost Value = { WorkOf };

    ghost view = { λ w. record { recording = w.recording.now; rules = w.rules.now; places = w.cutting.now } };
}

impl<'a> RecordingWork<'a> {
    /// The work over these. Takes no memory.
    pub fn new(
        recording: &'a Recording,
        rules: &'a Rules,
        cutting: &'a Cutting,
    ) -> RecordingWork<'a>
        requires { IsCutting (length_of recording.now) cutting.now }
        ensures { result ≡ record { recording = recording.now; rules = rules.now; places = cutting.now } }
    {
        RecordingWork {
            recording,
            rules,
            cutting,
            spans: Spans::Short,
        }
    }

    /// The same work, whose runs cut their items into such spans: [`Spans::Whole`] if it is asked for its
    /// totals.
    pub fn cut_into(self, spans: Spans) -> RecordingWork<'a>
        ensures { result ≡ self.entry }
    {
        RecordingWork { spans, ..self }
    }
}

impl Work for RecordingWork<'_> {
    ghost recording = { λ w. w.recording };

    ghost rule_set = { λ w. w.rules };

    ghost places = { λ w. w.places };

    fn source(&self) -> Snapshot<Recording> {
        Snapshot::of(self.recording)
    }

    fn rules(&self) -> &Rules {
        self.rules
    }

    fn cutting(&self) -> &Cutting {
        self.cutting
    }

    fn guess(&self, alloc: Global, j: u64) -> Result<PieceRun, RdsError> {
        speculate_into(
            alloc,
            self.recording,
            self.rules,
            self.cutting,
            j,
            self.spans,
        )
    }

    fn join(&self, alloc: Global, left: &PieceRun, right: &PieceRun) -> Result<PieceRun, RdsError> {
        join_over(alloc, self.recording, self.rules, left, right)
    }

    fn report(&self, alloc: Global, runs: &[PieceRun]) -> Result<Report, RdsError> {
        let mut tape = Counted::new(self.recording);
        stitch(alloc, &mut tape, self.rules, runs)
    }
}
