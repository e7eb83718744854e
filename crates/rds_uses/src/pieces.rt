//! Facts that a user of `rds_pieces` relies on: cuttings, guesses, seams, joins, and the report that is stitched of them.
ghost use Rattle.std.specs.Prelude.{◌≡◌, ℕ, ◌+◌, ◌-◌, ◌*◌, ◌<◌, ◌≤◌, ◌^◌, ◌∷◌, [], Err, IfOk, IsOkUnless, Ok, Option, Some};
ghost use Rattle.rds_stream.specs.Recording.{length_of};
ghost use Rattle.rds_sync.specs.{declared.state.State.TheVariants.Searching, declared.loss.Loss.TheVariants.Run, Convergence.IsSound, Decoding.listed, Lawful.IsLawful, Report.report_items, Step.run as run_of, Totals.totals_of};
ghost use Rattle.rds_pieces.specs.{Cutting.IsCutting, Cutting.pieces_of, Marks.marks_of, Joining.AreNeighbours, Joining.IsJoin, Meeting.IsMeeting, Meeting.distance, RunOf.FollowEachOther, RunOf.run_at, RunOf.run_over, RunOf.runs_of, Seams.IsSumOfReads};
ghost use Rattle.rds_code.specs.declared.error.RdsError.TheVariants.{BadCutting, OutOfMemory};

use rds_code::RdsError;
use rds_pieces::{Cutting, Marks, PieceRun, Seam, Work, join_runs, laws, seam, speculate, stitch};
use rds_stream::{Counted, Recording, Tape};
use rds_sync::{Decoder, ItemIter, Items, Loss, Report, Rules, State, Totals};
use std::alloc::Global;
use std::slice;
use std::snapshot::Snapshot;

/// Places that are a cutting of `len` bits are taken as they are. Others come back, with the refusal.
pub fn cutting_of(places: Vec<u64>, len: u64) -> Result<Cutting, (RdsError, Vec<u64>)>
    ensures taken { IsCutting len places.items → result ≡ Ok places.items }
    ensures refused { ¬ IsCutting len places.items → result ≡ Err (BadCutting, places) }
{
    Cutting::new(places, len)
}

/// The last piece of an even cutting ends where the recording does, and each other one where the next begins. A hundred bits in three pieces
/// are thirds, rounded up but for the last.
pub fn even_cutting(
    alloc: Global,
    len: u64,
    pieces: u64,
    j: u64,
) -> Result<(Cutting, u64), RdsError>
    requires some { 1 ≤ pieces }
    requires bits { 0 < len }
    ensures thirds { IfOk result (λ made. len ≡ 100 → pieces ≡ 3 → made.0 ≡ 0 ∷ 34 ∷ 68 ∷ 100 ∷ []) }
    ensures end { IfOk result (λ made. made.1 ≡ len) }
    ensures refused { IsOkUnless result OutOfMemory }
{
    let cutting = Cutting::even(alloc, len, pieces)?;
    let last = cutting.pieces() - 1;
    let touch = j >= last || cutting.to(j) == cutting.from(j + 1);
    prove!(touch);
    let end = cutting.to(last);
    Ok((cutting, end))
}

/// A list with room for a bit a piece is long enough.
pub fn bits_beyond_pieces(recording: &Recording, cutting: &Cutting) -> u64
    requires { IsCutting (length_of recording.now) cutting.now }
    ensures { result + pieces_of cutting.now ≡ length_of recording.now }
{
    laws::pieces_are_few();
    recording.len() - cutting.pieces()
}

/// The guess of a piece is the run from Searching over its range.
pub fn guess_of_piece(
    alloc: Global,
    recording: &Recording,
    rules: &Rules,
    cutting: &Cutting,
    j: u64,
) -> Result<PieceRun, RdsError>
    requires cutting { IsCutting (length_of recording.now) cutting.now }
    requires piece { j < pieces_of cutting.now }
    ensures guess { IfOk result (λ run. run ≡ run_at recording.now rules.now cutting.now j) }
    ensures refused { IsOkUnless result OutOfMemory }
{
    speculate(alloc, recording, rules, cutting, j)
}

/// A guess has the items and the end of that run. Its list names its recording and rules, and its totals are those of its items.
pub fn guessed_as_run<'a>(
    recording: &'a Recording,
    rules: &'a Rules,
    run: &'a PieceRun,
) -> (ItemIter<'a>, &'a Items, Totals)
    requires source { run.now.source ≡ recording.now }
    requires rules { run.now.rules ≡ rules.now }
    ensures items { result.0 ≡ (run_of recording.now rules.now Searching run.now.from (run.now.to - run.now.from)).1 }
    ensures list { result.1.now ≡ listed run.now.source run.now.rules result.0 }
    ensures totals { result.2 ≡ totals_of (run_of run.now.source run.now.rules Searching run.now.from (run.now.to - run.now.from)).1 }
{
    let decoder = Decoder::new(recording, rules, State::Searching, run.from(), run.to());
    let is_same = decoder.end_state() == run.end_state();
    prove!(is_same);
    (run.items(recording, rules), run.list(), run.totals())
}

/// It has the marks of that run.
pub fn marks_of_guess<'a>(recording: &'a Recording, rules: &'a Rules, run: &PieceRun) -> Marks<'a>
    requires source { run.now.source ≡ recording.now }
    requires rules { run.now.rules ≡ rules.now }
    ensures { result ≡ marks_of run.now.source run.now.rules Searching run.now.from (run.now.to - run.now.from) }
{
    run.marks(recording, rules)
}

/// A seam is the run from the state handed in, and tells where it first meets the guess. It reads as many windows as the bits to there
/// cost. On sound signal they meet within 416 bits, by a loss of ten blocks.
pub fn run_and_cost_of_seam<T: Tape>(
    alloc: Global,
    run: &PieceRun,
    rules: &Rules,
    state: State,
    tape: &mut T,
) -> Result<Seam, RdsError>
    requires source { run.now.source ≡ T.signal tape.old }
    requires rules { run.now.rules ≡ rules.now }
    requires lawful { IsLawful rules.now run.now.from state }
    requires room { T.reads_made tape.old ≤ 2 ^ 62 }
    ensures run { IfOk result (λ seam. let ran = run_of (T.signal tape.old) rules.now state run.now.from (run.now.to - run.now.from) in
        (seam.items ≡ listed (T.signal tape.old) rules.now ran.1) × (seam.totals ≡ totals_of ran.1) × (seam.end_state ≡ ran.0)) }
    ensures met { IfOk result (λ seam. IsMeeting (T.signal tape.old) rules.now state Searching run.now.from run.now.to seam.met_at) }
    ensures soon { IfOk result (λ seam. rules.now.loss ≡ Run 10
        → (p : ℕ) × (c : ℕ) × IsSound (T.signal tape.old) rules.now 0 run.now.from p c
        → run.now.from + 416 ≤ run.now.to
        → (place : ℕ) × (seam.met_at ≡ Some place) × (place ≤ run.now.from + 416)) }
    ensures reads { IfOk result (λ seam. T.reads_made tape.new
        ≤ T.reads_made tape.old + (rules.now.reach + 2) * (distance run.now.from run.now.to seam.met_at + 1)) }
    ensures refused { IsOkUnless result OutOfMemory }
    ensures reads_way { (met : Option ℕ) → IsMeeting (T.signal tape.old) rules.now state Searching run.now.from
        run.now.to met
        → T.reads_made tape.new
        ≤ T.reads_made tape.old + (rules.now.reach + 2) * (distance run.now.from run.now.to met + 1) }
    ensures reads_most { T.reads_made tape.new ≤ T.reads_made tape.old + (rules.now.reach + 2) * (run.now.to - run.now.from + 1) }
    ensures same { T.signal tape.new ≡ T.signal tape.old }
{
    seam(alloc, tape, rules, state, run)
}

/// Two neighbours joined are the guess of both ranges, at the cost of their seam.
pub fn cost_of_join<T: Tape>(
    alloc: Global,
    left: &PieceRun,
    right: &PieceRun,
    rules: &Rules,
    tape: &mut T,
) -> Result<PieceRun, RdsError>
    requires neighbours { AreNeighbours (T.signal tape.old) rules.now left.now right.now }
    requires room { T.reads_made tape.old ≤ 2 ^ 62 }
    ensures run { IfOk result (λ run. run ≡ run_over (T.signal tape.old) rules.now left.now.from right.now.to) }
    ensures cost { IsJoin (T.signal tape.old) rules.now left.now right.now (T.reads_made tape.old) (T.reads_made tape.new) result }
    ensures same { T.signal tape.new ≡ T.signal tape.old }
{
    join_runs(alloc, tape, rules, left, right)
}

/// The report of a recording, of the guesses of all pieces of a cutting.
pub fn stitch_pieces(
    alloc: Global,
    recording: &Recording,
    rules: &Rules,
    cutting: &Cutting,
    runs: &[PieceRun],
) -> Result<Report, RdsError>
    requires cutting { IsCutting (length_of recording.now) cutting.now }
    requires guesses { runs.now ≡ runs_of recording.now rules.now cutting.now }
    ensures items { IfOk result (λ report. report.items ≡ listed recording.now rules.now (report_items recording.now rules.now)) }
    ensures totals { IfOk result (λ report. report.totals ≡ totals_of (report_items recording.now rules.now)) }
    ensures refused { IsOkUnless result OutOfMemory }
{
    laws::pieces_follow();
    stitch(alloc, &mut Counted::new(recording), rules, runs)
}

/// To stitch runs in a row costs the windows of their seams and three more, without memory too; the tape is of the same bits.
pub fn cost_of_report<T: Tape>(
    alloc: Global,
    rules: &Rules,
    runs: &[PieceRun],
    tape: &mut T,
) -> Result<Report, RdsError>
    requires in_a_row { FollowEachOther (T.signal tape.old) rules.now 0 (length_of (T.signal tape.old)) runs.now }
    requires room { T.reads_made tape.old ≤ 2 ^ 61 }
    ensures reads { IfOk result (λ _. (n : ℕ) × IsSumOfReads (T.signal tape.old) rules.now Searching runs.now n
        × (T.reads_made tape.new ≤ T.reads_made tape.old + n + 3)) }
    ensures reads_way { (n : ℕ) → IsSumOfReads (T.signal tape.old) rules.now Searching runs.now n
        → T.reads_made tape.new ≤ T.reads_made tape.old + n + 3 }
    ensures same { T.signal tape.new ≡ T.signal tape.old }
{
    stitch(alloc, tape, rules, runs)
}

/// The guess of a piece of a work.
pub fn guess_of_work<W: Work>(alloc: Global, work: &W, j: u64) -> Result<PieceRun, RdsError>
    requires fits { IsCutting (length_of (W.recording work.now)) (W.places work.now) }
    requires piece { j < pieces_of (W.places work.now) }
    ensures guess { IfOk result (λ run. run ≡ run_at (W.recording work.now) (W.rule_set work.now) (W.places work.now) j) }
    ensures refused { IsOkUnless result OutOfMemory }
{
    work.guess(alloc, j)
}

/// The recording, the rule of loss and the number of pieces that a work names.
pub fn named_by_work<W: Work>(work: &W) -> (Snapshot<Recording>, Loss, u64)
    ensures source { result.0.value ≡ W.recording work.now }
    ensures loss { result.1 ≡ (W.rule_set work.now).loss }
    ensures pieces { result.2 ≡ pieces_of (W.places work.now) }
{
    (work.source(), work.rules().loss(), work.cutting().pieces())
}

/// The report of a work that is cut into two pieces, by its join of their guesses: that of the recording and the rules that it names.
pub fn report_of_work<W: Work>(
    alloc: Global,
    work: &W,
    left: &PieceRun,
    right: &PieceRun,
) -> Result<Report, RdsError>
    requires fits { IsCutting (length_of (W.recording work.now)) (W.places work.now) }
    requires two { pieces_of (W.places work.now) ≡ 2 }
    requires left { left.now ≡ run_at (W.recording work.now) (W.rule_set work.now) (W.places work.now) 0 }
    requires right { right.now ≡ run_at (W.recording work.now) (W.rule_set work.now) (W.places work.now) 1 }
    ensures items { IfOk result (λ report. report.items ≡ listed (W.recording work.now) (W.rule_set work.now)
        (report_items (W.recording work.now) (W.rule_set work.now))) }
    ensures totals { IfOk result (λ report. report.totals ≡ totals_of (report_items (W.recording work.now) (W.rule_set work.now))) }
    ensures refused { IsOkUnless result OutOfMemory }
{
    laws::pieces_follow();
    laws::joined_runs_follow();
    let run = work.join(alloc, left, right)?;
    work.report(alloc, slice::from_ref(&run))
}
