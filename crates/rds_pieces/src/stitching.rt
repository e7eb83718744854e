//! The report of a recording from the runs of its pieces.
ghost use Rattle.std.specs.Prelude.{◌≡◌, ℕ, Option, ◌+◌, ◌-◌, ◌*◌, ◌++◌, ◌≤◌, ◌^◌, IfOk, IsOkUnless};
ghost use Rattle.rds_stream.specs.Recording.{length_of};
ghost use Rattle.rds_sync.specs.{Counting.FitTogether, Counting.IsAtMost, Counting.plus, Decoding.listed, Lawful.IsLawful, Report.report_items, Step.items_of_end, Step.run as run_of, Totals.totals_of};
ghost use Rattle.rds_pieces.specs.{Meeting.IsMeeting, RunOf.FollowEachOther, Seams.IsSumOfReads, Seams.seam_reads};
ghost use Rattle.rds_code.specs.declared.error.RdsError.TheVariants.{OutOfMemory};

use crate::laws::run_laws;
use crate::run::PieceRun;
use crate::seaming::seam;
use rds_code::RdsError;
use rds_stream::Tape;
use rds_sync::laws::totals_join;
use rds_sync::{Items, Report, Rules, State, Totals, finish};
use std::alloc::Global;

/// The report of the tape's recording: carries the state over the runs in order, from Searching at its first
/// bit, and ends with the group in progress at its end. The runs follow each other from place 0 to the
/// recording's end, each of one piece, or of several joined. A run may be empty, and it is passed over; if
/// the recording is empty there need be none.
///
/// Its only error is `OutOfMemory`.
///
/// Its cost: it reads at most as many windows as the seams may read, and three more, refused memory or not;
/// the tape has counted at most 2^61 before. It takes memory as they do, one after the other, and for the
/// spans of all items.
pub fn stitch<T: Tape>(
    alloc: Global,
    tape: &mut T,
    rules: &Rules,
    runs: &[PieceRun],
) -> Result<Report, RdsError>
    requires in_a_row { FollowEachOther (T.signal tape.old) rules.now 0
        (length_of (T.signal tape.old)) runs.now }
    requires room { T.reads_made tape.old ≤ 2 ^ 61 }

    ensures items { IfOk result (λ report. report.items
        ≡ listed (T.signal tape.old) rules.now (report_items (T.signal tape.old) rules.now)) }
    ensures totals { IfOk result (λ report. report.totals
        ≡ totals_of (report_items (T.signal tape.old) rules.now)) }
    ensures reads { IfOk result (λ _. (n : ℕ)
        × IsSumOfReads (T.signal tape.old) rules.now State.Searching runs.now n
        × (T.reads_made tape.new ≤ T.reads_made tape.old + n + 3)) }

    ensures err { IsOkUnless result OutOfMemory }
    ensures same { T.signal tape.new ≡ T.signal tape.old }
    ensures reads_way { (n : ℕ) → IsSumOfReads (T.signal tape.old) rules.now State.Searching runs.now n
        → T.reads_made tape.new ≤ T.reads_made tape.old + n + 3 }
{
    // The totals of the group in progress at the end join those before it.
    totals_join();
    let (end_state, mut report) = carry_over_all(alloc, tape, rules, runs)?;
    let last = finish(tape, rules, end_state);
    report.totals = report.totals.plus(Totals::of_end(last));
    report.items.close(end_state)?;
    Ok(report)
}

/// Carries the state over all runs, from Searching at place 0. The items and totals of their seams are, with those of
/// the recording's end, the report's.
fn carry_over_all<T: Tape>(
    alloc: Global,
    tape: &mut T,
    rules: &Rules,
    runs: &[PieceRun],
) -> Result<(State, Report), RdsError>
    requires in_a_row { FollowEachOther (T.signal tape.old) rules.now 0
        (length_of (T.signal tape.old)) runs.now }
    requires room { T.reads_made tape.old ≤ 2 ^ 61 }

    ensures named { IfOk result (λ r. r.1.items ≡ listed (T.signal tape.old) rules.now r.1.items.list) }
    ensures whole { IfOk result (λ r. r.1.items.list ++ items_of_end (T.signal tape.old) rules.now r.0
        ≡ report_items (T.signal tape.old) rules.now) }
    ensures totals { IfOk result (λ r. r.1.totals ≡ totals_of r.1.items.list) }
    ensures small { IfOk result (λ r. IsAtMost ((2 ^ 28 - 1) * 2 ^ 36) r.1.totals) }
    ensures lawful { IfOk result (λ r. IsLawful rules.now (length_of (T.signal tape.old)) r.0) }
    ensures reads { IfOk result (λ _. (n : ℕ)
        × IsSumOfReads (T.signal tape.old) rules.now State.Searching runs.now n
        × (T.reads_made tape.new ≤ T.reads_made tape.old + n)) }
    ensures room { IfOk result (λ _. T.reads_made tape.new + 16 ≤ 2 ^ 63) }

    ensures err { IsOkUnless result OutOfMemory }
    ensures same { T.signal tape.new ≡ T.signal tape.old }
    ensures reads_way { (n : ℕ) → IsSumOfReads (T.signal tape.old) rules.now State.Searching runs.now n
        → T.reads_made tape.new ≤ T.reads_made tape.old + n }
{
    // Runs in a row are one run, and that over the whole recording is the report.
    run_laws();
    let (len, reach) = (tape.len(), rules.reach());
    prove!(len <= 1 << 36 && 1 <= reach);
    let mut report = Report {
        items: Items::none(alloc, tape.source(), rules),
        totals: Totals::NONE,
    };
    let mut state = State::Searching;
    for run in runs {
        if run.from() == run.to() {
            continue;
        }
        state = carry_over(alloc, tape, rules, state, run, &mut report)?;
    }
    Ok((state, report))
}

/// Carries the state over one run, and appends the items and totals of its seam to those before it.
fn carry_over<T: Tape>(
    alloc: Global,
    tape: &mut T,
    rules: &Rules,
    state: State,
    run: &PieceRun,
    report: &mut Report,
) -> Result<State, RdsError>
    requires lawful { IsLawful rules.now run.now.from state }
    requires source { run.now.source ≡ T.signal tape.old }
    requires rules { run.now.rules ≡ rules.now }
    requires room { T.reads_made tape.old ≤ 2 ^ 62 }
    requires same_source { report.old.items.source ≡ T.signal tape.old }
    requires same_rules { report.old.items.rules ≡ rules.now }
    requires fit { FitTogether report.old.totals
        (totals_of (run_of (T.signal tape.old) rules.now state run.now.from (run.now.to - run.now.from)).1) }

    ensures items { IfOk result (λ _. report.new.items ≡ listed (T.signal tape.old) rules.now
        (report.old.items.list
        ++ (run_of (T.signal tape.old) rules.now state run.now.from (run.now.to - run.now.from)).1)) }
    ensures totals { IfOk result (λ _. report.new.totals ≡ plus report.old.totals
        (totals_of (run_of (T.signal tape.old) rules.now state run.now.from (run.now.to - run.now.from)).1)) }
    ensures end { IfOk result (λ after. after
        ≡ (run_of (T.signal tape.old) rules.now state run.now.from (run.now.to - run.now.from)).0) }
    ensures reads { IfOk result (λ _. (met : Option ℕ)
        × IsMeeting (T.signal tape.old) rules.now state State.Searching run.now.from run.now.to met
        × (T.reads_made tape.new
        ≤ T.reads_made tape.old + seam_reads rules.now run.now.from run.now.to met)) }

    ensures err { IsOkUnless result OutOfMemory }
    ensures same { T.signal tape.new ≡ T.signal tape.old }
    ensures reads_way { (met : Option ℕ)
        → IsMeeting (T.signal tape.old) rules.now state State.Searching run.now.from run.now.to met
        → T.reads_made tape.new ≤ T.reads_made tape.old + seam_reads rules.now run.now.from run.now.to met }
{
    let seam = seam(alloc, tape, rules, state, run)?;
    report.items.append(seam.items)?;
    report.totals = report.totals.plus(seam.totals);
    Ok(seam.end_state)
}
