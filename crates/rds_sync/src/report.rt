//! The report of a recording, by one thread.

ghost use Rattle.std.specs.Prelude.{◌≡◌, ◌≤◌, ◌-◌, ◌*◌, ◌^◌, IfOk, IsOkUnless};
ghost use Rattle.rds_stream.specs.Recording.{length_of};
ghost use Rattle.rds_sync.specs.{Counting.IsAtMost, Decoding.listed, Lawful.IsLawful, Report.report_items, Step.run, Totals.totals_of};

use crate::count_run::count_stretch;
use crate::counts::Counts;
use crate::items::{Items, Spans};
use crate::rules::Rules;
use crate::state::State;
use crate::steps::finish;
use crate::tally::{MOST_COUNTED, Tally, settle};
use crate::totals::Totals;
use rds_code::RdsError;
use rds_stream::{Counted, Reader, Recording};
use std::alloc::Global;
use std::snapshot::Snapshot;

/// The result of decoding a recording: its items, in order, and their totals. This project's rule.
#[derive(Drop)]
pub struct Report {
    /// Acquisitions, groups and losses, in order of the bit that completes them.
    pub items: Items,
    /// The twelve totals of these items.
    pub totals: Totals,
}

/// The run from `state` over the bits at `from` to `to` - 1: the state after them, and their items and
/// totals. Windows may begin before `from`. Runs are this project's rule, after EN 50067:1998, annex C.
///
/// The item of the recording's end is not among them: see [`finish`]. Fails only with `OutOfMemory`.
///
/// Its cost: a search covers 64 places at once, and looks up to `reach` windows back from each valid one. A
/// lock reads a window every 26 bits, and those of a group in which it may be lost three times at most. It
/// takes memory only for the spans of the list.
#[tactic(auto, using(crate::proofs::Lemmas::tally_run))]
pub fn run_report(
    alloc: Global,
    rec: &Recording,
    rules: &Rules,
    state: State,
    from: u64,
    to: u64,
    cut: Spans,
) -> Result<(State, Report), RdsError>
    requires lawful { IsLawful rules.now from state }
    requires order { from ≤ to }
    requires within { to ≤ length_of rec.now }
    ensures state { IfOk result (λ end. end.0 ≡ (run rec.now rules.now state from (to - from)).0) }
    ensures items { IfOk result (λ end. end.1.items
        ≡ listed rec.now rules.now (run rec.now rules.now state from (to - from)).1) }
    ensures totals { IfOk result (λ end. end.1.totals
        ≡ totals_of (run rec.now rules.now state from (to - from)).1) }
    ensures small { IfOk result (λ end. IsAtMost (2 ^ 47) end.1.totals) }
    ensures lawful { IfOk result (λ end. IsLawful rules.now to end.0) }
    ensures only_memory { IsOkUnless result RdsError.OutOfMemory }
{
    prove!(to <= rec.len());
    let mut reader = Reader::new(rec);
    let mut tally = Tally::new(alloc, Snapshot::of(rec), rules, state, from, cut);
    while tally.place() < to {
        tally.go_on(&mut reader, rules, to)?;
    }
    let end = tally.state();
    Ok((end, tally.report()?))
}

/// The state after the run of [`run_report`] and the totals of its items, of which none is made. Takes no memory.
pub fn run_totals(
    rec: &Recording,
    rules: &Rules,
    state: State,
    from: u64,
    to: u64,
) -> (State, Totals)
    requires lawful { IsLawful rules.now from state }
    requires order { from ≤ to }
    requires within { to ≤ length_of rec.now }
    ensures state { result.0 ≡ (run rec.now rules.now state from (to - from)).0 }
    ensures totals { result.1 ≡ totals_of (run rec.now rules.now state from (to - from)).1 }
    ensures small { IsAtMost (2 ^ 11 * (to - from)) result.1 }
    ensures lawful { IsLawful rules.now to result.0 }
{
    prove!(to <= rec.len());
    let mut reader = Reader::new(rec);
    let (mut place, mut now) = (from, state);
    let (mut totals, mut added, mut counts) = (Totals::NONE, 0, Counts::none());
    'stretches: while place < to {
        let most = MOST_COUNTED;
        (place, now) = count_stretch(&mut reader, rules, now, place, to, most, &mut counts);
        settle(&mut totals, &mut added, &mut counts, most);
    }
    (now, totals.plus(counts.totals()))
}

/// The report of a recording, this project's rule: the items of its locks, in order, with that of its end,
/// and their totals. Fails only with `OutOfMemory`.
///
/// Its cost: the recording is read once, as by [`run_report`]. It takes memory for the spans of the list.
pub fn decode_plain(alloc: Global, rec: &Recording, rules: &Rules) -> Result<Report, RdsError>
    ensures items { IfOk result (λ report. report.items
        ≡ listed rec.now rules.now (report_items rec.now rules.now)) }
    ensures totals { IfOk result (λ report. report.totals
        ≡ totals_of (report_items rec.now rules.now)) }
    ensures only_memory { IsOkUnless result RdsError.OutOfMemory }
{
    prove!(1 <= rules.reach());
    let len = rec.len();
    let (end, report) = run_report(alloc, rec, rules, State::Searching, 0, len, Spans::Short)?;
    let group = finish(&mut Counted::new(rec), rules, end);
    let Report { mut items, totals } = report;
    items.close(end)?;
    Ok(Report {
        items,
        totals: totals.plus(Totals::of_end(group)),
    })
}
