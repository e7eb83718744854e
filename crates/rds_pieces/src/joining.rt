//! Two neighbours joined into one run.
ghost use Rattle.std.specs.{Prelude.◌≡◌, Prelude.◌≤◌, Prelude.◌-◌, Prelude.◌^◌, Prelude.IfOk, Prelude.IsOkUnless, Prelude.Option, Prelude.is_some, Prelude.ℕ};
ghost use Rattle.rds_stream.specs.Recording.{length_of};
ghost use Rattle.rds_sync.specs.{Decoding.listed, Lawful.IsLawful, Step.run as run_of, Totals.totals_of};
ghost use Rattle.rds_pieces.specs.{Joining.AreNeighbours, Joining.IsJoin, Meeting.IsMeeting, RunOf.end_of, RunOf.run_over};
ghost use Rattle.rds_code.specs.declared.error.RdsError.TheVariants.{OutOfMemory};

use crate::beside::go_beside;
use crate::laws::run_laws;
use crate::run::PieceRun;
use crate::seaming::seam;
use rds_code::RdsError;
use rds_stream::{Counted, Recording, Tape};
use rds_sync::laws::runs_converge;
use rds_sync::{Items, Report, Rules, Spans, State, run_report};
use std::alloc::{AllocError, Global};
use std::snapshot::Snapshot;

/// Within how many places a run meets a guess, if it is soon: many times what a sound range needs.
const SOON: u64 = 32_768;

/// The guess of both ranges of two runs that follow each other, of the tape's recording and by these rules: the left
/// run, then the [`seam`] of its end state over the right range. Both runs are lent, and their spans are copied.
///
/// If a sound range is inside the right range, they meet by its end: within 416 bits of sound signal under
/// the default rules. The only error is `OutOfMemory`.
///
/// Its cost: it reads at most (reach + 2)(d + 1) windows of the tape, which has counted at most 2^62 before;
/// d is the number of bits of the right range up to the meeting, or to its end if they never meet. It reads
/// no more if memory is refused on the way. It takes memory for the spans of its items. The fields of
/// `IsJoin` state its cost (`specs/Joining.antt`).
pub fn join_runs<T: Tape>(
    alloc: Global,
    tape: &mut T,
    rules: &Rules,
    left: &PieceRun,
    right: &PieceRun,
) -> Result<PieceRun, RdsError>
    requires neighbours { AreNeighbours (T.signal tape.old) rules.now left.now right.now }
    requires room { T.reads_made tape.old ≤ 2 ^ 62 }
    ensures ok { IfOk result (λ r. r ≡ run_over (T.signal tape.old) rules.now left.now.from right.now.to) }
    ensures cost { IsJoin (T.signal tape.old) rules.now left.now right.now
        (T.reads_made tape.old) (T.reads_made tape.new) result }
    ensures same { T.signal tape.new ≡ T.signal tape.old }
{
    // Runs are lawful, and over a sound range they come into one state.
    run_laws();
    runs_converge();
    let (_, to) = right.range();
    let seam = seam(alloc, tape, rules, left.end_state(), right)?;
    let rest = Report {
        items: seam.items,
        totals: seam.totals,
    };
    Ok(with_rest(alloc, tape.source(), rules, left, to, rest, seam.end_state)?)
}

/// The same over a recording. If the two do not meet soon, the guess is of no use: the run goes on over the right range alone, which takes
/// a quarter of the time.
pub(crate) fn join_over(
    alloc: Global,
    rec: &Recording,
    rules: &Rules,
    left: &PieceRun,
    right: &PieceRun,
) -> Result<PieceRun, RdsError>
    requires { AreNeighbours rec.now rules.now left.now right.now }
    ensures ok { IfOk result (λ r. r ≡ run_over rec.now rules.now left.now.from right.now.to) }
    ensures err { IsOkUnless result OutOfMemory }
{
    run_laws();
    let (from, to) = right.range();
    let near = from.saturating_add(SOON).min(to);
    let state = left.end_state();
    if near == to || meet_before(alloc, rec, rules, state, from, near)? {
        return join_runs(alloc, &mut Counted::new(rec), rules, left, right);
    }
    let (end_state, rest) = run_report(alloc, rec, rules, state, from, to, left.cut())?;
    Ok(with_rest(alloc, Snapshot::of(rec), rules, left, to, rest, end_state)?)
}

/// Whether the run from this state meets the guess of a range in it.
fn meet_before(
    alloc: Global,
    rec: &Recording,
    rules: &Rules,
    state: State,
    from: u64,
    to: u64,
) -> Result<bool, AllocError>
    requires lawful { IsLawful rules.now from state }
    requires order { from ≤ to }
    requires within { to ≤ length_of rec.now }
    ensures { IfOk result (λ meet. (met : Option ℕ)
        × IsMeeting rec.now rules.now state State.Searching from to met × (meet ≡ is_some met)) }
{
    let mut tape = Counted::new(rec);
    let beside = go_beside(alloc, &mut tape, rules, state, from, to, Spans::Whole)?;
    Ok(beside.met_at.is_some())
}

/// The run of a further range, too: `rest` are its items and totals, and `end_state` is the state after it.
fn with_rest(
    alloc: Global,
    source: Snapshot<Recording>,
    rules: &Rules,
    left: &PieceRun,
    to: u64,
    rest: Report,
    end_state: State,
) -> Result<PieceRun, AllocError>
    requires source { source.value ≡ left.now.source }
    requires rules { rules.now ≡ left.now.rules }
    requires order { left.now.to ≤ to }
    requires within { to ≤ length_of left.now.source }
    requires items { rest.items ≡ listed left.now.source left.now.rules
        (run_of left.now.source left.now.rules (end_of left.now) left.now.to (to - left.now.to)).1 }
    requires totals { rest.totals
        ≡ totals_of (run_of left.now.source left.now.rules (end_of left.now) left.now.to (to - left.now.to)).1 }
    requires end { end_state
        ≡ (run_of left.now.source left.now.rules (end_of left.now) left.now.to (to - left.now.to)).0 }
    ensures { IfOk result (λ r. r ≡ record left.now { to = to }) }
{
    // Runs in a row are one run.
    run_laws();
    let (from, _) = left.range();
    let mut items = Items::none(alloc, source, rules);
    items.append_from(left.list(), 0)?;
    items.append(rest.items)?;
    let totals = left.totals().plus(rest.totals);
    let report = Report { items, totals };
    Ok(PieceRun::new(from, to, report, end_state, left.cut()))
}
