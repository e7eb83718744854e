//! The seam before a piece: how the state that the pieces before it left runs over it.
ghost use Rattle.std.specs.Prelude.{◌≡◌, ℕ, Option, ◌+◌, ◌-◌, ◌*◌, ◌≤◌, ◌^◌, IfOk, IsOkUnless};
ghost use Rattle.rds_sync.specs.{Decoding.listed, Lawful.IsLawful, Step.run as run_of, Tally.gone_on, Tally.tally_at, Totals.totals_of};
ghost use Rattle.rds_pieces.specs.{Inside.Beside.come_to, Meeting.IsMeeting, Meeting.distance, Seams.seam_reads, Soon.IsSoonMet};
ghost use Rattle.rds_code.specs.declared.error.RdsError.TheVariants.{OutOfMemory};

use crate::beside::{Beside, go_beside};
use crate::laws::run_laws;
use crate::run::PieceRun;
use crate::seams::Seam;
use rds_code::RdsError;
use rds_stream::Tape;
use rds_sync::laws::runs_converge;
use rds_sync::{Report, Rules, State};
use std::alloc::Global;

/// Carries the run on from `state`, lawful at the piece's first place, over the piece that `run` guessed, of the tape's
/// recording and by these rules: it and the guess go side by side over the tape until they meet, in one state and with no
/// group in progress; from there on it takes the guess's spans, and reads nothing.
///
/// If a sound range is inside the piece, they meet by its end: within 416 bits of sound signal under the
/// default rules.
///
/// Its only error is `OutOfMemory`.
///
/// Its cost: it reads at most (reach + 2)(d + 1) windows of the tape, which has counted at most 2^62 before;
/// d is the number of bits up to the meeting, or to the piece's end if they never meet. No more is read if
/// memory is refused on the way. It takes memory for the spans of its items, and those of the guess are
/// copied.
pub fn seam<T: Tape>(
    alloc: Global,
    tape: &mut T,
    rules: &Rules,
    state: State,
    run: &PieceRun,
) -> Result<Seam, RdsError>
    requires lawful { IsLawful rules.now run.now.from state }
    requires source { run.now.source ≡ T.signal tape.old }
    requires rules { run.now.rules ≡ rules.now }
    requires room { T.reads_made tape.old ≤ 2 ^ 62 }

    ensures items { IfOk result (λ s. s.items ≡ listed (T.signal tape.old) rules.now
        (run_of (T.signal tape.old) rules.now state run.now.from (run.now.to - run.now.from)).1) }
    ensures totals { IfOk result (λ s. s.totals
        ≡ totals_of (run_of (T.signal tape.old) rules.now state run.now.from (run.now.to - run.now.from)).1) }
    ensures end { IfOk result (λ s. s.end_state
        ≡ (run_of (T.signal tape.old) rules.now state run.now.from (run.now.to - run.now.from)).0) }
    ensures met { IfOk result (λ s.
        IsMeeting (T.signal tape.old) rules.now state State.Searching run.now.from run.now.to s.met_at) }
    ensures soon { IfOk result (λ s. IsSoonMet
        (T.signal tape.old) rules.now run.now.from run.now.to s.met_at) }
    ensures reads { IfOk result (λ s. T.reads_made tape.new
        ≤ T.reads_made tape.old + (rules.now.reach + 2) * (distance run.now.from run.now.to s.met_at + 1)) }

    ensures err { IsOkUnless result OutOfMemory }
    ensures same { T.signal tape.new ≡ T.signal tape.old }
    ensures reads_way { (met : Option ℕ) → IsMeeting
        (T.signal tape.old) rules.now state State.Searching run.now.from run.now.to met
        → T.reads_made tape.new ≤ T.reads_made tape.old + seam_reads rules.now run.now.from run.now.to met }
    ensures reads_most { T.reads_made tape.new
        ≤ T.reads_made tape.old + (rules.now.reach + 2) * (run.now.to - run.now.from + 1) }
{
    // Over a sound range the run and the guess come into one state.
    run_laws();
    runs_converge();
    let (from, to) = run.range();
    let beside = go_beside(alloc, tape, rules, state, from, to, run.cut())?;
    let met_at = beside.met_at;
    let (report, end_state) = sewn(beside, state, run)?;
    let Report { items, totals } = report;
    Ok(Seam {
        items,
        totals,
        end_state,
        met_at,
    })
}

/// The report of a run over the whole range, and its end state, once it went on from `state` beside the
/// guess. Its items are its own up to the meeting, and from there on the guess's.
fn sewn(beside: Beside, state: State, run: &PieceRun) -> Result<(Report, State), RdsError>
    requires met { IsMeeting run.now.source run.now.rules state State.Searching run.now.from run.now.to
        beside.met_at }
    requires own { beside.own
        ≡ gone_on (tally_at run.now.source run.now.rules run.now.from state)
        (come_to run.now.to beside.met_at) }
    requires guess { beside.guess
        ≡ gone_on (tally_at run.now.source run.now.rules run.now.from State.Searching)
        (come_to run.now.to beside.met_at) }
    ensures items { IfOk result (λ end. end.0.items ≡ listed run.now.source run.now.rules
        (run_of run.now.source run.now.rules state run.now.from (run.now.to - run.now.from)).1) }
    ensures totals { IfOk result (λ end. end.0.totals
        ≡ totals_of (run_of run.now.source run.now.rules state run.now.from (run.now.to - run.now.from)).1) }
    ensures end { IfOk result (λ end. end.1
        ≡ (run_of run.now.source run.now.rules state run.now.from (run.now.to - run.now.from)).0) }
    ensures err { IsOkUnless result OutOfMemory }
{
    // Runs in one state go on as one.
    run_laws();
    run.range();
    let _ = state;
    let Beside { own, guess, met_at } = beside;
    let end_state = own.state();
    let report = own.report()?;
    match met_at {
        None => Ok((report, end_state)),
        Some(_place) => {
            let before = guess.report()?;
            let Report { mut items, totals } = report;
            items.append_from(run.list(), before.items.len())?;
            let rest = run.totals().less(before.totals);
            let totals = totals.plus(rest);
            Ok((Report { items, totals }, run.end_state()))
        }
    }
}
