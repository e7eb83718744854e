//! A crew of workers that makes the report of a work.
ghost use Rattle.std.specs.Prelude.{◌≡◌, ◌⊎◌, ◌↔◌, ◌<◌, IfErr, IfOk, IsErrOf};
ghost use Rattle.rds_stream.specs.Recording.{length_of};
ghost use Rattle.rds_sync.specs.{Decoding.listed, Report.report_items, Totals.totals_of};
ghost use Rattle.rds_pieces.specs.Cutting.{IsCutting};

use crate::gate::Gate;
use crate::guesses::Guesses;
use crate::team::make_all;
use crate::tree::join_all;
use rds_code::RdsError;
use rds_pieces::{PieceRun, Work, laws};
use rds_sync::Report;
use std::alloc::Global;
use std::thread::Threads;

/// The most workers that a crew may have.
pub const MOST_WORKERS: u32 = 256;

/// The report of the recording and the rules that the work names, made by up to `workers` workers.
///
/// Each piece is guessed by itself. Then neighbours are joined, level by level, from level 1: runs 2m and 2m
/// + 1 of a level, of which level 0 is the guesses, make run m of the next. A last run without a neighbour
/// goes up as it is. The one run that is left, or none if there is no piece, is made into the report.
///
/// The pieces, and then the joins of each level, are drawn from a dealer of their own, by as many workers as
/// there are of them, but at most `workers`. The calling thread is one worker; each other gets a thread, and
/// if the system starts none, the calling thread does its work too. A worker draws until none is left, makes
/// the parts that it drew in that order, and calls the gate round each. All threads have ended before the
/// next level is begun.
///
/// It returns if the calls of the work and of the gate do: the bounds of `R` allow no wait. A gate whose
/// calls wait for one another may hang if no thread is started.
///
/// Refuses `CrewRange` if `workers` is not 1 to 256, and else nothing but `OutOfMemory`, if memory was
/// refused. All parts made until then are dropped.
///
/// Its cost: each bit is guessed once, and a join carries the left run on over the right one until the two
/// meet (see [`join_runs`](rds_pieces::join_runs)): at best at once, at worst to the end of the right one. So
/// each bit is gone over once, and at most once more for each level. The runs of one level are held at a
/// time, and what joins them; runs are moved up a level, and none is copied.
pub fn decode_crew<R: Threads + Sync, W: Work + Sync, G: Gate + Sync>(
    rt: &R,
    alloc: Global,
    work: &W,
    workers: u32,
    gate: &G,
) -> Result<Report, RdsError>
    requires { IsCutting (length_of (W.recording work.now)) (W.places work.now) }
    ensures items { IfOk result (λ report. report.items ≡ listed (W.recording work.now) (W.rule_set work.now)
        (report_items (W.recording work.now) (W.rule_set work.now))) }
    ensures totals { IfOk result (λ report. report.totals
        ≡ totals_of (report_items (W.recording work.now) (W.rule_set work.now))) }
    ensures range { IsErrOf result RdsError.CrewRange ↔ ((workers ≡ 0) ⊎ (256 < workers)) }
    ensures err { IfErr result (λ e. (e ≡ RdsError.CrewRange) ⊎ (e ≡ RdsError.OutOfMemory)) }
{
    if workers == 0 || workers > MOST_WORKERS {
        return Err(RdsError::CrewRange);
    }
    let runs = make_all(rt, alloc, &Guesses { work, gate }, workers)?;

    // In order they follow each other from the first bit to the last, as a join and the report ask of them.
    laws::pieces_follow();
    let runs = join_all(rt, alloc, work, gate, workers, runs)?;
    match work.report(alloc, runs.as_slice()) {
        Ok(report) => Ok(report),
        Err(_) => Err(RdsError::OutOfMemory),
    }
}
