//! The laws of pieces, over only the definitions. Each function here does nothing: its contract is a law,
//! which the check of this crate proves, and which a proof above it may cite.
ghost use Rattle.rds_pieces.specs.{Laws.PiecesAreFew, Laws.PiecesFollow, Laws.JoinedRunsFollow, Inside.RunLaws.RunLaws};

use rds_code::laws as code_laws;
use rds_sync::laws;

/// A cutting has at most as many pieces as there are bits.
pub fn pieces_are_few()
    ensures { PiecesAreFew }
{}

/// The runs of all pieces of a cutting follow each other from place 0 to the recording's end.
pub fn pieces_follow()
    ensures { PiecesFollow }
{}

/// If two neighbours are joined, the runs follow each other as before.
pub fn joined_runs_follow()
    ensures { JoinedRunsFollow }
{}

/// The laws of runs that `rds_sync` promises, for the proofs of this crate: a body calls this to have them at hand.
pub(crate) fn run_laws()
    ensures { RunLaws }
{
    laws::runs_are_reports();
    laws::runs_join();
    laws::runs_are_lawful();
    laws::totals_join();
    code_laws::readings_follow_the_rule();
}
