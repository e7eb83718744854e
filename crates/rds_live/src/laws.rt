//! The laws of following a stream, over only the definitions. Each function here does nothing: its contract
//! is a law, which the check of this crate proves, and which a proof above it may cite.

ghost use Rattle.rds_live.specs.Moving.{EndsMove, RunsMove};
ghost use Rattle.rds_live.specs.Next.{EndsAreReports, NextIsHeard, PiecesJoin};

use rds_sync::laws;

/// A run depends only on the bits heard: over a part of a recording it is the run over the whole there,
/// except for the places.
#[tactic(auto, using(std::proofs::lemmas::Grind::common_steps, crate::proofs::HeardParts::run_moved))]
pub fn runs_move()
    ensures { RunsMove }
{
    laws::acquisitions_are_late();
    laws::steps_are_lawful();
}

/// The group in progress at the end of a part is that at the end of the whole, except for the places.
pub fn ends_move()
    ensures { EndsMove }
{}

/// Bytes that a decoder takes in two pieces give the same as at once, whatever it heard before.
pub fn pieces_join()
    ensures { PiecesJoin }
{
    laws::runs_join();
    laws::runs_are_lawful();
    laws::totals_join();
    runs_move();
}

/// The items that further bytes of a heard stream complete are the stream's, and so is the decoder after
/// them.
pub fn next_is_heard()
    ensures { NextIsHeard }
{
    laws::totals_join();
    pieces_join();
    runs_move();
}

/// The items that the last bits of a heard stream complete, and the group in progress after them, are the rest of its report.
pub fn ends_are_reports()
    ensures { EndsAreReports }
{
    laws::runs_are_lawful();
    laws::runs_are_reports();
    laws::runs_join();
    laws::totals_join();
    runs_move();
    ends_move();
}
