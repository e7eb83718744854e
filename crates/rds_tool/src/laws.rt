//! The laws of jobs, over only the definitions. Each function here does nothing: its contract is a law, which
//! the check of this crate proves, and which a proof above it may cite.

ghost use Rattle.rds_tool.specs.{Laws.EncodedGroupsAreListed, Laws.EncodedGroupsAreTaken, Laws.ListsEndWithTotals, Laws.StreamsAreListed, WellFormed.GapsHideBits, WellFormed.ListsAreWellFormed, WellFormed.RowsBeginLists};

use rds_live::laws as live_laws;
use rds_sync::laws;

/// Groups that are encoded and then listed are listed as they were sent, by all rules and every cutting: synchronism is
/// acquired by block 2 of the first group, and each group after it has its four words. Nothing is refused within the
/// ranges.
pub fn encoded_groups_are_listed()
    ensures listed { EncodedGroupsAreListed }
    ensures taken { EncodedGroupsAreTaken }
{
    laws::encoded_groups_are_listed();
    laws::packed_groups_are_sent();
}

/// Following a stream makes the same text of its bytes as a list, by any plan.
pub fn streams_are_listed()
    ensures { StreamsAreListed }
{}

/// The text of only the totals is the end of the list.
pub fn lists_end_with_totals()
    ensures { ListsEndWithTotals }
{}

/// A list has a row of eight fields for each item, in order and within the recording, and for each of twelve totals.
pub fn lists_are_well_formed()
    ensures { ListsAreWellFormed }
{
    laws::runs_are_reports();
    laws::steps_are_lawful();
    laws::acquisitions_are_late();
}

/// Bytes that differ only in gaps have the same list and totals.
pub fn gaps_hide_bits()
    ensures { GapsHideBits }
{
    laws::runs_are_reports();
    laws::runs_are_lawful();
    live_laws::runs_move();
    live_laws::ends_move();
}

/// The rows of a stream's first bytes, which [`follow`](crate::follow) has written before the next are read, begin the list of
/// all its bytes.
pub fn rows_begin_lists()
    ensures { RowsBeginLists }
{
    laws::runs_are_reports();
    laws::runs_join();
    live_laws::runs_move();
}
