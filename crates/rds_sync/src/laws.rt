//! The laws of runs and reports, over only the definitions. Each function here does nothing: its contract is
//! a law, which the check of this crate proves, and which a proof above it may cite.

ghost use Rattle.rds_sync.specs.Laws.{RunsAreReports, RunsJoin, StepsAreLawful, RunsAreLawful, RunsMerge, OneBitRuns, LocksWait, SearchesGoOn, ItemsMarkChanges, RunsGiveFewItems, AcquisitionsAreLate, MasksTellBlocks, BadBlocksLose, RunsAreShares, StretchesAreSteps, HopsAreStretches};
ghost use Rattle.rds_sync.specs.{Convergence.SoundRangesHaveFours, Convergence.RunsConverge, Counting.TotalsJoin, GroupLaws.GroupsAreRead, Longer.BeginningsBegin, Longer.LongerRecordingsAddItems, Longer.TotalsOnlyGrow, Sent.GroupsAreCorrected, Sent.SentGroupsAreListed, Sent.EncodedGroupsAreHeard, Sent.EncodedGroupsAreListed, Sent.PackedGroupsAreSent, Sent.LockedGroupsAreListed, Sent.DamagedGroupsAreListed, Sent.DamagedGroupsAreHeard, Sent.DamagedBitsAreDecoded, Sent.DamageTellsTotals, Sent.DamagedBitsTellTotals, Sent.SoundSignalIsDecoded};

use rds_code::laws as code_laws;

/// The items of the run over a whole recording, with those of its end, are those of its locks.
#[tactic(auto, using(crate::proofs::RunIsReport::run_is_report))]
pub fn runs_are_reports()
    ensures { RunsAreReports }
{}

/// A run over a range, and then from its end over the next, is the run over both.
#[tactic(auto, using(crate::proofs::RunLemmas::run_places))]
pub fn runs_join()
    ensures { RunsJoin }
{}

/// One bit leads from a lawful state to a lawful state.
#[tactic(auto, using(crate::proofs::RunLemmas::lawful_step))]
pub fn steps_are_lawful()
    ensures { StepsAreLawful }
{}

/// A run leads from a lawful state to a lawful state.
#[tactic(auto, using(crate::proofs::RunLemmas::lawful_run_places))]
pub fn runs_are_lawful()
    ensures { RunsAreLawful }
{}

/// Two runs over one range that are in one state before some bit have one end, and from there on the same items.
#[tactic(auto, using(crate::proofs::RunLemmas::runs_merge))]
pub fn runs_merge()
    ensures { RunsMerge }
{}

/// A run over one bit is that bit.
#[tactic(auto, using(crate::proofs::RunLemmas::one_bit))]
pub fn one_bit_runs()
    ensures { OneBitRuns }
{}

/// A stretch is made of steps of [`advance`](crate::advance); a hop that ends where a stretch does ends in its state.
pub fn steps_agree()
    ensures stretches { StretchesAreSteps }
    ensures hops { HopsAreStretches }
{}

/// While a block is waited for, a run changes nothing and gives nothing.
#[tactic(auto, using(crate::proofs::RunLemmas::run_waiting))]
pub fn locks_wait()
    ensures { LocksWait }
{}

/// While no place acquires, a search changes nothing and gives nothing.
#[tactic(auto, using(crate::proofs::RunLemmas::run_searching))]
pub fn searches_go_on()
    ensures { SearchesGoOn }
{}

/// A bit gives an item exactly when it changes the state, and the state was a search or is between groups
/// afterwards.
pub fn items_mark_changes()
    ensures { ItemsMarkChanges }
{}

/// A run gives at most two items per bit.
#[tactic(auto, using(crate::proofs::RunIsReport::run_items_few))]
pub fn runs_give_few_items()
    ensures { RunsGiveFewItems }
{}

/// No place before 51 acquires, and each acquires with a number from 1 to 4.
#[tactic(auto, using(crate::proofs::RunLemmas::late_and_numbered))]
pub fn acquisitions_are_late()
    ensures { AcquisitionsAreLate }
{}

/// `Lock::bad` triggers a loss exactly when the blocks do.
#[tactic(auto, using(crate::proofs::LossLemmas::loses_is))]
pub fn bad_blocks_lose()
    ensures { BadBlocksLose }
{}

/// A mask tells which of the last blocks were bad.
#[tactic(auto, using(crate::proofs::LossLemmas::masks_tell))]
pub fn masks_tell_blocks()
    ensures { MasksTellBlocks }
{}

/// `Run(n)` is `Share { bad: n, of: n }`.
#[tactic(auto, using(crate::proofs::LossLemmas::run_is_share))]
pub fn runs_are_shares()
    ensures { RunsAreShares }
{}

/// A group agrees with its blocks: their places, its type, its version, whether it is in conflict, whether it
/// is complete.
#[tactic(auto, using(crate::proofs::GroupBlocks::group_is_read))]
pub fn groups_are_read()
    ensures { GroupsAreRead }
{}

/// The totals of a list are those of its first items together with those of the rest.
#[tactic(auto, using(crate::proofs::TotalsLemmas::totals_of_append))]
pub fn totals_join()
    ensures { TotalsJoin }
{}

/// Over a sound range, which holds the blocks of a station and little else that looks like one, the runs from
/// all lawful states come into one state: between two groups, after the range's last block of number 4, which
/// there is.
pub fn runs_converge()
    ensures fours { SoundRangesHaveFours }
    ensures converge { RunsConverge }
{}

/// A group is read as it was sent, if no block has more than one burst of errors within the limit. With a limit of 5 bits,
/// the burst in block 3 is not the one that makes of it a valid block of the other version.
#[tactic(auto, using(crate::proofs::SentRuns::groups_are_corrected))]
pub fn damaged_groups_are_corrected()
    ensures { GroupsAreCorrected }
{
    code_laws::blocks_are_read_as_sent();
    code_laws::damaged_blocks_are_corrected();
}

/// A recording of groups as they were sent, from its first bit to its last, is decoded to these groups, by all rules.
pub fn sent_groups_are_listed()
    ensures { SentGroupsAreListed }
{
    code_laws::blocks_are_read_as_sent();
    code_laws::damaged_blocks_are_corrected();
}

/// The bits of encoded groups are heard as they were sent, at any place of a recording. A recording of these bits only is
/// decoded to the groups.
#[tactic(auto, using(crate::proofs::SentBits::encoded_groups))]
pub fn encoded_groups_are_listed()
    ensures heard { EncodedGroupsAreHeard }
    ensures listed { EncodedGroupsAreListed }
{
    code_laws::blocks_are_read_as_sent();
    code_laws::damaged_blocks_are_corrected();
}

/// The bytes that groups are packed in hold the bits of the groups.
#[tactic(auto, using(crate::proofs::SentBits::packed_groups_are_sent))]
pub fn packed_groups_are_sent()
    ensures { PackedGroupsAreSent }
{
    code_laws::blocks_are_read_as_sent();
}

/// A locked decoder gives each group that is heard with the words that were sent, if the damage does not lose sync. So does
/// a recording from its first bit on, if the two blocks that acquire sync have no bit error.
#[tactic(auto, using(crate::proofs::SentRuns::damaged_groups))]
pub fn damaged_groups_are_listed()
    ensures locked { LockedGroupsAreListed }
    ensures recorded { DamagedGroupsAreListed }
{
    code_laws::blocks_are_read_as_sent();
    code_laws::damaged_blocks_are_corrected();
}

/// The bits of groups that were encoded and then damaged are decoded to the words that were sent.
#[tactic(auto, using(crate::proofs::SentBits::damaged_bits))]
pub fn damaged_bits_are_decoded()
    ensures heard { DamagedGroupsAreHeard }
    ensures decoded { DamagedBitsAreDecoded }
{
    code_laws::blocks_are_read_as_sent();
    code_laws::damaged_blocks_are_corrected();
}

/// The totals of a recording of damaged groups follow from only the damage, on two conditions. Each block has
/// at most one burst of errors within the limit, and the damage does not lose sync.
#[tactic(auto, using(crate::proofs::SentBits::totals_of_damage))]
pub fn damage_tells_totals()
    ensures recorded { DamageTellsTotals }
    ensures decoded { DamagedBitsTellTotals }
{
    code_laws::blocks_are_read_as_sent();
    code_laws::damaged_blocks_are_corrected();
}

/// After a sound range each group is decoded as it was sent, from whatever lawful state the run comes.
#[tactic(auto, using(crate::proofs::SentRuns::sound_signal_is_decoded))]
pub fn sound_signal_is_decoded()
    ensures { SoundSignalIsDecoded }
{
    code_laws::blocks_are_read_as_sent();
    code_laws::damaged_blocks_are_corrected();
}

/// A longer recording only adds rows: its report begins with the items of the shorter one, except the group
/// at the end, which continues; and no total is less. Gaps within the shorter recording are those of the
/// longer one there.
#[tactic(auto, using(crate::proofs::LongerLemmas::longer_recordings))]
pub fn longer_recordings_add_rows()
    ensures beginnings { BeginningsBegin }
    ensures items { LongerRecordingsAddItems }
    ensures totals { TotalsOnlyGrow }
{}
