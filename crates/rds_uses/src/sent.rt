//! Tests that the maker of a receiver would write: encode groups, damage them, decode them. They come out as they were sent.
ghost use Rattle.std.specs.Prelude.{◌≡◌, ◌≢◌, ◌↔◌, ℕ, ◌+◌, ◌-◌, ◌*◌, ◌<◌, ◌≤◌, ◌^◌, ◌∷◌, ◌++◌, [], Bool, Contains, IfOk, IfSome, IsOkUnless, IsTrue, List, Ok, Some, flat_map, length, slice_index, true};
ghost use Rattle.std.specs.Int.Count.{ones};
ghost use Rattle.rds_code.specs.{declared.offset.Offset.Offset as AnOffset, declared.offset.Offset.TheVariants.A, declared.offset.Offset.TheVariants.D, Bursts.IsBurst, Detection.error_masks, Detection.miscorrections, Detection.remainders_near, Encoding.encoded, Offsets.number, Reading.information, Remainder.rem, declared.error.RdsError.TheVariants.OutOfMemory};
ghost use Rattle.rds_stream.specs.Recording.{length_of, ungapped};
ghost use Rattle.rds_sync.specs.{Groups.group as group_at, Lawful.IsLawful, Longer.AreNoLess, Longer.BeginsWith, Longer.OnlyAddsItems, Longer.beginning, Sent.AreHeard, Sent.AreWords, Sent.GroupIsHeard, Sent.IsCorrectable, Sent.SentGroup, Sent.bits_sent, Sent.bits_with_damage, Sent.items_damaged, Sent.packed_group, Sent.packed_groups as the_packed_groups, Sent.totals_sent, Step.lock_of, Step.run as run_of, declared.state.State.TheVariants.Locked};
ghost use Rattle.rds_tool.specs.{Following.listed, Laws.groups_in, Laws.sent_listing, Laws.whole_input, declared.job.Settings.Settings as SomeSettings};
ghost use Rattle.rds_uses.specs.{Jobs.IsListOfStream, Received.AreAllHeard, Received.AreBitsOf, Received.AreHeardBetween, Received.IsSoundUpTo, Received.four_words, Received.report_damaged, Received.report_sent, Received.totals_received};

use crate::code::damaged;
use crate::tool::written;
use rds_code::{
    BlockNumber, BurstLimit, BurstTable, Offset, RdsError, Reading, Wanted, encode_block,
    encode_group, is_block, laws as code_laws, offset_of, read_block, rem26,
};
use rds_stream::Recording;
use rds_sync::{Group, Item, Report, Rules, State, decode_plain, laws, run};
use rds_tool::{Job, laws as tool_laws};
use std::alloc::Global;
use std::thread::Threads;

/// The offset of a block that was damaged: not one of its own number after one or two bit errors, and not its own if they span up to ten
/// bits.
pub fn offset_of_damaged(info: u16, offset: Offset, damage: u32) -> Option<Offset>
    requires { damage < 2 ^ 26 }
    ensures two { IfSome result (λ other. 1 ≤ ones damage → ones damage ≤ 2 → number other ≢ number offset) }
    ensures ten { IsBurst 10 damage → result ≢ Some offset }
{
    code_laws::damage_is_detected();
    offset_of(rem26(damaged(encode_block(info, offset), damage)))
}

/// A window that is corrected to a block 1 has one of some remainders. How many, of 1,024, is the same for each offset. One word of 26 bits
/// has an information word and a remainder, so each remainder is that of one word in 1,024.
pub fn corrected_near(table: &BurstTable, w: u32, limit: BurstLimit) -> (bool, usize)
    requires { w < 2 ^ 26 }
    ensures near { result.0 ≡ true → Contains (remainders_near A limit) (rem w) }
    ensures count { (o : AnOffset) → length (remainders_near o limit) ≡ result.1 }
    ensures word { (info remainder : ℕ) → info < 2 ^ 16 → remainder < 1024
        → (w : ℕ) × (w < 2 ^ 26) × (information w ≡ info) × (rem w ≡ remainder)
        × ((v : ℕ) → information v ≡ info → rem v ≡ remainder → v ≡ w) }
{
    prove!(limit.bits() <= 5);
    code_laws::corrected_words_are_few();
    let count = [0, 26, 51, 99, 191, 367][limit.bits() as usize];
    match read_block(table, w, BlockNumber::ONE, Wanted::Either, limit) {
        Reading::Corrected { .. } => (true, count),
        _ => (false, count),
    }
}

/// Whether this is an error mask of two bit errors.
pub fn has_two_errors(mask: u32) -> bool
    ensures { IsTrue result ↔ Contains (error_masks 2 26) mask }
{
    code_laws::miscorrections_are_counted();
    is_block(mask) && mask.count_ones() == 2
}

/// How many of the 325 masks of two bit errors miscorrect a block 1, 2 or 4, by limits of 0 to 5 bits.
pub fn miscorrected_of_two(info: u16, offset: Offset, wanted: Wanted, limit: BurstLimit) -> usize
    requires { number offset ≢ 3 }
    ensures { miscorrections (encoded info offset) info offset wanted limit 2 ≡ result }
{
    code_laws::miscorrections_are_counted();
    let _sent = encode_block(info, offset);
    let counts = [0, 21, 21, 21, 21, 43];
    counts[limit.bits() as usize]
}

/// A group with at most one burst within the limit in each block is read as it was sent, anywhere in a recording.
pub fn words_of_damaged(
    recording: &Recording,
    rules: &Rules,
    place: u64,
    group: &Group,
) -> [Option<u16>; 4]
    requires { group.now ≡ group_at recording.now rules.now 1 4 place }
    ensures heard { (words damages : List ℕ) → GroupIsHeard recording.now rules.now.burst 1 place words damages
        → result ≡ four_words words }
    ensures bits { (before after : List ℕ) (g : SentGroup) → IsCorrectable rules.now.burst g
        → place ≡ length before + 103
        → recording.now ≡ ungapped (before ++ (flat_map bits_with_damage (g ∷ []) ++ after))
        → result ≡ four_words g.words }
{
    prove!(rules.burst() <= 5);
    laws::damaged_groups_are_corrected();
    laws::damaged_bits_are_decoded();
    let [one, two, three, four] = group.blocks;
    [one.info(), two.info(), three.info(), four.info()]
}

/// The 13 bytes of a group, the first bit highest. Those of several groups, one after the other, are packed groups.
pub fn pack_group(words: [u16; 4]) -> [u8; 13]
    ensures bytes { result ≡ packed_group words }
    ensures words { (y : ℕ) → y < 4 → slice_index words y < 2 ^ 16 }
{
    const BLOCK: u128 = 1 << 26;
    let [one, two, three, four] = encode_group(words);
    let bits = ((u128::from(one) * BLOCK + u128::from(two)) * BLOCK + u128::from(three)) * BLOCK
        + u128::from(four);
    let mut bytes = [0; 13];
    bytes.copy_from_slice(&bits.to_be_bytes()[3..]);
    bytes
}

/// A recording of packed groups has the bits of these groups.
pub fn recording_of_groups(bytes: Vec<u8>, groups: &[[u16; 4]]) -> Option<Recording>
    requires few { 104 * length groups.now ≤ 2 ^ 36 }
    requires packed { bytes.items ≡ the_packed_groups groups.now }
    requires words { AreWords groups.now }
    ensures bits { IfSome result (λ recording. recording ≡ ungapped (bits_sent groups.now)) }
{
    laws::packed_groups_are_sent();
    let bits = 8 * bytes.len() as u64;
    Recording::from_bytes(bytes, bits).ok()
}

/// Groups that are encoded and decoded are listed as they were sent, and counted, by all rules.
pub fn encoded_and_decoded(
    alloc: Global,
    recording: &Recording,
    groups: &[[u16; 4]],
    rules: &Rules,
) -> Result<Report, RdsError>
    requires some { 0 < length groups.now }
    requires bits { recording.now ≡ ungapped (bits_sent groups.now) }
    requires words { AreWords groups.now }
    ensures items { IfOk result (λ report. report.items.list ≡ report_sent groups.now) }
    ensures totals { IfOk result (λ report. report.totals ≡ totals_sent (length groups.now)) }
{
    let _loss = rules.loss();
    laws::encoded_groups_are_listed();
    decode_plain(alloc, recording, rules)
}

/// The last block of a group has offset D wherever the bits of the group are in a recording.
pub fn offset_of_last_block(recording: &Recording, place: u64) -> Option<Offset>
    requires first { 25 ≤ place }
    requires last { place < length_of recording.now }
    ensures { (before after words : List ℕ) (groups : List (List ℕ)) → AreWords (words ∷ groups)
        → length before + 103 ≡ place
        → recording.now ≡ ungapped (before ++ (bits_sent (words ∷ groups) ++ after))
        → result ≡ Some D }
{
    laws::encoded_groups_are_listed();
    recording.offset(place)
}

/// Groups that were sent with bit errors are decoded as they were sent. The totals follow from the errors. So do those of groups without
/// any that are heard from the first bit of a recording to its last, whoever encoded them.
pub fn damaged_and_decoded(
    alloc: Global,
    recording: &Recording,
    rules: &Rules,
) -> Result<Report, RdsError>
    ensures refused { IsOkUnless result OutOfMemory }
    ensures items { IfOk result (λ report. (groups : List SentGroup)
        → AreBitsOf recording.now rules.now groups → report.items.list ≡ report_damaged groups) }
    ensures totals { IfOk result (λ report. (groups : List SentGroup)
        → AreBitsOf recording.now rules.now groups → report.totals ≡ totals_received groups) }
    ensures heard_items { IfOk result (λ report. (groups : List SentGroup)
        → AreAllHeard recording.now rules.now groups → report.items.list ≡ report_damaged groups) }
    ensures heard_totals { IfOk result (λ report. (groups : List SentGroup)
        → AreAllHeard recording.now rules.now groups → report.totals ≡ totals_received groups) }
    ensures sent_totals { IfOk result (λ report. (words : List ℕ) (groups : List (List ℕ))
        → length_of recording.now ≡ 104 * length (words ∷ groups)
        → AreHeard recording.now 0 (words ∷ groups)
        → report.totals ≡ totals_sent (length (words ∷ groups))) }
{
    let _loss = rules.loss();
    laws::damaged_bits_are_decoded();
    laws::damaged_groups_are_listed();
    laws::damage_tells_totals();
    laws::sent_groups_are_listed();
    decode_plain(alloc, recording, rules)
}

/// A decoder locked at the first bit of a group gives the groups that were sent. So does any other, after a sound range.
pub fn decoded_in_lock(
    alloc: Global,
    recording: &Recording,
    rules: &Rules,
    state: State,
    from: u64,
    to: u64,
) -> Result<(State, Vec<Item>), RdsError>
    requires lawful { IsLawful rules.now from state }
    requires order { from ≤ to }
    requires within { to ≤ length_of recording.now }
    ensures locked { IfOk result (λ run. (bad : ℕ) (groups : List SentGroup)
        → state ≡ Locked (lock_of (from + 25) 1 bad 1)
        → AreHeardBetween recording.now rules.now from to bad groups
        → run.1.items ≡ items_damaged from groups) }
    ensures sound { IfOk result (λ run. (start : ℕ) (groups : List SentGroup)
        → IsSoundUpTo recording.now rules.now from start
        → AreHeardBetween recording.now rules.now start to 0 groups
        → let before = (run_of recording.now rules.now state from (start - from)).1 in
        run.1.items ≡ before ++ items_damaged start groups) }
{
    prove!(rules.burst() <= 5);
    laws::damaged_groups_are_listed();
    laws::sound_signal_is_decoded();
    run(alloc, recording, rules, state, from, to)
}

/// A longer recording has all items of the one that it begins with, except the group at its end. No total is less.
pub fn decoded_before_and_after(
    alloc: Global,
    shorter: &Recording,
    longer: &Recording,
    rules: &Rules,
) -> Option<(Report, Report)>
    requires { BeginsWith longer.now shorter.now }
    ensures items { IfSome result (λ both. OnlyAddsItems both.0.items.list both.1.items.list) }
    ensures totals { IfSome result (λ both. AreNoLess both.0.totals both.1.totals) }
{
    let _loss = rules.loss();
    laws::longer_recordings_add_rows();
    match (
        decode_plain(alloc, shorter, rules),
        decode_plain(alloc, longer, rules),
    ) {
        (Ok(before), Ok(after)) => Some((before, after)),
        _ => None,
    }
}

/// A recording begins with any number of its first bits, and with the gaps in them.
pub fn begins_with_first_bits(recording: &Recording, bits: u64)
    requires { bits ≤ length_of recording.now }
    ensures { BeginsWith recording.now (beginning bits recording.now) }
{
    laws::longer_recordings_add_rows();
}

/// Lines of words, encoded by one job and listed by another: the listing of their groups, for all rules, cuttings and workers.
pub fn encoded_and_listed<R: Threads + Sync>(
    rt: &R,
    alloc: Global,
    lines: &[u8],
    encode: &Job,
    list: &Job,
) -> Option<Vec<u8>>
    requires { (hex : Bool) × (settings : SomeSettings) × (encode.now ≡ Job.Encode hex) × (list.now ≡ Job.List (whole_input hex) settings) }
    ensures { IfSome result (λ listing. (words : List ℕ) (groups : List (List ℕ))
        → groups_in lines.now ≡ Ok (words ∷ groups) → listing.items ≡ sent_listing words groups) }
{
    tool_laws::encoded_groups_are_listed();
    let bytes = written(rt, alloc, lines, encode)?;
    written(rt, alloc, bytes.as_slice(), list)
}

/// Listing the bytes of a stream that was followed by the same rules writes the same text, by any numbers of workers.
pub fn followed_and_listed<R: Threads + Sync>(
    rt: &R,
    alloc: Global,
    bytes: &[u8],
    rules: &Rules,
    gaps: &[(u64, u64)],
    bits: Option<u64>,
    rows: &[u8],
    list: &Job,
) -> Option<Vec<u8>>
    requires list { IsListOfStream list.now rules.now bits gaps.now }
    requires followed { listed (record { rules = rules.now; gaps = gaps.now }) bits bytes.now ≡ Ok rows.now }
    ensures { IfSome result (λ text. text.items ≡ rows.now) }
{
    tool_laws::streams_are_listed();
    written(rt, alloc, bytes, list)
}
