//! Promises of the calls for C to a user.
ghost use Rattle.std.specs.Prelude.{◌≡◌, ◌≢◌, ◌++◌, ◌+◌, ◌^◌, ◌<◌, ◌≤◌, ◌⊎◌, [], ◌∷◌, Err, IfErr, IfOk, OnOk, Some, length, map, false, take, true};
ghost use Rattle.rds_code.specs.Remainder.{rem};
ghost use Rattle.rds_sync.specs.{Report.report_items, Totals.totals_of};
ghost use Rattle.rds_live.specs.StreamDecoder.{report_of};
ghost use Rattle.rds_abi.specs.{Asked.Refuses, Asked.asked, Asked.items_asked, Asked.recording_of, Asked.rules_of, Blocks.packed, Stream.AreCompleted, Stream.AreLeft, Stream.AreTotalsAt, Stream.AreWritten, Stream.HearsOn, Stream.IsLaid, Stream.terms_of, Layout.item_in_c, Layout.totals_in_c};

use rds_abi::{
    RdsGap, RdsItem, RdsPacked, RdsRules, RdsSoft, RdsState, RdsStream, RdsTotals, RdsWords,
    Refusal, check, encode, finish, finish_run, finish_with, items, push, push_soft, remainder,
    run, totals,
};
use rds_sync::laws;
use std::alloc::Global;

/// A recording in two ranges, and the items that its end closes: together the items of the whole.
pub fn in_two_ranges(
    alloc: Global,
    bytes: &[u8],
    bits: u64,
    gaps: &[RdsGap],
    rules: RdsRules,
    middle: u64,
    first: &mut [RdsItem],
    next: &mut [RdsItem],
    end: &mut [RdsItem],
) -> Result<(u64, u64, u64), Refusal>
    ensures { IfOk result (λ n. take n.0 first.new ++ (take n.1 next.new ++ take n.2 end.new)
        ≡ items_asked (asked bytes.now bits gaps.now rules)) }
{
    laws::runs_join();
    laws::runs_are_reports();
    let (mut i, mut j, mut k) = (0, 0, 0);
    let mut s = RdsState::SEARCHING;
    let (head, tail) = ((0, middle), (middle, bits));
    run(alloc, bytes, bits, gaps, rules, head, &mut s, first, &mut i)?;
    run(alloc, bytes, bits, gaps, rules, tail, &mut s, next, &mut j)?;
    finish_run(alloc, bytes, bits, gaps, rules, s, end, &mut k)?;
    Ok((i, j, k))
}

/// Takes all of the next bytes of a stream, unless there is too little room for their items.
fn push_all(
    alloc: Global,
    bytes: &[u8],
    gaps: &[RdsGap],
    rules: RdsRules,
    stream: &mut RdsStream,
    room: &mut [RdsItem],
    count: &mut u64,
) -> Result<(), Refusal>
    ensures heard { OnOk result (HearsOn (terms_of rules gaps.now) stream.old stream.new bytes.now) }
    ensures laid { OnOk result (IsLaid (terms_of rules gaps.now) stream.new) }
    ensures items { OnOk result (AreWritten (AreCompleted (terms_of rules gaps.now) stream.old bytes.now) room.old room.new count.new) }
{
    let mut taken = 0;
    push(alloc, bytes, gaps, rules, stream, room, &mut taken, count)?;
    if taken < bytes.len() as u64 {
        return Err(Refusal::SmallRoom);
    }
    Ok(())
}

/// Room for sixteen items is enough to go on, whatever the bytes are.
pub fn goes_on_in_little_room(
    alloc: Global,
    bytes: &[u8],
    rules: RdsRules,
    stream: &mut RdsStream,
    room: &mut [RdsItem],
) -> Result<u64, Refusal>
    requires room { length room.old ≡ 16 }
    requires some { 0 < length bytes.now }
    ensures some { IfOk result (λ taken. 0 < taken) }
    ensures roomy { IfErr result (λ refusal. refusal ≢ Refusal.SmallRoom) }
{
    let (mut taken, mut n) = (0, 0);
    push(alloc, bytes, &[], rules, stream, room, &mut taken, &mut n)?;
    Ok(taken)
}

/// Sixteen items of room are enough for symbols: of nine or more, eight are taken. A margin of 0 is refused before anything else.
pub fn symbols_go_on(
    alloc: Global,
    heard: &[i8],
    rules: RdsRules,
    margin: u8,
    soft: &mut RdsSoft,
    room: &mut [RdsItem],
) -> Result<u64, Refusal>
    ensures some { length room.old ≡ 16 → 9 ≤ length heard.now → IfOk result (λ taken. taken ≡ 8) }
    ensures roomy { length room.old ≡ 16 → IfErr result (λ refusal. refusal ≢ Refusal.SmallRoom) }
    ensures margin { margin ≡ 0 → result ≡ Err Refusal.MarginRange }
{
    let (mut t, mut n) = (0, 0);
    push_soft(alloc, heard, &[], rules, margin, soft, room, &mut t, &mut n)?;
    Ok(t)
}

/// A stream in two chunks, kept between them only as numbers: with its end, the items and the totals of the report of all its bytes.
pub fn in_two_chunks(
    alloc: Global,
    early: &[u8],
    late: &[u8],
    gaps: &[RdsGap],
    rules: RdsRules,
    first: &mut [RdsItem],
    second: &mut [RdsItem],
    end: &mut [RdsItem],
) -> Result<(u64, u64, u64, RdsTotals), Refusal>
    ensures items { IfOk result (λ r. take r.0 first.new ++ (take r.1 second.new ++ take r.2 end.new)
        ≡ map item_in_c (report_of (terms_of rules gaps.now) (early.now ++ late.now))) }
    ensures totals { IfOk result (λ r. r.3 ≡ totals_in_c (totals_of (report_of (terms_of rules gaps.now) (early.now ++ late.now)))) }
{
    let (mut i, mut j, mut k, mut totals) = (0, 0, 0, RdsTotals::NONE);
    let mut stream = RdsStream::UNHEARD;
    push_all(alloc, early, gaps, rules, &mut stream, first, &mut i)?;
    push_all(alloc, late, gaps, rules, &mut stream, second, &mut j)?;
    finish(alloc, gaps, rules, &stream, end, &mut k, &mut totals)?;
    Ok((i, j, k, totals))
}

/// A stream that ends inside a byte, after `bits` bits of these bytes: the items that they complete, and the totals of all its bits.
pub fn ended_inside_a_byte(
    alloc: Global,
    stream: &RdsStream,
    last: &[u8],
    bits: u64,
    gaps: &[RdsGap],
    rules: RdsRules,
    room: &mut [RdsItem],
) -> Result<(u64, RdsTotals), Refusal>
    ensures items { IfOk result (λ r. AreWritten (AreLeft (terms_of rules gaps.now) stream.now last.now bits) room.old room.new r.0) }
    ensures totals { IfOk result (λ r. AreTotalsAt (terms_of rules gaps.now) stream.now last.now bits r.1) }
{
    let (mut n, mut t) = (0, RdsTotals::NONE);
    finish_with(alloc, last, bits, gaps, rules, stream, room, &mut n, &mut t)?;
    Ok((n, t))
}

/// A list that fits is written, and the room after it is as it was.
pub fn last_is_kept(
    alloc: Global,
    bytes: &[u8],
    bits: u64,
    rules: RdsRules,
    room: &mut [RdsItem],
) -> Result<u64, Refusal>
    ensures { IfOk result (λ count. take count room.new ≡ items_asked (asked bytes.now bits [] rules)) }
{
    let mut count = 0;
    items(alloc, bytes, bits, &[], rules, room, &mut count)?;
    Ok(count)
}

/// One group in bytes, and the remainder of a word that fits.
pub fn group_in_bytes(words: RdsWords, room: &mut [RdsPacked], word: u32) -> (bool, Option<u16>)
    requires { word < 2 ^ 26 }
    ensures group { result.0 ≡ true → take 1 room.new ≡ packed words ∷ [] }
    ensures remainder { result.1 ≡ Some (rem word) }
{
    (encode(&[words], room).is_ok(), remainder(word).ok())
}

/// How many groups a recording has: those of its report. A second call that is refused, as the first was, has the same reason, unless
/// memory was refused.
pub fn refused_alike(
    alloc: Global,
    bytes: &[u8],
    bits: u64,
    gaps: &[RdsGap],
    rules: RdsRules,
    reason: Refusal,
) -> Result<u64, Refusal>
    requires { Refuses (asked bytes.now bits gaps.now rules) reason }
    ensures groups { IfOk result
        (λ groups. groups ≡ (totals_of (report_items (recording_of bytes.now bits gaps.now) (rules_of rules))).groups) }
    ensures alike { IfErr result (λ again. (reason ≡ Refusal.OutOfMemory) ⊎ (again ≡ Refusal.OutOfMemory) ⊎ (reason ≡ again)) }
{
    rds_abi::laws::reasons_exclude_each_other();
    let again = totals(alloc, bytes, bits, gaps, rules)?;
    Ok(again.groups)
}

/// Numbers that no call leaves are refused: of a search that waits for a block.
pub fn search_that_waits(alloc: Global, bytes: &[u8], rules: RdsRules, due: u64) -> bool
    requires { due ≢ 0 }
    ensures { result ≡ false }
{
    let waits = RdsState {
        due,
        ..RdsState::SEARCHING
    };
    finish_run(alloc, bytes, 0, &[], rules, waits, &mut [], &mut 0).is_ok()
}

/// So are those of a stream that searches and has a first block.
pub fn search_with_a_block(alloc: Global, rules: RdsRules, first: u32) -> bool
    requires { first ≢ 0 }
    ensures { result ≡ false }
{
    let state = RdsState {
        first,
        ..RdsState::SEARCHING
    };
    let stream = RdsStream {
        state,
        ..RdsStream::UNHEARD
    };
    check(alloc, &[], rules, &stream).is_ok()
}
