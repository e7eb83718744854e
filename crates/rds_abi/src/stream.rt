//! A stream that is followed chunk by chunk, from the numbers that the caller keeps of it.

ghost use Rattle.std.specs.Prelude.{◌≡◌, ◌++◌, ◌<◌, ◌≤◌, ◌⊎◌, ◌↔◌, true, ◌+◌, ◌-◌, ◌*◌, ◌/◌, ◌^◌, ℕ, List, IfErr, IfOk, OnErr, OnOk, length, map, min, replicate, take, vec_capacity};
ghost use Rattle.rds_stream.specs.Recording.{AreGaps};
ghost use Rattle.rds_sync.specs.{Advance.group_item, Totals.totals_of, Ranges.IsInRange};
ghost use Rattle.rds_live.specs.{StreamDecoder.HasHeard, StreamDecoder.IsStreamDecoder, StreamDecoder.complete, StreamDecoder.most_kept, StreamDecoder.report_at, Next.completed, Next.live_next};
ghost use Rattle.rds_abi.specs.Stream.{AreClosed, AreCompleted, AreLast, AreLeft, AreTotals, AreTotalsAt, AreWritten, GoesOn, HearsOn, IsFollowed, IsLaid, IsLeft, IsMostTaken, IsNamed, IsNear, RefusesClosed, RefusesFollowed, RefusesLast, RefusesLeft, RefusesOn, RefusesStream, RefusesTaken, RefusesTold, items_after, place_after, rules_in_c as the_rules_in_c, stream_in_c as the_stream_in_c, stream_of as the_stream_of, terms_of, totals_from_c, unheard};
ghost use Rattle.rds_abi.specs.{Asked.AreGiven, Asked.IsFilled, Asked.gaps_of, Asked.rules_of as the_rules_of, Layout.item_in_c, Layout.totals_in_c, declared.refusal.Refusal.TheVariants.BitsPastBytes, declared.refusal.Refusal.TheVariants.OutOfMemory, declared.refusal.Refusal.TheVariants.SmallRoom, declared.refusal.Refusal.TheVariants.TooLong};

use crate::asked::{gaps_in, refuse_gaps, rules_of};
use crate::in_c::{item_in_c, totals_in_c};
use crate::layout::{RdsGap, RdsItem, RdsRules, RdsStream, RdsTotals};
use crate::part::near;
use crate::ranges::{loss_in_c, state_in_c, state_of, write_end};
use crate::refusal::Refusal;
use rds_code::RdsError;
use rds_live::laws::{next_is_heard, pieces_join};
use rds_live::{ResumeError, StreamDecoder};
use rds_stream::MOST_BITS;
use rds_sync::{Group, Item, Rules, Totals, laws};
use std::alloc::{AllocError, Global};
use std::marker::Model;

/// How many of the last bytes of a stream are known.
const MOST_KEPT: u64 = 30;

/// How many bytes a stream has at most.
const MOST_BYTES: u64 = MOST_BITS / 8;

/// By this number a stream is known, and the order of bytes.
const MAGIC: u32 = 0x3153_4452;

/// How many bytes a decoder takes at once at most, and how many items a byte may complete.
pub(crate) const AT_ONCE: usize = 960;

pub(crate) const ITEMS_A_BYTE: usize = 16;

/// Totals, from C.
fn totals_from_c(totals: RdsTotals) -> Totals
    ensures { result ≡ totals_from_c totals }
{
    let bursts = totals.bursts;
    Totals {
        valid: totals.valid,
        bursts,
        lost: totals.lost,
        bits: totals.bits,
        groups: totals.groups,
        complete: totals.complete,
        acquired: totals.acquired,
        losses: totals.losses,
    }
}

/// The terms of a stream: the rules and the gaps.
#[derive(Drop)]
pub(crate) struct StreamTerms {
    pub(crate) rules: Rules,
    pub(crate) gaps: Vec<(u64, u64)>,
}

impl Model for StreamTerms {
    ghost use Rattle.rds_live.specs.StreamDecoder.{Terms};

    ghost Value = { Terms };

    ghost view = { λ t. record { rules = t.rules; gaps = t.gaps.items } };
}

/// The rules, and gaps that a stream may have, looked at in this order. Takes no memory for the gaps.
fn rules_told(alloc: Global, rules: RdsRules, gaps: &[RdsGap]) -> Result<Rules, Refusal>
    ensures rules { IfOk result (λ found. found ≡ the_rules_of rules) }
    ensures given { IfOk result (λ _. AreGiven rules) }
    ensures gaps { IfOk result (λ _. AreGaps (2 ^ 36) (gaps_of gaps.now)) }
    ensures refused { IfErr result (RefusesTold rules gaps.now) }
{
    let rules = rules_of(alloc, rules)?;
    refuse_gaps(gaps, MOST_BITS)?;
    Ok(rules)
}

/// The terms of a stream, from C.
fn told_of(alloc: Global, rules: RdsRules, gaps: &[RdsGap]) -> Result<StreamTerms, Refusal>
    ensures terms { IfOk result (λ told. told ≡ terms_of rules gaps.now) }
    ensures given { IfOk result (λ _. AreGiven rules) }
    ensures gaps { IfOk result (λ told. AreGaps (2 ^ 36) told.gaps) }
    ensures refused { IfErr result (RefusesTold rules gaps.now) }
{
    let rules = rules_told(alloc, rules, gaps)?;
    let gaps = gaps_in(alloc, gaps)?;
    Ok(StreamTerms { rules, gaps })
}

/// The terms of a part of a stream, from C: the rules, and the gaps near the part that begins at `before` and
/// has `len` places. It takes memory only for these gaps.
pub(crate) fn told_near(
    alloc: Global,
    rules: RdsRules,
    gaps: &[RdsGap],
    before: u64,
    len: u64,
) -> Result<StreamTerms, Refusal>
    ensures near { IfOk result (λ told. IsNear (terms_of rules gaps.now) told before len) }
    ensures given { IfOk result (λ _. AreGiven rules) }
    ensures refused { IfErr result (RefusesTold rules gaps.now) }
{
    let rules = rules_told(alloc, rules, gaps)?;
    let gaps = gaps_in(alloc, near(gaps, before, len))?;
    Ok(StreamTerms { rules, gaps })
}

/// The terms by which the next bytes of a stream are heard, from C: the rules, and the gaps near these bytes
/// and near the known ones before them.
fn told_around(
    alloc: Global,
    rules: RdsRules,
    gaps: &[RdsGap],
    stream: &RdsStream,
    bytes: &[u8],
) -> Result<StreamTerms, Refusal>
    ensures near { IfOk result (λ told. IsNear (terms_of rules gaps.now) told
        (stream.now.place - 8 * min most_kept (stream.now.place / 8))
        (8 * (min most_kept (stream.now.place / 8) + min (2 ^ 33) (length bytes.now)))) }
    ensures given { IfOk result (λ _. AreGiven rules) }
    ensures refused { IfErr result (RefusesTold rules gaps.now) }
{
    let len = kept_of(stream) + MOST_BYTES.min(bytes.len() as u64);
    told_near(alloc, rules, gaps, known_from(stream), 8 * len)
}

/// The decoder of the stream that these numbers say.
pub(crate) fn live_of<'r>(
    alloc: Global,
    told: &'r StreamTerms,
    stream: &RdsStream,
) -> Result<StreamDecoder<'r>, Refusal>
    requires { AreGaps (2 ^ 36) told.now.gaps }
    ensures live { IfOk result (λ live. live ≡ the_stream_of told.now stream.now) }
    ensures left { IfOk result (λ _. IsLeft told.now stream.now) }
    ensures refused { IfErr result (RefusesStream told.now stream.now) }
{
    let rules = &told.rules;
    let gaps = told.gaps.as_slice();
    let Some(state) = state_of(rules, stream.state, stream.place) else {
        return Err(Refusal::UnlawfulState);
    };
    let tail = &stream.tail[..kept_of(stream) as usize];
    if !is_written(rules, tail, stream) {
        return Err(Refusal::UnlawfulState);
    }
    let totals = totals_from_c(stream.totals);
    match StreamDecoder::resume(alloc, rules, gaps, tail, stream.place, state, totals) {
        Ok(live) => Ok(live),
        Err(ResumeError::OutOfMemory) => Err(Refusal::OutOfMemory),
        Err(_) => Err(Refusal::UnlawfulState),
    }
}

/// Whether a call writes such numbers around the state of a stream with this tail, or all are 0.
fn is_written(rules: &Rules, tail: &[u8], stream: &RdsStream) -> bool
    requires { length tail.now ≤ 30 }
    ensures { (result ≡ true) ↔ ((stream.now.tail ≡ tail.now ++ replicate (32 - length tail.now) 0)
        × ((stream.now ≡ unheard) ⊎ IsNamed rules.now stream.now)) }
{
    stream.tail == tail_in_c(tail) && (is_unheard(stream) || is_named(rules, stream))
}

/// Whether nothing was heard of the stream, and no call has left it.
fn is_unheard(stream: &RdsStream) -> bool
    ensures { (result ≡ true) ↔ (stream.now ≡ unheard) }
{
    *stream == RdsStream::UNHEARD
}

/// Whether the numbers around the state of the stream are those that a call writes by these rules.
fn is_named(rules: &Rules, stream: &RdsStream) -> bool
    ensures { (result ≡ true) ↔ IsNamed rules.now stream.now }
{
    stream.magic == MAGIC
        && stream.version == 1
        && stream.rules == rules_in_c(rules)
        && stream.totals.reserved == [0; 4]
        && stream.reserved == 0
}

/// Rules, for C.
fn rules_in_c(rules: &Rules) -> RdsRules
    ensures { result ≡ the_rules_in_c rules.now }
{
    let numbers = rules.numbers();
    let (loss, of) = loss_in_c(numbers.loss);
    RdsRules {
        burst: numbers.burst,
        reach: numbers.reach,
        loss,
        of,
        reserved: [0; 4],
    }
}

/// How many of the last bytes of a stream are known.
pub(crate) fn kept_of(stream: &RdsStream) -> u64
    ensures { result ≡ min most_kept (stream.now.place / 8) }
{
    MOST_KEPT.min(stream.place / 8)
}

/// The place from which the bits of a stream are known.
pub(crate) fn known_from(stream: &RdsStream) -> u64
    ensures { result ≡ stream.now.place - 8 * min most_kept (stream.now.place / 8) }
{
    stream.place - 8 * kept_of(stream)
}

/// The last bytes of a stream, for C.
fn tail_in_c(tail: &[u8]) -> [u8; 32]
    requires { length tail.now ≤ 30 }
    ensures laid { result ≡ tail.now ++ replicate (32 - length tail.now) 0 }
    ensures says { take (length tail.now) result ≡ tail.now }
{
    let mut bytes = [0; 32];
    bytes[..tail.len()].copy_from_slice(tail);
    bytes
}

/// What is known of a stream, for C.
pub(crate) fn stream_in_c(rules: &Rules, live: &StreamDecoder<'_>) -> RdsStream
    requires { live.now.terms.rules ≡ rules.now }
    ensures laid { result ≡ the_stream_in_c live.now }
    ensures says { the_stream_of live.now.terms result ≡ live.now }
    ensures lawful { IsStreamDecoder live.now }
{
    RdsStream {
        magic: MAGIC,
        version: 1,
        rules: rules_in_c(rules),
        place: live.place(),
        state: state_in_c(rules, live.state()),
        totals: totals_in_c(live.totals()),
        tail: tail_in_c(live.tail()),
        reserved: 0,
    }
}

/// Writes the items to the beginning of the room, and how many they are to the count.
fn write_items(room: &mut [RdsItem], items: &[Item], count: &mut u64) -> Result<(), Refusal>
    ensures filled { OnOk result (IsFilled (map item_in_c items.now) room.old room.new) }
    ensures count { count.new ≡ length items.now }
    ensures untouched { OnErr result (room.new ≡ room.old) }
    ensures refused { IfErr result (λ refusal. (refusal ≡ SmallRoom) × (length room.old < length items.now)) }
{
    *count = items.len() as u64;
    if room.len() < items.len() {
        return Err(Refusal::SmallRoom);
    }
    fill_room(room, items);
    Ok(())
}

/// Writes the items to the beginning of the room.
fn fill_room(room: &mut [RdsItem], items: &[Item])
    requires { length items.now ≤ length room.old }
    ensures { IsFilled (map item_in_c items.now) room.old room.new }
{
    for at in 0..items.len() {
        room[at] = item_in_c(items[at]);
    }
}

/// Takes as many of the next bytes of a stream, the highest bit of a byte first, as there is room for the items that they complete. It
/// writes these to the beginning of `room`, how many they are to `count`, the stream after them to `stream`, and how many bytes it took to
/// `taken`. The others are to be offered again. The bytes may be any number, none too. The gaps are places in the stream.
///
/// It takes all bytes, or the items of one byte more would not fit. A byte completes at most 16 items, so room for 16 is never too little.
///
/// However a stream was cut, the items are those of the run over all bytes, and with [`finish`] they are the
/// report's. The numbers of the stream are the same, too, so these may be compared.
///
/// Refuses rules out of their range, then gaps that no stream may have, then `UnlawfulState`, then `TooLong`, past 2^36 bits with all that
/// are offered. It then refuses `SmallRoom`, if the items of the first byte do not fit: `count` tells how many they are, and nothing else
/// was written. Memory may be refused at any time. It is taken for the tables of the rules, for the gaps near the bytes, and for as many
/// items as there is room for, or as 960 bytes may complete.
pub fn push(
    alloc: Global,
    bytes: &[u8],
    gaps: &[RdsGap],
    rules: RdsRules,
    stream: &mut RdsStream,
    room: &mut [RdsItem],
    taken: &mut u64,
    count: &mut u64,
) -> Result<(), Refusal>
    ensures heard { OnOk result (HearsOn (terms_of rules gaps.now) stream.old stream.new (take taken.new bytes.now)) }
    ensures laid { OnOk result (IsLaid (terms_of rules gaps.now) stream.new) }
    ensures items { OnOk result
        (AreWritten (AreCompleted (terms_of rules gaps.now) stream.old (take taken.new bytes.now)) room.old room.new count.new) }
    ensures most { OnOk result
        (IsMostTaken (the_stream_of (terms_of rules gaps.now) stream.old) bytes.now (length room.old) taken.new) }
    ensures few { OnOk result (count.new ≤ 16 * taken.new) }
    ensures next { OnOk result (IsFollowed rules gaps.now stream.new) }
    ensures lawful { OnOk result (IsFollowed rules gaps.now stream.old × (place_after stream.old bytes.now ≤ 2 ^ 36)) }
    ensures untouched { OnErr result ((room.new ≡ room.old) × (stream.new ≡ stream.old) × (taken.new ≡ taken.old)) }
    ensures refused { IfErr result
        (RefusesTaken rules gaps.now stream.old bytes.now (length room.old) count.old count.new) }
    ensures roomy { IfErr result (λ refusal. refusal ≡ SmallRoom → length room.old < 16) }

    // The same of numbers that are lawful and of no stream.
    ensures after { OnOk result (GoesOn (terms_of rules gaps.now) stream.old stream.new (take taken.new bytes.now)) }
    ensures filled { OnOk result
        (IsFilled (map item_in_c (items_after (terms_of rules gaps.now) stream.old (take taken.new bytes.now))) room.old room.new) }
    ensures count { OnOk result
        (count.new ≡ length (items_after (terms_of rules gaps.now) stream.old (take taken.new bytes.now))) }
{
    let told = told_around(alloc, rules, gaps, stream, bytes)?;
    laws::runs_give_few_items();
    next_is_heard();
    go_on(alloc, &told, bytes, stream, room, taken, count)?;
    Ok(())
}

/// Takes the next bytes of a stream, as many as there is room for, and writes their items.
fn go_on(
    alloc: Global,
    told: &StreamTerms,
    bytes: &[u8],
    stream: &mut RdsStream,
    room: &mut [RdsItem],
    taken: &mut u64,
    count: &mut u64,
) -> Result<(), Refusal>
    requires gaps { AreGaps (2 ^ 36) told.now.gaps }
    requires range { IsInRange told.now.rules }
    ensures laid { OnOk result (IsLaid told.now stream.new) }
    ensures within { OnOk result (taken.new ≤ length bytes.now) }
    ensures after { OnOk result (GoesOn told.now stream.old stream.new (take taken.new bytes.now)) }
    ensures filled { OnOk result
        (IsFilled (map item_in_c (items_after told.now stream.old (take taken.new bytes.now))) room.old room.new) }
    ensures count { OnOk result (count.new ≡ length (items_after told.now stream.old (take taken.new bytes.now))) }
    ensures most { OnOk result (IsMostTaken (the_stream_of told.now stream.old) bytes.now (length room.old) taken.new) }
    ensures next { OnOk result (IsLeft told.now stream.new) }
    ensures lawful { OnOk result (IsLeft told.now stream.old) }
    ensures fits { OnOk result (place_after stream.old bytes.now ≤ 2 ^ 36) }
    ensures untouched { OnErr result ((room.new ≡ room.old) × (stream.new ≡ stream.old) × (taken.new ≡ taken.old)) }
    ensures refused { IfErr result
        (RefusesOn told.now stream.old bytes.now (take 1 bytes.now) (length room.old) count.new (count.new ≡ count.old)) }
{
    let mut live = live_of(alloc, told, stream)?;
    refuse_long(stream.place, bytes)?;
    let at_once = bytes.len().min(room.len() / ITEMS_A_BYTE).clamp(1, AT_ONCE);
    let mut some = Vec::with_capacity(alloc, ITEMS_A_BYTE * at_once)?;
    match take_fitting(&mut live, &told.rules, bytes, stream, room, &mut some) {
        Ok(fit) => {
            *taken = fit.taken as u64;
            *count = fit.count as u64;
            Ok(())
        }
        Err(needed) => {
            *count = needed as u64;
            Err(Refusal::SmallRoom)
        }
    }
}

/// Refuses bytes with which a stream would be too long.
pub(crate) fn refuse_long(place: u64, bytes: &[u8]) -> Result<(), Refusal>
    requires { place ≤ 2 ^ 36 }
    ensures fits { OnOk result (place + 8 * length bytes.now ≤ 2 ^ 36) }
    ensures refused { IfErr result (λ refusal. (refusal ≡ TooLong) × (2 ^ 36 < place + 8 * length bytes.now)) }
{
    if bytes.len() as u64 > (MOST_BITS - place) / 8 {
        return Err(Refusal::TooLong);
    }
    Ok(())
}

/// How many bytes were taken, and how many items they completed.
#[derive(Clone, Copy)]
struct Fit {
    taken: usize,
    count: usize,
}

/// Has the decoder take as many of the next bytes as there is room for the items that they complete, and writes the items, and the stream
/// after them. Refuses if the items of the first byte do not fit, and tells how many they are.
fn take_fitting(
    live: &mut StreamDecoder<'_>,
    rules: &Rules,
    bytes: &[u8],
    stream: &mut RdsStream,
    room: &mut [RdsItem],
    some: &mut Vec<Item>,
) -> Result<Fit, usize>
    requires rules { live.old.terms.rules ≡ rules.now }
    requires capacity { 16 ≤ vec_capacity some.old }
    requires fits { live.old.place + 8 * length bytes.now ≤ 2 ^ 36 }
    requires range { IsInRange live.old.terms.rules }
    requires lawful { IsStreamDecoder live.old }
    ensures within { IfOk result (λ fit. fit.taken ≤ length bytes.now) }
    ensures after { IfOk result
        (λ fit. the_stream_of live.old.terms stream.new ≡ live_next live.old (take fit.taken bytes.now)) }
    ensures laid { OnOk result (stream.new ≡ the_stream_in_c (the_stream_of live.old.terms stream.new)) }
    ensures live { OnOk result (IsStreamDecoder (the_stream_of live.old.terms stream.new)) }
    ensures filled { IfOk result
        (λ fit. IsFilled (map item_in_c (completed live.old (take fit.taken bytes.now))) room.old room.new) }
    ensures count { IfOk result (λ fit. fit.count ≡ length (completed live.old (take fit.taken bytes.now))) }
    ensures most { IfOk result (λ fit. IsMostTaken live.old bytes.now (length room.old) fit.taken) }
    ensures small { IfErr result (λ needed. length room.old < length (completed live.old (take 1 bytes.now))) }
    ensures needed { IfErr result (λ needed. needed ≡ length (completed live.old (take 1 bytes.now))) }
    ensures untouched { OnErr result ((room.new ≡ room.old) × (stream.new ≡ stream.old)) }
{
    pieces_join();
    let mut fit = take_piece(live, rules, bytes, stream, room, some)?;
    while fit.taken < bytes.len() {
        let rest = &bytes[fit.taken..];
        let free = &mut room[fit.count..];
        match take_piece(live, rules, rest, stream, free, some) {
            Ok(more) => {
                fit.taken += more.taken;
                fit.count += more.count;
            }
            Err(_) => return Ok(fit),
        }
    }
    Ok(fit)
}

/// Has the decoder take some of the next bytes, as many as surely have room, or one: writes the items that they complete, and the stream
/// after them. Refuses if the items of one byte do not fit, and tells how many they are.
fn take_piece(
    live: &mut StreamDecoder<'_>,
    rules: &Rules,
    bytes: &[u8],
    stream: &mut RdsStream,
    room: &mut [RdsItem],
    some: &mut Vec<Item>,
) -> Result<Fit, usize>
    requires rules { live.old.terms.rules ≡ rules.now }
    requires capacity { 16 ≤ vec_capacity some.old }
    requires fits { live.old.place + 8 * length bytes.now ≤ 2 ^ 36 }
    ensures capacity { vec_capacity some.new ≡ vec_capacity some.old }
    ensures terms { OnOk result (live.new.terms ≡ live.old.terms) }
    ensures within { IfOk result (λ fit. fit.taken ≤ length bytes.now) }
    ensures on { IfOk result (λ fit. 0 < length bytes.now → 0 < fit.taken) }
    ensures after { IfOk result (λ fit. live.new ≡ live_next live.old (take fit.taken bytes.now)) }
    ensures laid { OnOk result (stream.new ≡ the_stream_in_c live.new) }
    ensures says { OnOk result (the_stream_of live.new.terms stream.new ≡ live.new) }
    ensures live { OnOk result (IsStreamDecoder live.new) }
    ensures filled { IfOk result
        (λ fit. IsFilled (map item_in_c (completed live.old (take fit.taken bytes.now))) room.old room.new) }
    ensures count { IfOk result (λ fit. fit.count ≡ length (completed live.old (take fit.taken bytes.now))) }
    ensures room { IfOk result (λ fit. fit.count ≤ length room.old) }
    ensures some { IfErr result (λ needed. 0 < length bytes.now) }
    ensures small { IfErr result (λ needed. length room.old < length (completed live.old (take 1 bytes.now))) }
    ensures needed { IfErr result (λ needed. needed ≡ length (completed live.old (take 1 bytes.now))) }
    ensures untouched { OnErr result ((room.new ≡ room.old) × (stream.new ≡ stream.old)) }
{
    laws::runs_give_few_items();
    let most = (room.len() / ITEMS_A_BYTE).max(1);
    let piece = &bytes[..bytes.len().min(most)];
    match live.take(piece, some) {
        Ok(taken) => {
            let count = some.len();
            if room.len() < count {
                return Err(count);
            }
            fill_room(room, some);
            *stream = stream_in_c(rules, live);
            Ok(Fit { taken, count })
        }
        Err(_) => unreachable!(),
    }
}

/// Ends a stream: writes the group in progress, as far as it was read, to the beginning of `room`, and to `count` how many groups these
/// are, one or none. It writes to `totals` those of the report of all that was heard. The stream is left as it is, and can be continued.
///
/// Refuses as [`push`] does, except `TooLong`.
pub fn finish(
    alloc: Global,
    gaps: &[RdsGap],
    rules: RdsRules,
    stream: &RdsStream,
    room: &mut [RdsItem],
    count: &mut u64,
    totals: &mut RdsTotals,
) -> Result<(), Refusal>
    ensures items { OnOk result
        (AreWritten (AreClosed (terms_of rules gaps.now) stream.now) room.old room.new count.new) }
    ensures totals { OnOk result (AreTotals (terms_of rules gaps.now) stream.now totals.new) }
    ensures lawful { OnOk result (IsFollowed rules gaps.now stream.now) }
    ensures untouched { OnErr result ((room.new ≡ room.old) × (totals.new ≡ totals.old)) }
    ensures refused { IfErr result (RefusesClosed rules gaps.now stream.now (length room.old) count.old count.new) }
{
    let told = told_of(alloc, rules, gaps)?;
    let live = live_of(alloc, &told, stream)?;
    let end = live.finish();
    write_end(room, end.group, count)?;
    *totals = totals_in_c(end.totals);
    Ok(())
}

/// Whether a stream can be continued by these rules and gaps. Refuses as [`finish`] does, except `SmallRoom`.
pub fn check(
    alloc: Global,
    gaps: &[RdsGap],
    rules: RdsRules,
    stream: &RdsStream,
) -> Result<(), Refusal>
    ensures lawful { OnOk result (IsFollowed rules gaps.now stream.now) }
    ensures refused { IfErr result (RefusesFollowed rules gaps.now stream.now) }
{
    let told = told_of(alloc, rules, gaps)?;
    live_of(alloc, &told, stream)?;
    Ok(())
}

/// Ends a stream with the first `bits` bits of these bytes, so inside a byte too. It writes the items that they complete to the beginning
/// of `room`, and after them the group in progress, as far as it was read; to `count` how many these are; and to `totals` those of the
/// report of all that was heard, and of these bits. The stream is left as it is.
///
/// Refuses as [`push`] does, and after `TooLong` `BitsPastBytes`, if the bytes have fewer bits. It takes memory as that does.
pub fn finish_with(
    alloc: Global,
    bytes: &[u8],
    bits: u64,
    gaps: &[RdsGap],
    rules: RdsRules,
    stream: &RdsStream,
    room: &mut [RdsItem],
    count: &mut u64,
    totals: &mut RdsTotals,
) -> Result<(), Refusal>
    ensures items { OnOk result
        (AreWritten (AreLeft (terms_of rules gaps.now) stream.now bytes.now bits) room.old room.new count.new) }
    ensures totals { OnOk result (AreTotalsAt (terms_of rules gaps.now) stream.now bytes.now bits totals.new) }
    ensures lawful { OnOk result (IsFollowed rules gaps.now stream.now × AreLast stream.now bytes.now bits) }
    ensures untouched { OnErr result ((room.new ≡ room.old) × (totals.new ≡ totals.old)) }
    ensures refused { IfErr result
        (RefusesLeft rules gaps.now stream.now bytes.now bits (length room.old) count.old count.new) }
{
    let told = told_of(alloc, rules, gaps)?;
    let live = live_of(alloc, &told, stream)?;
    refuse_last(stream, bytes, bits)?;
    match end_of_stream(alloc, live, bytes, bits) {
        Ok((items, found)) => {
            write_items(room, &items, count)?;
            *totals = totals_in_c(found);
            Ok(())
        }
        Err(_) => Err(Refusal::OutOfMemory),
    }
}

/// Refuses bits with which a stream would be too long, and then more than the bytes have.
fn refuse_last(stream: &RdsStream, bytes: &[u8], bits: u64) -> Result<(), Refusal>
    requires { stream.now.place ≤ 2 ^ 36 }
    ensures last { OnOk result (AreLast stream.now bytes.now bits) }
    ensures refused { IfErr result (RefusesLast stream.now bytes.now bits) }
{
    if bits > MOST_BITS - stream.place {
        return Err(Refusal::TooLong);
    }
    if bits.div_ceil(8) > bytes.len() as u64 {
        return Err(Refusal::BitsPastBytes);
    }
    Ok(())
}

/// The items that the first `bits` bits complete, then the group in progress if the stream ends there, and the totals of the report.
fn end_of_stream(
    alloc: Global,
    live: StreamDecoder<'_>,
    bytes: &[u8],
    bits: u64,
) -> Result<(Vec<Item>, Totals), RdsError>
    requires { bits ≤ 8 * length bytes.now }
    ensures items { IfOk result (λ r. (before : List ℕ) → HasHeard live.entry before
        → complete live.entry.terms before ++ r.0.items
        ≡ report_at live.entry.terms (before ++ bytes.now) (8 * length before + bits)) }
    ensures totals { IfOk result (λ r. (before : List ℕ) → HasHeard live.entry before
        → r.1 ≡ totals_of (report_at live.entry.terms (before ++ bytes.now) (8 * length before + bits))) }
{
    let mut live = live;
    let mut last = Vec::with_capacity(alloc, ITEMS_A_BYTE)?;
    let (whole, rest) = bytes.split_at((bits / 8) as usize);
    let mut items = live.take_all(alloc, whole)?;
    let end = live.finish_with(rest, bits % 8, &mut last)?;
    push_end(&mut items, &last, end.group)?;
    Ok((items, end.totals))
}

/// Appends the last items to the others, and then the group in progress, if there is one.
fn push_end(items: &mut Vec<Item>, last: &[Item], group: Option<Group>) -> Result<(), AllocError>
    ensures { OnOk result (items.new.items ≡ items.old.items ++ last.now ++ group_item group) }
{
    items.extend_from_slice(last)?;
    if let Some(group) = group {
        items.push(Item::Group(group))?;
    }
    Ok(())
}
