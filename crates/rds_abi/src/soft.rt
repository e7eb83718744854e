//! A stream of symbols, whose bits are followed, and whose groups are read again from the symbols.

ghost use Rattle.std.specs.Prelude.{◌≡◌, ◌++◌, ◌<◌, ◌≤◌, ◌+◌, ◌-◌, ◌*◌, ◌/◌, ◌^◌, ℕ, IfErr, IfOk, OnErr, OnOk, drop, length, map, min, take};
ghost use Rattle.rds_stream.specs.Recording.{AreGaps, length_of, packed_bit};
ghost use Rattle.rds_live.specs.{Gaps.gaps_within as the_gaps_within, StreamDecoder.most_kept, Next.completed, Next.live_next};
ghost use Rattle.rds_soft.specs.{Symbols.hard_bit, ReadAgain.group_again, ReadAgain.symbols_of};
ghost use Rattle.rds_abi.specs.{Asked.IsFilled, Asked.gaps_of, Stream.GoesOn, Stream.IsFollowed, Stream.IsLaid, Stream.IsLeft, Stream.RefusesOn, Stream.items_after, Stream.place_after, Stream.terms_of, Soft.AreReadAgain, Soft.HearsOnSoft, Soft.IsMargin, Soft.IsPushed, Soft.IsWrittenAgain, Soft.RefusesMargin, Soft.RefusesTakenSoft, Soft.again_in as the_again_in, Soft.byte_count, Soft.bytes_of as the_bytes_of, Soft.bytes_taken, Soft.piece_of as the_piece_of, Layout.soft_item_in_c as the_soft_item_in_c, declared.refusal.Refusal.TheVariants.OutOfMemory, declared.refusal.Refusal.TheVariants.SmallRoom};

use crate::in_c::soft_item_in_c;
use crate::layout::{RdsGap, RdsItem, RdsRules, RdsSoft, RdsStream};
use crate::part::{gaps_within, near};
use crate::refusal::Refusal;
use crate::stream::{
    AT_ONCE, ITEMS_A_BYTE, StreamTerms, kept_of, known_from, live_of, refuse_long, stream_in_c,
    told_near,
};
use rds_live::StreamDecoder;
use rds_live::laws::next_is_heard;
use rds_soft::{Margin, Search, SoftGroup, SoftItem, pack_bits};
use rds_stream::Recording;
use rds_sync::{Group, Item, laws};
use std::alloc::{AllocError, Global};

/// How many of the last symbols are kept.
const SYMBOLS_KEPT: usize = 240;

/// The margin of this weight.
fn margin_of(weight: u8) -> Result<Margin, Refusal>
    ensures margin { IfOk result (λ margin. margin ≡ weight) }
    ensures range { OnOk result (IsMargin weight) }
    ensures refused { IfErr result (RefusesMargin weight) }
{
    match Margin::new(weight) {
        Some(margin) => Ok(margin),
        None => Err(Refusal::MarginRange),
    }
}

// ---- symbols

/// The first of these symbols: those that are taken at once, and the one after them.
fn piece_of(symbols: &[i8], room: usize) -> &[i8]
    ensures value { result.now ≡ the_piece_of symbols.now room }
    ensures count { (length result.now - 1) / 8 ≡ byte_count symbols.now room }
{
    let bytes = symbols.len().saturating_sub(1) / 8;
    let most = (room / ITEMS_A_BYTE).min(AT_ONCE).max(1);
    &symbols[..symbols.len().min(8 * bytes.min(most) + 1)]
}

/// The whole bytes of bits of symbols.
fn bytes_of(alloc: Global, symbols: &[i8]) -> Result<Vec<u8>, AllocError>
    ensures { IfOk result (λ bytes. bytes.items ≡ the_bytes_of symbols.now) }
{
    let raw = raw_of(alloc, symbols)?;
    let packed = pack_bits(alloc, &raw)?;
    Vec::from_slice(alloc, whole_bytes(&packed, symbols))
}

/// The whole bytes of the packed bits of symbols.
fn whole_bytes<'a>(packed: &'a [u8], symbols: &[i8]) -> &'a [u8]
    requires enough { length symbols.now ≤ 8 * length packed.now + 1 }
    requires bits { (i : ℕ) → i + 1 < length symbols.now → packed_bit packed.now i ≡ hard_bit symbols.now i }
    ensures { result.now ≡ the_bytes_of symbols.now }
{
    &packed[..symbols.len().saturating_sub(1) / 8]
}

/// The symbols that are kept, and these after them.
fn symbols_near(alloc: Global, kept: &[i8; 240], symbols: &[i8]) -> Result<Vec<i8>, AllocError>
    ensures { IfOk result (λ near. near.items ≡ kept.now ++ symbols.now) }
{
    let mut near = Vec::with_capacity(alloc, SYMBOLS_KEPT + symbols.len())?;
    near.extend_from_slice(kept)?;
    near.extend_from_slice(symbols)?;
    Ok(near)
}

/// Symbols as bytes.
fn raw_of(alloc: Global, symbols: &[i8]) -> Result<Vec<u8>, AllocError>
    ensures { IfOk result (λ raw. symbols_of raw.items ≡ symbols.now) }
{
    let mut raw = Vec::with_capacity(alloc, symbols.len())?;
    for at in 0..symbols.len() {
        raw.push(symbols[at].cast_unsigned())?;
    }
    Ok(raw)
}

/// As many symbols as are kept, from number `first` on.
fn kept_from(symbols: &[i8], first: usize) -> [i8; 240]
    requires { first + 240 ≤ length symbols.now }
    ensures { result ≡ take 240 (drop first symbols.now) }
{
    match symbols[first..].first_chunk() {
        Some(chunk) => *chunk,
        None => unreachable!(),
    }
}

// ---- items read again

/// The bits near the next bytes of a stream as a recording: the bytes that are kept, and these after them.
fn recording_near(
    alloc: Global,
    gaps: &[RdsGap],
    stream: &RdsStream,
    bytes: &[u8],
) -> Result<Recording, AllocError>
    requires gaps { AreGaps (2 ^ 36) (gaps_of gaps.now) }
    requires fits { stream.now.place + 8 * length bytes.now ≤ 2 ^ 36 }
    ensures len { IfOk result (λ part. length_of part ≡ 8 * (min most_kept (stream.now.place / 8) + length bytes.now)) }
    ensures gaps { IfOk result (λ part. part.gaps
        ≡ the_gaps_within (gaps_of gaps.now) (stream.now.place - 8 * min most_kept (stream.now.place / 8))
        (8 * (min most_kept (stream.now.place / 8) + length bytes.now))) }
{
    let kept = kept_of(stream) as usize;
    let (before, len) = (known_from(stream), 8 * (kept + bytes.len()) as u64);
    let mut copy = Vec::with_capacity(alloc, kept + bytes.len())?;
    copy.extend_from_slice(&stream.tail[..kept])?;
    copy.extend_from_slice(bytes)?;
    let found = gaps_within(alloc, near(gaps, before, len), before, len)?;
    match Recording::with_gaps(copy, len, found) {
        Ok(recording) => Ok(recording),
        Err(_) => unreachable!(),
    }
}

/// From what items are read again: a part of a stream, and how.
#[derive(Clone, Copy)]
struct Source<'a> {
    recording: &'a Recording,
    /// The part's symbols, signed bytes.
    symbols: &'a [u8],
    /// The place of the part's first bit in the stream.
    before: u64,
    margin: Margin,
}

/// An item of the stream, read again from a part of it.
fn again_in(search: &mut Search, source: &Source<'_>, item: Item) -> SoftItem
    ensures { result ≡ the_again_in source.now.recording.now (symbols_of source.now.symbols.now) source.now.before source.now.margin item }
{
    match item {
        Item::Acquired { place, number } => SoftItem::Acquired { place, number },
        Item::LostLock { place } => SoftItem::LostLock { place },
        Item::Group(group) => {
            let place = group.place;
            let there = group_there(search, source, group);
            SoftItem::Group(SoftGroup { place, ..there })
        }
    }
}

/// The group at its place in the part.
fn group_there(search: &mut Search, source: &Source<'_>, group: Group) -> SoftGroup
    ensures { result ≡ group_again source.now.recording.now (symbols_of source.now.symbols.now) source.now.margin
        (group.place - source.now.before) group.blocks }
{
    let there = Item::Group(Group {
        place: group.place.saturating_sub(source.before),
        ..group
    });
    match search.read_again(source.recording, source.symbols, source.margin, &there) {
        SoftItem::Group(group) => group,
        _ => unreachable!(),
    }
}

/// Writes the items, read again, to the beginning of the room.
fn write_again(search: &mut Search, source: &Source<'_>, items: &[Item], room: &mut [RdsItem])
    requires { length items.now ≤ length room.old }
    ensures { IsFilled
        (map (λ item. the_soft_item_in_c (the_again_in source.now.recording.now (symbols_of source.now.symbols.now) source.now.before source.now.margin item)) items.now)
        room.old room.new }
{
    for at in 0..items.len() {
        room[at] = soft_item_in_c(again_in(search, source, items[at]));
    }
}

// ---- the stream

/// The bits and symbols near the next bytes of a stream: those that are kept, and the next ones.
#[derive(Drop)]
struct Near {
    recording: Recording,
    symbols: Vec<u8>,
    /// The symbols that are kept after these bytes.
    last: [i8; 240],
}

/// The bits and symbols near the next bytes of a stream, which are those of `piece`.
fn near_of(
    alloc: Global,
    gaps: &[RdsGap],
    stream: &RdsSoft,
    piece: &[i8],
    bytes: &[u8],
) -> Result<Near, AllocError>
    requires gaps { AreGaps (2 ^ 36) (gaps_of gaps.now) }
    requires fits { stream.now.stream.place + 8 * length bytes.now ≤ 2 ^ 36 }
    requires held { 8 * length bytes.now ≤ length piece.now }
    ensures len { IfOk result (λ near. length_of near.recording
        ≡ 8 * (min most_kept (stream.now.stream.place / 8) + length bytes.now)) }
    ensures gaps { IfOk result (λ near. near.recording.gaps
        ≡ the_gaps_within (gaps_of gaps.now) (stream.now.stream.place - 8 * min most_kept (stream.now.stream.place / 8))
        (8 * (min most_kept (stream.now.stream.place / 8) + length bytes.now))) }
    ensures symbols { IfOk result (λ near. symbols_of near.symbols.items
        ≡ drop (240 - 8 * min most_kept (stream.now.stream.place / 8)) (stream.now.symbols ++ piece.now)) }
    ensures last { IfOk result (λ near. near.last
        ≡ take 240 (drop (8 * length bytes.now) (stream.now.symbols ++ piece.now))) }
{
    let recording = recording_near(alloc, gaps, &stream.stream, bytes)?;
    let all = symbols_near(alloc, &stream.symbols, piece)?;
    let first = SYMBOLS_KEPT - 8 * kept_of(&stream.stream) as usize;
    let symbols = raw_of(alloc, &all[first..])?;
    let last = kept_from(&all, 8 * bytes.len());
    Ok(Near {
        recording,
        symbols,
        last,
    })
}

/// The items that these bytes complete.
fn items_of(
    alloc: Global,
    live: &mut StreamDecoder<'_>,
    bytes: &[u8],
) -> Result<Vec<Item>, AllocError>
    requires few { length bytes.now ≤ 960 }
    requires fits { live.old.place + 8 * length bytes.now ≤ 2 ^ 36 }
    ensures items { IfOk result (λ items. items.items ≡ completed live.old bytes.now) }
    ensures next { OnOk result (live.new ≡ live_next live.old bytes.now) }
{
    let mut items = Vec::with_capacity(alloc, ITEMS_A_BYTE * bytes.len())?;
    match live.take(bytes, &mut items) {
        Ok(_) => Ok(items),
        Err(_) => unreachable!(),
    }
}

/// Takes the symbols of these bytes: writes the items that they complete, read again, how many they are, and the stream after them.
fn go_on(
    alloc: Global,
    told: &StreamTerms,
    gaps: &[RdsGap],
    margin: Margin,
    piece: &[i8],
    bytes: &[u8],
    stream: &mut RdsSoft,
    room: &mut [RdsItem],
    count: &mut u64,
) -> Result<(), Refusal>
    requires gaps { AreGaps (2 ^ 36) told.now.gaps }
    requires all { AreGaps (2 ^ 36) (gaps_of gaps.now) }
    requires few { length bytes.now ≤ 960 }
    requires held { 8 * length bytes.now ≤ length piece.now }
    ensures laid { OnOk result (IsLaid told.now stream.new.stream) }
    ensures after { OnOk result (GoesOn told.now stream.old.stream stream.new.stream bytes.now) }
    ensures last { OnOk result (stream.new.symbols
        ≡ take 240 (drop (8 * length bytes.now) (stream.old.symbols ++ piece.now))) }
    ensures filled { OnOk result (IsWrittenAgain told.now (gaps_of gaps.now) margin stream.old piece.now bytes.now room.old room.new) }
    ensures count { OnOk result (count.new ≡ length (items_after told.now stream.old.stream bytes.now)) }
    ensures next { OnOk result (IsLeft told.now stream.new.stream) }
    ensures lawful { OnOk result (IsLeft told.now stream.old.stream) }
    ensures fits { OnOk result (place_after stream.old.stream bytes.now ≤ 2 ^ 36) }
    ensures untouched { OnErr result ((room.new ≡ room.old) × (stream.new ≡ stream.old)) }
    ensures refused { IfErr result
        (RefusesOn told.now stream.old.stream bytes.now bytes.now (length room.old) count.new (count.new ≡ count.old)) }
{
    let mut live = live_of(alloc, told, &stream.stream)?;
    refuse_long(stream.stream.place, bytes)?;
    let near = near_of(alloc, gaps, stream, piece, bytes)?;
    let items = items_of(alloc, &mut live, bytes)?;
    let Ok(mut search) = Search::new(alloc) else {
        return Err(Refusal::OutOfMemory);
    };
    let found = items.len() as u64;
    if room.len() < items.len() {
        *count = found;
        return Err(Refusal::SmallRoom);
    }
    let source = Source {
        recording: &near.recording,
        symbols: &near.symbols,
        before: known_from(&stream.stream),
        margin,
    };
    write_again(&mut search, &source, &items, room);
    stream.stream = stream_in_c(&told.rules, &live);
    stream.symbols = near.last;
    *count = found;
    Ok(())
}

/// Takes as many of the next symbols of a stream as surely have room for the items that their bits complete, eight for each whole byte of
/// bits. It writes these items to the beginning of `room`, each group read again from its symbols, how many they are to `count`, the
/// stream after them to `stream`, and how many symbols it took to `taken`. The others, one at least, are to be offered again. Symbols
/// are signed bytes: n + 1 of them are n bits.
///
/// However a stream was cut, the items are those of the run over all bits, read again from all symbols. The numbers of the stream are
/// the same, too.
///
/// It takes as many whole bytes as there are, or as a sixteenth of the room, 960 at most, and one at least. Refuses `MarginRange`, and
/// then as [`push`](crate::push) does the bytes that it would take; without memory nothing was written.
pub fn push_soft(
    alloc: Global,
    symbols: &[i8],
    gaps: &[RdsGap],
    rules: RdsRules,
    margin: u8,
    stream: &mut RdsSoft,
    room: &mut [RdsItem],
    taken: &mut u64,
    count: &mut u64,
) -> Result<(), Refusal>
    ensures heard { OnOk result (HearsOnSoft (terms_of rules gaps.now) stream.old stream.new symbols.now taken.new) }
    ensures items { OnOk result
        (AreReadAgain (terms_of rules gaps.now) margin stream.old symbols.now taken.new room.old room.new count.new) }
    ensures taken { OnOk result (taken.new ≡ 8 * byte_count symbols.now (length room.old)) }
    ensures laid { OnOk result (IsLaid (terms_of rules gaps.now) stream.new.stream) }
    ensures next { OnOk result (IsFollowed rules gaps.now stream.new.stream) }
    ensures lawful { OnOk result (IsPushed rules gaps.now margin stream.old (bytes_taken symbols.now (length room.old))) }
    ensures untouched { OnErr result ((room.new ≡ room.old) × (stream.new ≡ stream.old) × (taken.new ≡ taken.old)) }
    ensures refused { IfErr result
        (RefusesTakenSoft rules gaps.now margin stream.old symbols.now (length room.old) count.old count.new) }
    ensures roomy { IfErr result (λ refusal. refusal ≡ SmallRoom → length room.old < 16) }

    // The same of numbers that are lawful and of no stream.
    ensures after { OnOk result
        (GoesOn (terms_of rules gaps.now) stream.old.stream stream.new.stream (bytes_taken symbols.now (length room.old))) }
{
    let margin = margin_of(margin)?;
    let piece = piece_of(symbols, room.len());
    let len = kept_of(&stream.stream) + (piece.len().saturating_sub(1) / 8) as u64;
    let told = told_near(alloc, rules, gaps, known_from(&stream.stream), 8 * len)?;
    let bytes = bytes_of(alloc, piece)?;
    laws::runs_give_few_items();
    laws::steps_are_lawful();
    laws::acquisitions_are_late();
    next_is_heard();
    go_on(
        alloc, &told, gaps, margin, piece, &bytes, stream, room, count,
    )?;
    *taken = 8 * bytes.len() as u64;
    Ok(())
}
