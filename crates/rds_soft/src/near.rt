//! The part of a stream that its last symbols and the next ones are.

ghost use Rattle.std.specs.Prelude.{◌≡◌, ◌++◌, ◌-◌, ◌+◌, ◌*◌, ◌^◌, ◌<◌, ◌≤◌, ◌⊎◌, ℕ, All, IfOk, IfSome, List, OnOk, length, map};
ghost use Rattle.rds_code.specs.declared.reading.Reading.TheVariants.{Valid as HardValid};
ghost use Rattle.rds_live.specs.{Moving.most_behind, Moving.moved_state, Next.moved_back, Places.place_of};
ghost use Rattle.rds_stream.specs.Recording.{AreGaps, Signal, length_of};
ghost use Rattle.rds_sync.specs.{Lawful.IsLawful, Step.items_of_end, Step.run, declared.item.Block.TheVariants.Read as HardRead};
ghost use Rattle.rds_soft.specs.{SoftLists.third_offset as the_third_offset, SoftLists.valid_group, SoftStream.group_item, declared.soft_item.SoftItem.TheVariants.Group as InSoft, Inside.Streams.again_in, Inside.Streams.near_again, Inside.Streams.last_symbols, Inside.Streams.moved_again, Inside.Streams.part_of, Inside.Streams.place_again};

use crate::margin::Margin;
use crate::nearest::Search;
use crate::pack::pack_bits;
use crate::reading_again::{has_work_for_several, read_all};
use crate::soft_item::{SoftGroup, SoftItem};
use crate::soft_list::{SoftList, ValidGroup};
use rds_code::{Offset, Reading};
use rds_live::{finish_part, gaps_of_part, run_part};
use rds_stream::{MOST_BITS, Recording};
use rds_sync::{Block, Group, Item, Rules, State};
use std::alloc::{AllocError, Global};
use std::thread::Threads;

/// How many of the last symbols are kept.
const MOST_KEPT: usize = 240;

/// A part of a stream: its symbols, signed bytes, and the bits between them.
#[derive(Drop)]
pub(crate) struct Near {
    pub(crate) recording: Recording,
    pub(crate) symbols: Vec<u8>,
    /// The place of the part's first bit in the stream, and number of its first symbol.
    pub(crate) before: u64,
    /// The margin by which its blocks are read again.
    pub(crate) margin: Margin,
}

/// The part of a stream that begins with symbol number `before`: the symbols that are kept, and these after them. Takes memory for both,
/// their bits, and the gaps among them.
pub(crate) fn near_of(
    alloc: Global,
    gaps: &[(u64, u64)],
    margin: Margin,
    before: u64,
    kept: &[u8],
    symbols: &[u8],
) -> Result<Near, AllocError>
    requires gaps { AreGaps (2 ^ 36) gaps.now }
    requires limit { length kept.now + length symbols.now ≤ 2 ^ 36 + 1 }
    ensures symbols { IfOk result (λ near. near.symbols.items ≡ kept.now ++ symbols.now) }
    ensures part { IfOk result (λ near. near.recording ≡ part_of gaps.now before (kept.now ++ symbols.now)) }
    ensures before { IfOk result (λ near. near.before ≡ before) }
    ensures margin { IfOk result (λ near. near.margin ≡ margin) }
{
    let mut all = Vec::with_capacity(alloc, kept.len() + symbols.len())?;
    all.extend_from_slice(kept)?;
    all.extend_from_slice(symbols)?;
    let recording = bits_near(alloc, gaps, before, &all)?;
    Ok(Near {
        recording,
        symbols: all,
        before,
        margin,
    })
}

/// The bits of a part of a stream, with the gaps in it.
fn bits_near(
    alloc: Global,
    gaps: &[(u64, u64)],
    before: u64,
    symbols: &[u8],
) -> Result<Recording, AllocError>
    requires gaps { AreGaps (2 ^ 36) gaps.now }
    requires limit { length symbols.now ≤ 2 ^ 36 + 1 }
    ensures { IfOk result (λ part. part ≡ part_of gaps.now before symbols.now) }
{
    let len = (symbols.len() as u64).saturating_sub(1);
    let packed = pack_bits(alloc, symbols)?;
    let found = gaps_of_part(alloc, gaps, before, len)?;
    match Recording::with_gaps(packed, len, found) {
        Ok(recording) => Ok(recording),
        Err(_) => unreachable!(),
    }
}

/// The last of these symbols, as many as are kept.
pub(crate) fn last_of(alloc: Global, symbols: &[u8]) -> Result<Vec<u8>, AllocError>
    ensures { IfOk result (λ last. last.items ≡ last_symbols symbols.now) }
{
    Vec::from_slice(alloc, &symbols[symbols.len().saturating_sub(MOST_KEPT)..])
}

/// The items of the run over a part from place `from` on, by their places in it, and the state after them.
pub(crate) fn run_near(
    alloc: Global,
    near: &Near,
    rules: &Rules,
    state: State,
    from: u64,
) -> Result<(Vec<Item>, State), AllocError>
    requires lawful { IsLawful rules.now (from + near.now.before) state }
    requires early { (near.now.before ≡ 0) ⊎ (most_behind ≤ from) }
    requires order { from ≤ length_of near.now.recording }
    requires limit { near.now.before ≤ 2 ^ 36 }
    ensures items { IfOk result (λ found. found.0.items ≡ (run near.now.recording rules.now (moved_back near.now.before state) from
        (length_of near.now.recording - from)).1) }
    ensures state { IfOk result (λ found. found.1 ≡ moved_state near.now.before
        (run near.now.recording rules.now (moved_back near.now.before state) from (length_of near.now.recording - from)).0) }
{
    let count = near.recording.len() - from;
    let mut items = Vec::with_capacity(alloc, 2 * count as usize)?;
    let end = run_part(&near.recording, near.before, rules, state, from, &mut items);
    Ok((items, end))
}

/// These items of a part, each read again from its symbols: by several threads, if there are other searches and work for them. Takes
/// memory for the items.
pub(crate) fn read_all_again<R: Threads + Sync>(
    rt: &R,
    alloc: Global,
    search: &mut Search,
    others: &mut [Search],
    near: &Near,
    items: &[Item],
) -> Result<SoftList, AllocError>
    requires limit { near.now.before ≤ 2 ^ 36 }
    requires places { All (λ item. place_of item < 2 ^ 37) items.now }
    ensures { IfOk result (λ again. again ≡ map (near_again near.now) items.now) }
{
    if others.is_empty() || !has_work_for_several(items) {
        return read_each(alloc, search, near, items);
    }
    let mut room = vec![in alloc; SoftItem::LostLock { place: 0 }; items.len()]?;
    read_all(rt, near, search, others, items, room.as_mut_slice());
    list_of(alloc, room.as_slice())
}

/// The same by the calling thread.
fn read_each(
    alloc: Global,
    search: &mut Search,
    near: &Near,
    items: &[Item],
) -> Result<SoftList, AllocError>
    requires limit { near.now.before ≤ 2 ^ 36 }
    requires places { All (λ item. place_of item < 2 ^ 37) items.now }
    ensures { IfOk result (λ again. again ≡ map (near_again near.now) items.now) }
{
    let mut list = SoftList::new(alloc);
    for item in items {
        match valid_in(item, near.before) {
            Some(group) => list.push_valid(group)?,
            None => list.push(item_in(search, near, item))?,
        }
    }
    Ok(list)
}

/// These items as a list.
fn list_of(alloc: Global, items: &[SoftItem]) -> Result<SoftList, AllocError>
    ensures { IfOk result (λ list. list ≡ items.now) }
{
    let mut list = SoftList::new(alloc);
    for item in items {
        list.push(*item)?;
    }
    Ok(list)
}

/// An item of a part from place `before` on, if it is a group of four valid blocks, which stay so, and block 3 has the offset of the
/// version that block 2 names.
#[tactic(auto, using(crate::proofs::AgainLemmas::list_of_four, crate::proofs::ListLemmas::valid_again), unfolding(crate::specs::ReadAgain::item_again))]
fn valid_in(item: &Item, before: u64) -> Option<ValidGroup>
    requires limit { before ≤ 2 ^ 36 }
    requires place { place_of item.now < 2 ^ 37 }
    ensures early { IfSome result (λ group. group.place < 2 ^ 63) }
    ensures value { IfSome result (λ group. (b : Signal) (symbols : List ℕ) (margin : ℕ)
        → again_in b symbols margin before item.now ≡ InSoft (valid_group group)) }
{
    let Item::Group(group) = item else {
        return None;
    };
    let [one, two, three, four] = &group.blocks;
    let second = info_with(two, Offset::B)?;
    Some(ValidGroup {
        place: group.place + before,
        words: [
            info_with(one, Offset::A)?,
            second,
            info_with(three, third_offset(second))?,
            info_with(four, Offset::D)?,
        ],
    })
}

/// The information word of a block, if it is valid with this offset.
fn info_with(block: &Block, wanted: Offset) -> Option<u16>
    ensures { IfSome result (λ info. block.now ≡ HardRead (HardValid wanted info)) }
{
    match *block {
        Block::Read(Reading::Valid { offset, info }) if offset == wanted => Some(info),
        _ => None,
    }
}

/// The offset of block 3 of the version that the information word of block 2 names.
fn third_offset(second: u16) -> Offset
    ensures { result ≡ the_third_offset second }
{
    if (second >> 11) & 1 == 0 {
        Offset::C
    } else {
        Offset::Cx
    }
}

/// The group in progress at the end of a part, in this state of the stream, read again from the part's symbols.
pub(crate) fn end_near(
    search: &mut Search,
    near: &Near,
    rules: &Rules,
    state: State,
) -> Option<SoftGroup>
    requires lawful { IsLawful rules.now (length_of near.now.recording + near.now.before) state }
    requires early { (near.now.before ≡ 0) ⊎ (most_behind ≤ length_of near.now.recording) }
    requires limit { near.now.before ≤ 2 ^ 36 }
    ensures { group_item result ≡ map (near_again near.now) (items_of_end near.now.recording rules.now (moved_back near.now.before state)) }
{
    prove!(near.recording.len() <= MOST_BITS);
    match finish_part(&near.recording, near.before, rules, state) {
        Some(group) => match item_in(search, near, &Item::Group(group)) {
            SoftItem::Group(again) => Some(again),
            _ => unreachable!(),
        },
        None => None,
    }
}

/// An item of a part, read again from its symbols, by its place in the stream.
pub(crate) fn item_in(search: &mut Search, near: &Near, item: &Item) -> SoftItem
    requires limit { near.now.before ≤ 2 ^ 36 }
    requires place { place_of item.now < 2 ^ 37 }
    ensures { result ≡ near_again near.now item.now }
{
    let again = search.read_again(&near.recording, near.symbols.as_slice(), near.margin, item);
    moved_on(again, near.before)
}

/// The item, moved on by `by` places.
fn moved_on(item: SoftItem, by: u64) -> SoftItem
    requires { place_again item + by < 2 ^ 64 }
    ensures { result ≡ moved_again by item }
{
    match item {
        SoftItem::Acquired { place, number } => SoftItem::Acquired {
            place: place + by,
            number,
        },
        SoftItem::LostLock { place } => SoftItem::LostLock { place: place + by },
        SoftItem::Group(group) => SoftItem::Group(SoftGroup {
            place: group.place + by,
            ..group
        }),
    }
}
