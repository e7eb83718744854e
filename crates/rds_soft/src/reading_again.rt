//! Items of a part of a stream that are read again, by several threads if there is work for them.
ghost use Rattle.std.specs.{Prelude.◌≡◌, Prelude.◌≤◌, Prelude.◌<◌, Prelude.◌^◌, Prelude.All, Prelude.length, Prelude.map, Thread.IsSync};
ghost use Rattle.rds_live.specs.Places.{place_of};
ghost use Rattle.rds_soft.specs.Inside.Streams.{near_again};

use crate::near::{Near, item_in};
use crate::nearest::Search;
use crate::soft_item::SoftItem;
use rds_code::Reading;
use rds_sync::{Block, Item};
use std::thread::{Threads, join_mut};

/// How many blocks to be searched keep a thread busy: one for fewer costs more than it saves.
const SHARE: usize = 64;

/// Whether there is work for several threads in these items.
pub(crate) fn has_work_for_several(items: &[Item]) -> bool {
    blocks_to_search(items) >= 2 * SHARE
}

/// Reads these items again, by the caller and by up to one thread for each other search. If there is work for a thread, the
/// items are cut where half of it is done, and each half is read alike.
#[cycle(halves)]
pub(crate) fn read_all<R: Threads + Sync>(
    rt: &R,
    near: &Near,
    mine: &mut Search,
    others: &mut [Search],
    items: &[Item],
    again: &mut [SoftItem],
)
    requires limit { near.now.before ≤ 2 ^ 36 }
    requires places { All (λ item. place_of item < 2 ^ 37) items.now }
    requires room { length again.old ≡ length items.now }
    ensures { again.new ≡ map (near_again near.now) items.now }
{
    if others.is_empty() || !has_work_for_several(items) {
        read_alone(near, mine, items, again);
        return;
    }
    let Some((theirs, rest)) = others.split_first_mut() else {
        unreachable!()
    };
    let cut = place_past(items, blocks_to_search(items) / 2);
    let (front, back) = items.split_at(cut);
    let (front_again, back_again) = again.split_at_mut(cut);
    let (with_mine, with_theirs) = rest.split_at_mut(rest.len() / 2);
    let mut here = ||
        requires { IsSync R.row × (near.now.before ≤ 2 ^ 36) × All (λ item. place_of item < 2 ^ 37) front.now
            × (length front_again.now ≡ length front.now) }
        ensures { front_again.exit.now ≡ map (near_again near.entry.now) front.entry.now }
    { read_all(rt, near, mine, with_mine, front, front_again) };
    let mut there = ||
        requires { IsSync R.row × (near.now.before ≤ 2 ^ 36) × All (λ item. place_of item < 2 ^ 37) back.now
            × (length back_again.now ≡ length back.now) }
        ensures { back_again.exit.now ≡ map (near_again near.entry.now) back.entry.now }
    { read_all(rt, near, theirs, with_theirs, back, back_again) };
    join_mut(rt, &mut there, &mut here);
}

/// Reads these items again one by one.
fn read_alone(near: &Near, search: &mut Search, items: &[Item], again: &mut [SoftItem])
    requires limit { near.now.before ≤ 2 ^ 36 }
    requires places { All (λ item. place_of item < 2 ^ 37) items.now }
    requires room { length again.old ≡ length items.now }
    ensures { again.new ≡ map (near_again near.now) items.now }
{
    for i in 0..items.len() {
        again[i] = item_in(search, near, &items[i]);
    }
}

/// How many blocks of these items are searched.
fn blocks_to_search(items: &[Item]) -> usize {
    let mut blocks = 0usize;
    for item in items {
        blocks = blocks.saturating_add(searched_in(item));
    }
    blocks
}

/// How many of these items have that many blocks to be searched.
fn place_past(items: &[Item], blocks: usize) -> usize
    ensures { result ≤ length items.now }
{
    let mut left = blocks;
    for i in 0..items.len() {
        left = left.saturating_sub(searched_in(&items[i]));
        if left == 0 {
            return i + 1;
        }
    }
    items.len()
}

/// How many blocks of an item are searched.
fn searched_in(item: &Item) -> usize {
    match item {
        Item::Group(group) => {
            let [one, two, three, four] = &group.blocks;
            is_searched(one) + is_searched(two) + is_searched(three) + is_searched(four)
        }
        _ => 0,
    }
}

/// 1 if the block was read and is not valid.
fn is_searched(block: &Block) -> usize
    ensures { result ≤ 1 }
{
    match block {
        Block::Missing => 0,
        Block::Read(Reading::Valid { .. }) => 0,
        Block::Read(_) => 1,
    }
}
