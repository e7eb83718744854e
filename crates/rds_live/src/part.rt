//! The run over a part of a stream, and the gaps in the part.

ghost use Rattle.std.specs.Prelude.{◌≡◌, ◌≤◌, ◌-◌, ◌+◌, ◌*◌, ◌^◌, ◌⊎◌, IfOk, vec_capacity};
ghost use Rattle.rds_stream.specs.Recording.{AreGaps, length_of};
ghost use Rattle.rds_sync.specs.{Advance.group_item, Lawful.IsLawful, Step.items_of_end, Step.run};
ghost use Rattle.rds_live.specs.{Gaps.gaps_within, Moving.most_behind, Moving.moved_items, Moving.moved_state, Next.moved_back as the_moved_back};

use crate::gaps::fill_gaps;
use crate::moved::{moved_back, moved_group, moved_on};
use crate::stream_decoder::fill_from;
use rds_stream::{Counted, MOST_BITS, Recording};
use rds_sync::{Group, Item, Rules, State, finish};
use std::alloc::{AllocError, Global};

/// The gaps in the part of a stream that begins at `before` and has `len` places, by their places in the part. Takes memory for
/// them.
pub fn gaps_of_part(
    alloc: Global,
    gaps: &[(u64, u64)],
    before: u64,
    len: u64,
) -> Result<Vec<(u64, u64)>, AllocError>
    requires { AreGaps (2 ^ 36) gaps.now }
    ensures { IfOk result (λ found. found.items ≡ gaps_within gaps.now before len) }
{
    let mut found = Vec::with_capacity(alloc, gaps.len().min(len as usize))?;
    fill_gaps(&mut found, gaps, before, len);
    Ok(found)
}

/// Gives the items of the run over a part of a stream, from place `from` of the part to its end, in place of those of `items`, which
/// has room for two a bit. The part begins at place `before` of the stream. The items have their places in the part; the states, before
/// and after it, have those in the stream. Takes no memory.
///
/// By the law [`runs_move`](crate::laws::runs_move) this is the run over the stream, if the part is heard as the stream is.
pub fn run_part(
    part: &Recording,
    before: u64,
    rules: &Rules,
    state: State,
    from: u64,
    items: &mut Vec<Item>,
) -> State
    requires lawful { IsLawful rules.now (from + before) state }
    requires early { (before ≡ 0) ⊎ (most_behind ≤ from) }
    requires order { from ≤ length_of part.now }
    requires limit { before ≤ 2 ^ 36 }
    requires room { 2 * (length_of part.now - from) ≤ vec_capacity items.old }
    ensures items { items.new.items
        ≡ (run part.now rules.now (the_moved_back before state) from (length_of part.now - from)).1 }
    ensures state { result ≡ moved_state before
        (run part.now rules.now (the_moved_back before state) from (length_of part.now - from)).0 }
{
    prove!(1 <= rules.reach());
    let local = moved_back(state, before);
    moved_on(
        fill_from(part, rules, local, from, part.len(), items),
        before,
    )
}

/// The group in progress at the end of a part of a stream, in this state, by its place in the part. The part begins at place `before` of
/// the stream, and the state has its places in the stream.
pub fn finish_part(part: &Recording, before: u64, rules: &Rules, state: State) -> Option<Group>
    requires lawful { IsLawful rules.now (length_of part.now + before) state }
    requires early { (before ≡ 0) ⊎ (most_behind ≤ length_of part.now) }
    ensures { group_item result ≡ items_of_end part.now rules.now (the_moved_back before state) }
{
    finish(&mut Counted::new(part), rules, moved_back(state, before))
}

/// The group in progress at the end of a part of a stream, in this state, which has its places in the part. The group is moved on by
/// `by` places.
pub fn moved_end(part: &Recording, rules: &Rules, state: State, by: u64) -> Option<Group>
    requires lawful { IsLawful rules.now (length_of part.now) state }
    requires limit { by ≤ 2 ^ 36 }
    ensures { group_item result ≡ moved_items by (items_of_end part.now rules.now state) }
{
    prove!(part.len() <= MOST_BITS);
    match finish(&mut Counted::new(part), rules, state) {
        Some(group) => Some(moved_group(group, by)),
        None => None,
    }
}
