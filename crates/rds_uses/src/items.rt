//! Facts that a user of lists of items, and of their totals, relies on.
ghost use Rattle.std.specs.Prelude.{◌≡◌, ◌-◌, ◌+◌, ◌*◌, ◌≤◌, ◌^◌, ◌++◌, ◌∷◌, [], All, IfOk, None, drop, false, length, slice_get, slice_range, true, vec_capacity};
ghost use Rattle.rds_stream.specs.Recording.{length_of};
ghost use Rattle.rds_sync.specs.{Advance.group_item, Counting.IsAtMost, Counting.IsRest, Counting.plus, Decoding.listed, Lawful.IsLawful, Step.items_of_end, Step.run as run_of, Totals.totals_of, declared.totals.Totals.Totals as TheTotals};

use rds_stream::Recording;
use rds_sync::{Decoder, Group, Item, ItemIter, Items, Rules, State, Totals, laws};
use std::alloc::{AllocError, Global};
use std::snapshot::Snapshot;

/// All items, collected.
pub fn collected(
    alloc: Global,
    items: &Items,
    recording: &Recording,
    rules: &Rules,
) -> Result<Vec<Item>, AllocError>
    requires source { items.now.source ≡ recording.now }
    requires rules { items.now.rules ≡ rules.now }
    ensures { IfOk result (λ all. all.items ≡ items.now.list) }
{
    items.to_vec(alloc, recording, rules)
}

/// The first item, by going over them, and the last, by its index.
pub fn first_and_last(
    items: &Items,
    recording: &Recording,
    rules: &Rules,
) -> (Option<Item>, Option<Item>)
    requires source { items.now.source ≡ recording.now }
    requires rules { items.now.rules ≡ rules.now }
    ensures first { result.0 ≡ slice_get items.now.list 0 }
    ensures last { result.1 ≡ slice_get items.now.list (length items.now.list - 1) }
{
    let first = items.iter(recording, rules).next();
    if items.is_empty() {
        return (first, None);
    }
    (first, items.get(recording, rules, items.len() - 1))
}

/// The list of a recording by rules, as long as it has no item.
pub fn none_yet(alloc: Global, recording: &Recording, rules: &Rules) -> Items
    ensures { result ≡ listed recording.now rules.now [] }
{
    Items::none(alloc, Snapshot::of(recording), rules)
}

/// The items of another list of the same recording by the same rules, from any number on. If there was no memory for that, the first stays
/// as it was.
pub fn appended_or_same(items: &mut Items, other: Items, first: usize) -> bool
    requires source { other.source ≡ items.old.source }
    requires rules { other.rules ≡ items.old.rules }
    ensures appended { result ≡ true → items.new ≡ listed items.old.source items.old.rules (items.old.list ++ drop first other.list) }
    ensures same { result ≡ false → items.new ≡ items.old }
{
    if first == 0 {
        items.append(other).is_ok()
    } else {
        items.append_from(&other, first).is_ok()
    }
}

/// Items in a row, by an index, or without one if there is no memory for it, are those of the list.
pub fn range_by_index<'a>(
    alloc: Global,
    recording: &'a Recording,
    rules: &'a Rules,
    items: &'a Items,
    from: usize,
    to: usize,
) -> ItemIter<'a>
    requires source { items.now.source ≡ recording.now }
    requires rules { items.now.rules ≡ rules.now }
    requires order { from ≤ to }
    requires within { to ≤ length items.now.list }
    ensures { result ≡ slice_range items.now.list from to }
{
    match items.indexed(alloc) {
        Ok(indexed) => indexed.range(recording, rules, from, to),
        Err(_) => items.range(recording, rules, from, to),
    }
}

/// A span of a run has its items; if there is no memory for the span, the list stays as it was.
pub fn span_or_same(items: &mut Items, state: State, from: u64, to: u64, count: usize) -> bool
    requires lawful { IsLawful items.old.rules from state }
    requires order { from ≤ to }
    requires within { to ≤ length_of items.old.source }
    requires count { count ≡ length (run_of items.old.source items.old.rules state from (to - from)).1 }
    ensures pushed { result ≡ true → items.new ≡ listed items.old.source items.old.rules
        (items.old.list ++ (run_of items.old.source items.old.rules state from (to - from)).1) }
    ensures same { result ≡ false → items.new ≡ items.old }
{
    items.push_span(state, from, to, count).is_ok()
}

/// So too for the item of the recording's end.
pub fn closed_or_same(items: &mut Items, state: State) -> bool
    requires { IsLawful items.old.rules (length_of items.old.source) state }
    ensures closed { result ≡ true → items.new ≡ listed items.old.source items.old.rules
        (items.old.list ++ items_of_end items.old.source items.old.rules state) }
    ensures same { result ≡ false → items.new ≡ items.old }
{
    items.close(state).is_ok()
}

/// The items of a run, and those of a list, if there is room for one more in their parts, which keep their room. The run ends as it would
/// have.
pub fn run_in_a_part(
    decoder: Decoder<'_>,
    items: ItemIter<'_>,
    part: &mut Vec<Item>,
    other: &mut Vec<Item>,
) -> (bool, State, bool)
    ensures all { result.0 ≡ true → part.new.items ≡ decoder.entry.items }
    ensures listed { result.2 ≡ true → other.new.items ≡ items.entry }
    ensures room { (vec_capacity part.new ≡ vec_capacity part.old) × (vec_capacity other.new ≡ vec_capacity other.old) }
    ensures end { result.1 ≡ decoder.entry.end }
{
    let (mut decoder, mut items) = (decoder, items);
    decoder.fill(part);
    items.fill(other);
    let is_run = part.len() < part.capacity();
    let is_list = other.len() < other.capacity();
    (is_run, decoder.end_state(), is_list)
}

/// The totals of one item, and of the group that the end closes, if there is one.
pub fn totals_of_item(item: &Item, group: Option<Group>) -> [Totals; 2]
    ensures value { result ≡ totals_of (item.now ∷ []) ∷ totals_of (group_item group) ∷ [] }
    ensures small { All (IsAtMost (2 ^ 10)) result }
{
    [Totals::of_item(item), Totals::of_end(group)]
}

/// The totals of the rest of a list are those of all, less those of its first items.
pub fn totals_of_rest(items: &[Item], first: usize) -> Totals
    requires within { first ≤ length items.now }
    requires few { length items.now ≤ 2 ^ 37 }
    ensures { result ≡ totals_of (drop first items.now) }
{
    laws::totals_join();
    Totals::of(items).less(Totals::of(&items[..first]))
}

/// The rest of totals is no more than they are: it may be added to them.
pub fn rest_and_all(all: Totals, part: Totals) -> Totals
    requires small { IsAtMost (2 ^ 62) all }
    requires part { (rest : TheTotals) × IsRest part all rest }
    ensures { (rest : TheTotals) → IsRest part all rest → result ≡ plus rest all }
{
    all.less(part).plus(all)
}

/// The totals of two parts, which are small enough to be added up.
pub fn totals_of_parts(one: &[Item], other: &[Item]) -> Totals
    requires { length one.now + length other.now ≤ 2 ^ 37 }
    ensures value { result ≡ plus (totals_of one.now) (totals_of other.now) }
    ensures small { IsAtMost (2 ^ 10 * length one.now + 2 ^ 10 * length other.now) result }
{
    Totals::of(one).plus(Totals::of(other))
}
