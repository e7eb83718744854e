//! Whole groups of a lock, none of whose blocks loses it: counted, appended as items, or as one step.

ghost use Rattle.std.specs.Prelude.{◌≡◌, ◌≤◌, ◌<◌, ◌^◌, IfSome, length, vec_capacity};
ghost use Rattle.rds_stream.specs.Recording.{length_of};
ghost use Rattle.rds_sync.specs.{Inside.Counts.HasCountedOn, Inside.WholeGroups.HasGiven, Lawful.IsLawfulLock, Loss.IsLawfulBad, Stretch.IsStretch, declared.state.State.TheVariants.Locked};

use crate::counts::Counts;
use crate::four_blocks::{any_heard, bad_after_four, push_whole, whole_word};
use crate::item::Item;
use crate::lock::{BLOCK_PLACES, Lock};
use crate::rules::Rules;
use crate::state::State;
use crate::step::Step;
use rds_stream::{FIRST_WINDOW, Reader};

/// The lock after the whole groups that come next, none of whose blocks loses it, of which the last ends
/// before `to`: as many as are counted until there are `most` items.
pub(crate) fn count_whole_groups(
    reader: &mut Reader<'_>,
    rules: &Rules,
    lock: Lock,
    to: u64,
    most: u64,
    counts: &mut Counts,
) -> Lock
    requires between { (lock.number ≡ 1) × (lock.first ≡ 1) }
    requires few_bad { IsLawfulBad rules.now.loss lock.bad }
    requires start { 25 ≤ lock.due }
    requires near { lock.due < 2 ^ 37 }
    requires within { to ≤ length_of reader.old }
    requires most { most ≤ 3000 }
    ensures passed { HasCountedOn reader.old rules.now lock to counts.old result counts.new }
    ensures stays { result.due ≤ lock.due → counts.new ≡ counts.old }
    ensures same { reader.new ≡ reader.old }
{
    prove!(to <= reader.recording().len());
    let loss = rules.loss();
    let mut now = lock;
    for _items in counts.items()..most {
        if to <= now.due + 3 * BLOCK_PLACES {
            break;
        }
        let word = whole_word(reader, rules, now.due);
        let Some(bad) = bad_after_four(loss, word, now.bad) else {
            break;
        };
        counts.add_group(word);
        now.bad = bad;
        now.due += 4 * BLOCK_PLACES;
    }
    now
}

/// Appends the whole groups that come next, none of whose blocks loses the lock and of which the last ends before `to`,
/// until there are `most` items. The lock after them.
#[inline(always)]
pub(crate) fn push_whole_groups(
    reader: &mut Reader<'_>,
    rules: &Rules,
    lock: Lock,
    to: u64,
    part: &mut Vec<Item>,
    most: usize,
) -> Lock
    requires between { (lock.number ≡ 1) × (lock.first ≡ 1) }
    requires few_bad { IsLawfulBad rules.now.loss lock.bad }
    requires start { 25 ≤ lock.due }
    requires near { lock.due < 2 ^ 37 }
    requires within { to ≤ length_of reader.old }
    requires order { length part.old.items ≤ most }
    requires room { most ≤ vec_capacity part.old }
    ensures given { HasGiven reader.old rules.now lock to part.old.items result part.new.items }
    ensures most { length part.new.items ≤ most }
    ensures room { vec_capacity part.new ≡ vec_capacity part.old }
    ensures same { reader.new ≡ reader.old }
{
    prove!(to <= reader.recording().len());
    let loss = rules.loss();
    let mut now = lock;
    while now.due + 3 * BLOCK_PLACES < to && part.len() < most {
        let place = now.due - FIRST_WINDOW;
        let heard = &reader.four_windows(now.due);
        let Some(bad) = push_whole(part, rules, loss, place, heard, now.bad) else {
            break;
        };
        now.bad = bad;
        now.due += 4 * BLOCK_PLACES;
    }
    now
}

/// The whole group that comes next, whose block 1 begins at `place`: none if a block of it loses the lock or
/// ends at `to` or later, or if the lock is inside a group.
#[inline(always)]
pub(crate) fn whole_group(
    reader: &mut Reader<'_>,
    rules: &Rules,
    lock: Lock,
    place: u64,
    to: u64,
) -> Option<Step>
    requires lawful { IsLawfulLock rules.now place lock }
    requires order { place < to }
    requires within { to ≤ length_of reader.old }
    ensures reached { IfSome result (IsStretch reader.old rules.now (Locked lock) place to) }
    ensures same { reader.new ≡ reader.old }
{
    prove!(to <= reader.recording().len());
    let last = lock.due + 3 * BLOCK_PLACES;
    if !lock.begins_group_at(place) || to <= last {
        return None;
    }
    let heard = &reader.four_windows(lock.due);
    let (group, bad) = any_heard(rules, rules.loss(), place, heard, lock.bad)?;
    Some(Step {
        place: last + 1,
        state: State::Locked(Lock::after_block(last, 4, bad, 1)),
        items: [Some(Item::Group(group)), None],
    })
}
