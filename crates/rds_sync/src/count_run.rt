//! A run that counts its items, and makes none of them.

ghost use Rattle.std.specs.Prelude.{◌≡◌, ◌≤◌, ◌<◌, ◌-◌, Some};
ghost use Rattle.rds_stream.specs.Recording.{Signal, length_of};
ghost use Rattle.rds_sync.specs.{Acquiring.acquired, Inside.Counts.IsCountStretch, Inside.Counts.added, Lawful.IsLawful, Lawful.IsLawfulLock, Rules.RuleNumbers, Step.items_at, declared.state.State.TheVariants.Locked, declared.state.State.TheVariants.Searching};

use crate::acquiring::next_acquiring;
use crate::counts::Counts;
use crate::lock::{BLOCK_PLACES, Lock};
use crate::loss::NONE_BAD;
use crate::rules::Rules;
use crate::short_lock::word_if_lost;
use crate::state::State;
use crate::tape_run::keep;
use crate::whole_groups::count_whole_groups;
use rds_code::BlockNumber;
use rds_stream::{FIRST_WINDOW, Reader, ValidWindows};

/// A part of a run: how far it came, and the state there. It ends soon after `most` items were counted.
pub(crate) fn count_stretch(
    reader: &mut Reader<'_>,
    rules: &Rules,
    state: State,
    place: u64,
    to: u64,
    most: u64,
    counts: &mut Counts,
) -> (u64, State)
    requires lawful { IsLawful rules.now place state }
    requires order { place < to }
    requires within { to ≤ length_of reader.old }
    requires few { counts.old.items ≤ 3000 }
    requires most { most ≤ 3000 }
    ensures reached { IsCountStretch reader.old rules.now state place to counts.old result counts.new }
    ensures same { reader.new ≡ reader.old }
{
    match state {
        State::Searching => search_on(reader, rules, place, to, most, counts),
        State::Locked(lock) => keep_on(reader, rules, lock, place, to, most, counts),
    }
}

/// How many places a lock takes that its second block loses, from that of its first on.
const PASSED: u64 = BLOCK_PLACES + 1;

/// Searches up to and including the first place that acquires, or up to `to`; on over locks that their second block loses,
/// until `most` items were counted.
fn search_on(
    reader: &mut Reader<'_>,
    rules: &Rules,
    place: u64,
    to: u64,
    most: u64,
    counts: &mut Counts,
) -> (u64, State)
    requires order { place < to }
    requires within { to ≤ length_of reader.old }
    requires few { counts.old.items ≤ 3000 }
    requires most { most ≤ 3000 }
    ensures reached { IsCountStretch reader.old rules.now Searching place to counts.old result counts.new }
    ensures same { reader.new ≡ reader.old }
{
    let rec = reader.recording();
    prove!(to <= rec.len());
    prove!(1 <= rules.reach());
    let mut windows = ValidWindows::new(rec, place, to);
    while let Some((here, offset)) = next_acquiring(&mut windows, rec, rules) {
        let number = offset.number();
        add_found(counts, here, number);
        let Some(word) = word_if_lost(reader, rules, here, number, to) else {
            let number = number.get();
            let lock = Lock::after_block(here, number, NONE_BAD, number);
            return (here + 1, State::Locked(lock));
        };
        counts.add_group(word);
        counts.add_loss();
        if counts.items() >= most {
            return (here + PASSED, State::Searching);
        }
        windows.pass(here + PASSED);
    }
    (to, State::Searching)
}

/// The word of a group of only a valid block 4.
const LAST_BLOCK: u16 = 0x1000;

/// Counts the items of a block of this number that acquires: itself, and as block 4 the group that it closes
/// as its only block.
pub(crate) fn add_found(counts: &mut Counts, place: u64, number: BlockNumber)
    requires late { 25 ≤ place }
    requires few { counts.old.items ≤ 3000 }
    ensures given { (b : Signal) (rules : RuleNumbers) → acquired b rules place ≡ Some number
        → counts.new ≡ added counts.old (items_at b rules place Searching) }
    ensures few { counts.new.items ≤ 3002 }
{
    let _place = place;
    counts.add_acquired();
    if number.get() == 4 {
        counts.add_group(LAST_BLOCK);
    }
}

/// Follows a lock over the whole groups that come next, until `most` items were counted. If there is none, it
/// follows it up to and including the block that closes its group, or up to `to` if none is due before it.
fn keep_on(
    reader: &mut Reader<'_>,
    rules: &Rules,
    lock: Lock,
    place: u64,
    to: u64,
    most: u64,
    counts: &mut Counts,
) -> (u64, State)
    requires lawful { IsLawfulLock rules.now place lock }
    requires order { place < to }
    requires within { to ≤ length_of reader.old }
    requires few { counts.old.items ≤ 3000 }
    requires most { most ≤ 3000 }
    ensures reached { IsCountStretch reader.old rules.now (Locked lock) place to
        counts.old result counts.new }
    ensures same { reader.new ≡ reader.old }
{
    prove!(to <= reader.recording().len());
    if lock.number == 1 {
        let next = count_whole_groups(reader, rules, lock, to, most, counts);
        if next.due > lock.due {
            return (next.due - FIRST_WINDOW, State::Locked(next));
        }
    }
    keep(reader, rules, lock, place, to, counts)
}
