//! How a lock is followed over a tape, from block to block.
//!
//! A good block costs one window, one remainder and one comparison: it is read once, when it is
//! due, and kept until its group closes. Nothing is read in between.

ghost use Rattle.std.specs.Prelude.{◌≡◌, ◌≤◌, ◌<◌, ◌+◌, ◌-◌, ◌*◌, ◌^◌};
ghost use Rattle.rds_stream.specs.Recording.{length_of};
ghost use Rattle.rds_sync.specs.{Acquiring.has_number, Groups.blocks_at, Groups.group, Groups.group_of, Hop.IsPaidHop, Lawful.HaveRoom, Lawful.IsLawfulLock, Stretch.IsStretch, Inside.Locks.step_by, Inside.Locks.state_of, Inside.Locks.IsFollowed, Inside.Locks.IsInProgress, Inside.Locks.IsReadable, Inside.Locks.items_of_due, Step.step, Step.items_at, declared.state.State.TheVariants.Locked};

use crate::due::Due;
use crate::item::{Block, Group, Item};
use crate::lock::{BLOCK_PLACES, Lock};
use crate::rules::Rules;
use crate::state::State;
use crate::step::Step;
use rds_code::{BlockNumber, Wanted};
use rds_stream::{FIRST_WINDOW, Tape};

/// The blocks of a group of which none was read.
pub(crate) const NO_BLOCKS: [Block; 4] = [Block::Missing; 4];

/// The blocks of the group in progress that were read before.
pub(crate) fn blocks_before<T: Tape>(tape: &mut T, rules: &Rules, lock: Lock) -> [Block; 4]
    requires numbers { (1 ≤ lock.first) × (lock.first ≤ lock.number) × (lock.number ≤ 4) }
    requires start { HaveRoom lock.first lock.number lock.due }
    requires within { lock.due < length_of (T.signal tape.old) + 26 }
    requires counted { T.reads_made tape.old + 8 ≤ 2 ^ 63 }
    ensures blocks { IsInProgress (T.signal tape.old) rules.now lock result }
    ensures reads { T.reads_made tape.new ≤ T.reads_made tape.old + (lock.number - lock.first) }
    ensures same { T.signal tape.new ≡ T.signal tape.old }
{
    let mut blocks = NO_BLOCKS;
    for number in lock.first..lock.number {
        let due = lock.due - BLOCK_PLACES * u64::from(lock.number - number);
        let _ = read_due(
            tape,
            rules,
            Lock {
                due,
                number,
                ..lock
            },
            &mut blocks,
        );
    }
    blocks
}

/// Reads the block that is due into its group, and tells whether it is valid.
pub(crate) fn read_due<T: Tape>(
    tape: &mut T,
    rules: &Rules,
    lock: Lock,
    blocks: &mut [Block; 4],
) -> bool
    requires order { (1 ≤ lock.first) × (lock.first ≤ lock.number) × (lock.number ≤ 4) }
    requires start { HaveRoom lock.first lock.number lock.due }
    requires within { lock.due < length_of (T.signal tape.old) }
    requires in_progress { IsInProgress (T.signal tape.old) rules.now lock blocks.old }
    requires counted { T.reads_made tape.old < 2 ^ 63 }
    ensures valid { result ≡ has_number (T.signal tape.old) lock.due lock.number }
    ensures blocks { blocks.new ≡ blocks_at (T.signal tape.old) rules.now lock.first lock.number lock.due }
    ensures reads { T.reads_made tape.new ≤ T.reads_made tape.old + 1 }
    ensures same { T.signal tape.new ≡ T.signal tape.old }
{
    let wanted = if lock.number == 3 {
        blocks[1].wanted_beside()
    } else {
        Wanted::Either
    };
    let Some(number) = BlockNumber::new(lock.number) else {
        unreachable!()
    };
    let reading = rules.read(tape.window(lock.due), number, wanted);
    let block = Block::Read(reading);
    blocks[(lock.number - 1) as usize] = block;
    block.is_valid()
}

/// The group that the block just read closes.
pub(crate) fn closed_group(lock: Lock, blocks: [Block; 4]) -> Group
    requires order { lock.first ≤ lock.number }
    requires start { HaveRoom lock.first lock.number lock.due }
    ensures { result ≡ group_of (lock.due - 26 * (lock.number - lock.first) - 25) blocks }
{
    let place = lock.due - BLOCK_PLACES * u64::from(lock.number - lock.first) - FIRST_WINDOW;
    Group::of_blocks(place, blocks)
}

/// The group in progress, as far as it was read.
#[tactic(auto, using(crate::proofs::Lemmas::group_so_far), unfolding(crate::specs::Groups::group))]
pub(crate) fn group_so_far<T: Tape>(tape: &mut T, rules: &Rules, lock: Lock) -> Group
    requires numbers { (1 ≤ lock.first) × (lock.first < lock.number) × (lock.number ≤ 4) }
    requires start { HaveRoom lock.first lock.number lock.due }
    requires within { lock.due < length_of (T.signal tape.old) + 26 }
    requires counted { T.reads_made tape.old + 8 ≤ 2 ^ 63 }
    ensures group { result ≡ group (T.signal tape.old) rules.now lock.first (lock.number - 1)
        (lock.due - 26) }
    ensures reads { T.reads_made tape.new ≤ T.reads_made tape.old + (lock.number - lock.first) }
    ensures same { T.signal tape.new ≡ T.signal tape.old }
{
    let blocks = blocks_before(tape, rules, lock);
    let last = Lock {
        due: lock.due - BLOCK_PLACES,
        number: lock.number - 1,
        ..lock
    };
    closed_group(last, blocks)
}

/// Follows a lock by the block that is due.
#[tactic(auto, using(crate::proofs::Lemmas::follow))]
pub(crate) fn follow<T: Tape>(
    tape: &mut T,
    rules: &Rules,
    lock: Lock,
    blocks: &mut [Block; 4],
) -> Due
    requires readable { IsReadable (T.signal tape.old) rules.now lock }
    requires within { lock.due < length_of (T.signal tape.old) }
    requires in_progress { IsInProgress (T.signal tape.old) rules.now lock blocks.old }
    requires counted { T.reads_made tape.old < 2 ^ 63 }
    ensures state { state_of result ≡ step (T.signal tape.old) rules.now lock.due (Locked lock) }
    ensures items { items_of_due lock blocks.new result
        ≡ items_at (T.signal tape.old) rules.now lock.due (Locked lock) }
    ensures followed { IsFollowed (T.signal tape.old) rules.now lock blocks.new result }
    ensures reads { T.reads_made tape.new ≤ T.reads_made tape.old + 1 }
    ensures same { T.signal tape.new ≡ T.signal tape.old }
{
    prove!(lock.due < tape.len());
    let good = read_due(tape, rules, lock, blocks);
    lock.after(rules.loss(), good)
}

/// Follows a lock up to and including the block that closes its group, or up to `to`: the lock in which that block was due,
/// the blocks of its group and its effect. If none before `to` closes the group, the effect is that it continues.
pub(crate) fn follow_group<T: Tape>(
    tape: &mut T,
    rules: &Rules,
    lock: Lock,
    place: u64,
    to: u64,
) -> (Lock, [Block; 4], Due)
    requires lawful { IsLawfulLock rules.now place lock }
    requires ahead { place < to }
    requires within { to ≤ length_of (T.signal tape.old) }
    requires counted { T.reads_made tape.old + 16 ≤ 2 ^ 63 }
    ensures reached { IsStretch (T.signal tape.old) rules.now (Locked lock) place to
        (step_by to result.0 result.1 result.2) }
    ensures last { IsReadable (T.signal tape.old) rules.now result.0 }
    ensures cost { IsPaidHop (T.signal tape.old) rules.now (Locked lock) place to
        (step_by to result.0 result.1 result.2).place (step_by to result.0 result.1 result.2).state
        (T.reads_made tape.new - T.reads_made tape.old) }
    ensures same { T.signal tape.new ≡ T.signal tape.old }
{
    prove!(1 <= rules.reach());
    prove!(to <= tape.len());
    if to <= lock.due {
        return (lock, NO_BLOCKS, Due::Inside(lock));
    }
    let mut blocks = blocks_before(tape, rules, lock);
    let mut now = lock;
    while now.due < to {
        match follow(tape, rules, now, &mut blocks) {
            Due::Inside(next) => now = next,
            due => return (now, blocks, due),
        }
    }
    (now, blocks, Due::Inside(now))
}

/// The step towards `to` by a block that was due in this lock, whose group had these blocks.
pub(crate) fn step_of(lock: Lock, blocks: [Block; 4], due: Due, to: u64) -> Step
    requires order { lock.first ≤ lock.number }
    requires start { HaveRoom lock.first lock.number lock.due }
    requires near { lock.due < 2 ^ 60 }
    ensures { result ≡ step_by to lock blocks due }
{
    let place = lock.due + 1;
    match due {
        Due::Inside(next) => Step {
            place: to,
            state: State::Locked(next),
            items: [None, None],
        },
        Due::Closed(next) => Step {
            place,
            state: State::Locked(next),
            items: [Some(Item::Group(closed_group(lock, blocks))), None],
        },
        Due::Lost => Step {
            place,
            state: State::Searching,
            items: [
                Some(Item::Group(closed_group(lock, blocks))),
                Some(Item::LostLock { place: lock.due }),
            ],
        },
    }
}
