//! A run over a tape, step by step: a bit while searching, a block while locked.
//!
//! A run is made in three forms, each for its cost. A step asks a tape for few windows, and ends where its
//! caller may want to stop. A stretch covers 64 places of a recording at once, up to the next item. A hop of
//! a [`Tally`](crate::Tally) counts its items and makes none. The law
//! [`steps_agree`](crate::laws::steps_agree) says that they are one run.

ghost use Rattle.std.specs.Prelude.{◌≡◌, ◌≤◌, ◌<◌, ◌+◌, ◌-◌, ◌^◌};
ghost use Rattle.rds_stream.specs.Recording.{length_of};
ghost use Rattle.rds_sync.specs.{Advance.next_place, Advance.reads_most, Advance.items_in, Advance.group_item, Lawful.IsLawful, Lawful.IsLawfulLock, Step.step, Step.items_at, Step.run, Step.items_of_end};

use crate::acquiring::acquire;
use crate::follow::{blocks_before, follow, group_so_far, step_of};
use crate::item::Group;
use crate::lock::Lock;
use crate::rules::Rules;
use crate::state::State;
use crate::step::Step;
use rds_stream::Tape;

/// One step of a run from a state that is lawful before `place`, towards `to`: a bit while searching; while
/// locked, up to and including the block that is due, or up to `to` if that comes first. Runs are this
/// project's rule, after EN 50067:1998, annex C.
///
/// It asks the tape for at most `reach` + 1 windows while searching, and at most four while locked; for none
/// if no block is due before `to`. The tape has counted at most 2^63 - 16 windows before. Takes no memory.
#[tactic(auto, using(crate::proofs::Lemmas::advance))]
pub fn advance<T: Tape>(tape: &mut T, rules: &Rules, state: State, place: u64, to: u64) -> Step
    requires lawful { IsLawful rules.now place state }
    requires before { place < to }
    requires within { to ≤ length_of (T.signal tape.old) }
    requires counted { T.reads_made tape.old + 16 ≤ 2 ^ 63 }

    ensures place { result.place ≡ next_place state place to }
    ensures state { result.state
        ≡ (run (T.signal tape.old) rules.now state place (result.place - place)).0 }
    ensures items { items_in result.items
        ≡ (run (T.signal tape.old) rules.now state place (result.place - place)).1 }
    ensures lawful { IsLawful rules.now result.place result.state }
    ensures forward { (place < result.place) × (result.place ≤ to) }

    ensures same { T.signal tape.new ≡ T.signal tape.old }
    ensures reads { T.reads_made tape.new ≤ T.reads_made tape.old + reads_most rules.now state to }
{
    prove!(to <= tape.len());
    prove!(1 <= rules.reach());
    match state {
        State::Searching => search(tape, rules, place),
        State::Locked(lock) if lock.due < to => read_due(tape, rules, lock),
        State::Locked(_) => Step {
            place: to,
            state,
            items: [None, None],
        },
    }
}

/// The group in progress at the end of the recording, if the run ended in `state`, as far as it was read, or
/// none: this project's rule. Asks the tape, which has counted at most 2^63 - 16 windows before, for at most
/// three, and takes no memory.
pub fn finish<T: Tape>(tape: &mut T, rules: &Rules, state: State) -> Option<Group>
    requires lawful { IsLawful rules.now (length_of (T.signal tape.old)) state }
    requires counted { T.reads_made tape.old + 16 ≤ 2 ^ 63 }

    ensures group { group_item result ≡ items_of_end (T.signal tape.old) rules.now state }

    ensures same { T.signal tape.new ≡ T.signal tape.old }
    ensures reads { T.reads_made tape.new ≤ T.reads_made tape.old + 3 }
{
    match state {
        State::Locked(lock) if lock.number != 1 => { Some(group_so_far(tape, rules, lock)) }
        _ => None,
    }
}

/// The bit at a place, while searching.
fn search<T: Tape>(tape: &mut T, rules: &Rules, place: u64) -> Step
    requires within { place < length_of (T.signal tape.old) }
    requires place { place < 2 ^ 36 }
    requires counted { T.reads_made tape.old + 16 ≤ 2 ^ 63 }
    ensures place { result.place ≡ place + 1 }
    ensures state { result.state ≡ step (T.signal tape.old) rules.now place State.Searching }
    ensures items { items_in result.items
        ≡ items_at (T.signal tape.old) rules.now place State.Searching }
    ensures same { T.signal tape.new ≡ T.signal tape.old }
    ensures reads { T.reads_made tape.new ≤ T.reads_made tape.old + (rules.now.reach + 1) }
{
    match acquire(tape, rules, place) {
        None => Step {
            place: place + 1,
            state: State::Searching,
            items: [None, None],
        },
        Some(found) => Step {
            place: place + 1,
            state: State::Locked(found.lock()),
            items: found.items(rules),
        },
    }
}

/// The block that is due, while locked.
fn read_due<T: Tape>(tape: &mut T, rules: &Rules, lock: Lock) -> Step
    requires lawful { IsLawfulLock rules.now lock.due lock }
    requires within { lock.due < length_of (T.signal tape.old) }
    requires place { lock.due < 2 ^ 36 }
    requires counted { T.reads_made tape.old + 16 ≤ 2 ^ 63 }
    ensures place { result.place ≡ lock.due + 1 }
    ensures state { result.state ≡ step (T.signal tape.old) rules.now lock.due (State.Locked lock) }
    ensures items { items_in result.items
        ≡ items_at (T.signal tape.old) rules.now lock.due (State.Locked lock) }
    ensures same { T.signal tape.new ≡ T.signal tape.old }
    ensures reads { T.reads_made tape.new ≤ T.reads_made tape.old + 4 }
{
    let mut blocks = blocks_before(tape, rules, lock);
    let due = follow(tape, rules, lock, &mut blocks);
    step_of(lock, blocks, due, lock.due + 1)
}
