//! Parts of a run over a tape that counts its items: a search, or a group of a lock.

ghost use Rattle.std.specs.Prelude.{◌≡◌, ◌≤◌, ◌<◌, ◌+◌, ◌-◌, ◌^◌, []};
ghost use Rattle.rds_stream.specs.Recording.{length_of};
ghost use Rattle.rds_sync.specs.{Hop.IsHop, Hop.IsPaidHop, Inside.Counts.IsCountStretch, Lawful.IsLawful, Lawful.IsLawfulLock, Step.run, declared.state.State.TheVariants.Locked, declared.state.State.TheVariants.Searching};

use crate::acquiring::acquire;
use crate::count_run::add_found;
use crate::counts::Counts;
use crate::due::Due;
use crate::follow::follow_group;
use crate::laws::items_mark_changes;
use crate::lock::Lock;
use crate::rules::Rules;
use crate::state::State;
use crate::words::word_of_blocks;
use rds_stream::Tape;

/// A part of a run: a search up to and including the first place that acquires, or up to `near`; a lock up to and including
/// the block that closes its group, or up to `to`.
pub(crate) fn hop<T: Tape>(
    tape: &mut T,
    rules: &Rules,
    state: State,
    place: u64,
    near: u64,
    to: u64,
    counts: &mut Counts,
) -> (u64, State)
    requires lawful { IsLawful rules.now place state }
    requires ahead { place < to }
    requires near { near ≤ to }
    requires behind { (state ≡ Searching) → place < near }
    requires within { to ≤ length_of (T.signal tape.old) }
    requires counted { T.reads_made tape.old ≤ 2 ^ 62 + 2 ^ 60 }
    requires few { counts.old.items ≤ 3000 }
    ensures came { IsCountStretch (T.signal tape.old) rules.now state place to counts.old result counts.new }
    ensures hop { IsHop (T.signal tape.old) rules.now state place near to result.0 result.1
        (T.reads_made tape.new - T.reads_made tape.old) }
    ensures same { T.signal tape.new ≡ T.signal tape.old }
{
    items_mark_changes();
    prove!(1 <= rules.reach());
    match state {
        State::Searching => seek(tape, rules, place, near, counts),
        State::Locked(lock) => keep(tape, rules, lock, place, to, counts),
    }
}

/// Searches up to and including the first place that acquires, or up to `to`.
#[tactic(auto, using(crate::proofs::Lemmas::sought))]
pub(crate) fn seek<T: Tape>(
    tape: &mut T,
    rules: &Rules,
    place: u64,
    to: u64,
    counts: &mut Counts,
) -> (u64, State)
    requires ahead { place < to }
    requires within { to ≤ length_of (T.signal tape.old) }
    requires counted { T.reads_made tape.old ≤ 2 ^ 62 + 2 ^ 60 }
    requires few { counts.old.items ≤ 3000 }
    ensures came { IsCountStretch (T.signal tape.old) rules.now Searching place to
        counts.old result counts.new }
    ensures quiet { (run (T.signal tape.old) rules.now Searching place (result.0 - 1 - place)).1 ≡ [] }
    ensures cost { IsPaidHop (T.signal tape.old) rules.now Searching place to result.0 result.1
        (T.reads_made tape.new - T.reads_made tape.old) }
    ensures same { T.signal tape.new ≡ T.signal tape.old }
{
    prove!(1 <= rules.reach());
    prove!(to <= tape.len());
    for here in place..to {
        if let Some(found) = acquire(tape, rules, here) {
            add_found(counts, here, found.number);
            return (here + 1, State::Locked(found.lock()));
        }
    }
    (to, State::Searching)
}

/// Follows a lock up to and including the block that closes its group, or up to `to`.
pub(crate) fn keep<T: Tape>(
    tape: &mut T,
    rules: &Rules,
    lock: Lock,
    place: u64,
    to: u64,
    counts: &mut Counts,
) -> (u64, State)
    requires lawful { IsLawfulLock rules.now place lock }
    requires ahead { place < to }
    requires within { to ≤ length_of (T.signal tape.old) }
    requires counted { T.reads_made tape.old + 16 ≤ 2 ^ 63 }
    requires few { counts.old.items ≤ 3000 }
    ensures came { IsCountStretch (T.signal tape.old) rules.now (Locked lock) place to
        counts.old result counts.new }
    ensures quiet { (run (T.signal tape.old) rules.now (Locked lock) place (result.0 - 1 - place)).1 ≡ [] }
    ensures cost { IsPaidHop (T.signal tape.old) rules.now (Locked lock) place to result.0 result.1
        (T.reads_made tape.new - T.reads_made tape.old) }
    ensures same { T.signal tape.new ≡ T.signal tape.old }
{
    prove!(to <= tape.len());
    let (last, blocks, due) = follow_group(tape, rules, lock, place, to);
    match due {
        Due::Inside(next) => (to, State::Locked(next)),
        Due::Closed(next) => {
            counts.add_group(word_of_blocks(&blocks));
            (last.due + 1, State::Locked(next))
        }
        Due::Lost => {
            counts.add_group(word_of_blocks(&blocks));
            counts.add_loss();
            (last.due + 1, State::Searching)
        }
    }
}
