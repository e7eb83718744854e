//! A stretch of a run over a recording: a search from place to place, or a lock from block to block,
//! up to the next bit that gives an item.

ghost use Rattle.std.specs.Prelude.{◌≡◌, ◌≤◌, ◌<◌};
ghost use Rattle.rds_stream.specs.Recording.{length_of};
ghost use Rattle.rds_sync.specs.{Lawful.IsLawful, Lawful.IsLawfulLock, Stretch.IsStretch, declared.state.State.TheVariants.Locked, declared.state.State.TheVariants.Searching};

use crate::acquiring::{Acquisition, next_acquiring};
use crate::follow::{follow_group, step_of};
use crate::lock::Lock;
use crate::rules::Rules;
use crate::state::State;
use crate::step::Step;
use crate::whole_groups::whole_group;
use rds_stream::{Reader, ValidWindows};

/// Continues a run from `state` before the bit at `place`, up to and including the next bit that gives an
/// item, or up to `to` if none before it does.
///
/// A run over a range is made of stretches: [`Decoder`](crate::Decoder) is that. Windows may begin before
/// `place`. The reader is used for them, and is of the same recording as before. Runs and stretches are this
/// project's rule, after EN 50067:1998, annex C.
///
/// Its cost: a search covers 64 places at once, and looks up to `reach` windows back from each valid one. A
/// lock reads a window every 26 bits, those of a group that loses it twice, and first, once more, the up to
/// three of the group in progress that were read before. It takes no memory.
pub fn stretch(reader: &mut Reader<'_>, rules: &Rules, state: State, place: u64, to: u64) -> Step
    requires lawful { IsLawful rules.now place state }
    requires order { place < to }
    requires within { to ≤ length_of reader.old }
    ensures reached { IsStretch reader.old rules.now state place to result }
    ensures same { reader.new ≡ reader.old }
{
    match state {
        State::Searching => search(reader, rules, place, to),
        State::Locked(lock) => keep_lock(reader, rules, lock, place, to),
    }
}

/// Searches up to and including the first place that acquires, or up to `to`.
fn search(reader: &mut Reader<'_>, rules: &Rules, place: u64, to: u64) -> Step
    requires order { place < to }
    requires within { to ≤ length_of reader.old }
    ensures reached { IsStretch reader.old rules.now Searching place to result }
    ensures same { reader.new ≡ reader.old }
{
    let rec = reader.recording();
    prove!(to <= rec.len());
    prove!(1 <= rules.reach());
    let mut windows = ValidWindows::new(rec, place, to);
    match next_acquiring(&mut windows, rec, rules) {
        None => Step {
            place: to,
            state: State::Searching,
            items: [None, None],
        },
        Some((here, offset)) => {
            let found = Acquisition {
                place: here,
                number: offset.number(),
                heard: reader.window(here),
            };
            Step {
                place: here + 1,
                state: State::Locked(found.lock()),
                items: found.items(rules),
            }
        }
    }
}

/// Follows a lock up to and including the next block that closes a group, or up to `to` if none is due before
/// it: over a whole group at once if it can, and else from block to block.
fn keep_lock(reader: &mut Reader<'_>, rules: &Rules, lock: Lock, place: u64, to: u64) -> Step
    requires lawful { IsLawfulLock rules.now place lock }
    requires order { place < to }
    requires within { to ≤ length_of reader.old }
    ensures reached { IsStretch reader.old rules.now (Locked lock) place to result }
    ensures same { reader.new ≡ reader.old }
{
    prove!(to <= reader.recording().len());
    if let Some(step) = whole_group(reader, rules, lock, place, to) {
        return step;
    }
    let (last, blocks, due) = follow_group(reader, rules, lock, place, to);
    step_of(last, blocks, due, to)
}
