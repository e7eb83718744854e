//! A run whose items are collected.

ghost use Rattle.std.specs.Prelude.{◌≡◌, ◌≤◌, ◌-◌, IfOk, IsOkUnless};
ghost use Rattle.rds_stream.specs.Recording.{length_of};
ghost use Rattle.rds_sync.specs.{Convergence.IsConverged, Lawful.IsLawful, Step.run as the_run};

use crate::decoder::Decoder;
use crate::item::Item;
use crate::laws::{runs_are_lawful, runs_converge};
use crate::push::push_one;
use crate::rules::Rules;
use crate::state::State;
use rds_code::RdsError;
use rds_stream::Recording;
use std::alloc::Global;

/// The run from `state` over the bits at `from` to `to` - 1: the state after them, and the items that they gave, in order
/// of place. Windows may begin before `from`. Runs are this project's rule, after EN 50067:1998, annex C.
///
/// The item of the recording's end is not among them: see [`finish`](crate::finish). Fails only with
/// `OutOfMemory`. Over a sound range, up to its last block of number 4, the runs from all lawful states end in
/// one state (clause `converged`).
///
/// Its cost is that of a [`Decoder`]. It takes memory for the items. A list that is to be read once takes
/// none by a `Decoder`, and one that is to be kept takes little by [`run_report`](crate::run_report).
pub fn run(
    alloc: Global,
    rec: &Recording,
    rules: &Rules,
    state: State,
    from: u64,
    to: u64,
) -> Result<(State, Vec<Item>), RdsError>
    requires lawful { IsLawful rules.now from state }
    requires order { from ≤ to }
    requires within { to ≤ length_of rec.now }
    ensures state { IfOk result (λ end. end.0 ≡ (the_run rec.now rules.now state from (to - from)).0) }
    ensures items { IfOk result (λ end. end.1.items ≡ (the_run rec.now rules.now state from (to - from)).1) }
    ensures lawful { IfOk result (λ end. IsLawful rules.now to end.0) }
    ensures converged { IfOk result (λ end. IsConverged rec.now rules.now from to end.0) }
    ensures only_memory { IsOkUnless result RdsError.OutOfMemory }
{
    runs_are_lawful();
    runs_converge();
    let mut decoder = Decoder::new(rec, rules, state, from, to);
    let mut items = Vec::new(alloc);
    while let Some(item) = decoder.next() {
        items.reserve(1)?;
        push_one(&mut items, &item);
    }
    prove!(1 <= rules.reach());
    Ok((decoder.end_state(), items))
}
