//! A run from a state which the caller keeps.

ghost use Rattle.std.specs.Prelude.{◌≡◌, ◌≢◌, length};
ghost use Rattle.rds_abi.specs.{Asked.IsFilled, Asked.RefusedBy, Asked.asked, Asked.rules_of, Ranges.IsLeftState, Ranges.IsRun, Ranges.RefusesItemsAtEnd, Ranges.RefusesItemsOfRun, Ranges.items_at_end, Ranges.items_of_run, Ranges.run_asked, Ranges.state_in_c, Ranges.state_of};

use rds_abi::{RdsGap, RdsItem, RdsRules, RdsState, finish_run, run};
use std::alloc::Global;

/// Runs over the places from `from` to before `to`, writes the items that this gives to the beginning of `room`, how many
/// they are to `count`, and the state after them to `state`, and returns 0, or the number of a refusal. After that of
/// `SmallRoom` only `count` was written.
#[unsafe(no_mangle)]
pub extern "C" fn rds_run(
    alloc: Global,
    bytes: &[u8],
    bits: u64,
    gaps: &[RdsGap],
    rules: &RdsRules,
    from: u64,
    to: u64,
    state: &mut RdsState,
    room: &mut [RdsItem],
    count: &mut u64,
) -> u8
    ensures filled { result ≡ 0
        → IsFilled (items_of_run (asked bytes.now bits gaps.now rules.now) from to state.old) room.old room.new }
    ensures count { result ≡ 0
        → count.new ≡ length (items_of_run (asked bytes.now bits gaps.now rules.now) from to state.old) }
    ensures state { result ≡ 0 → state_of state.new
        ≡ (run_asked (asked bytes.now bits gaps.now rules.now) from to state.old).0 }
    ensures laid { result ≡ 0 → state.new
        ≡ state_in_c (rules_of rules.now) (run_asked (asked bytes.now bits gaps.now rules.now) from to state.old).0 }
    ensures next { result ≡ 0 → IsLeftState (rules_of rules.now) to state.new }
    ensures lawful { result ≡ 0 → IsRun (asked bytes.now bits gaps.now rules.now) from to state.old }
    ensures refused { result ≢ 0 → RefusedBy (RefusesItemsOfRun (asked bytes.now bits gaps.now rules.now) from to state.old
        (length room.old) count.old count.new) result }
    ensures untouched { result ≢ 0 → (room.new ≡ room.old) × (state.new ≡ state.old) }
{
    let places = (from, to);
    match run(alloc, bytes, bits, gaps, *rules, places, state, room, count) {
        Ok(()) => 0,
        Err(refusal) => refusal.number(),
    }
}

/// Writes the group in progress at a recording's end, if a run over it ended in this state, to the beginning of `room`, and to `count` how
/// many groups these are, one or none. It returns 0, or the number of a refusal. After that of `SmallRoom` only `count` was written.
#[unsafe(no_mangle)]
pub extern "C" fn rds_finish_run(
    alloc: Global,
    bytes: &[u8],
    bits: u64,
    gaps: &[RdsGap],
    rules: &RdsRules,
    state: &RdsState,
    room: &mut [RdsItem],
    count: &mut u64,
) -> u8
    ensures filled { result ≡ 0
        → IsFilled (items_at_end (asked bytes.now bits gaps.now rules.now) state.now) room.old room.new }
    ensures count { result ≡ 0
        → count.new ≡ length (items_at_end (asked bytes.now bits gaps.now rules.now) state.now) }
    ensures lawful { result ≡ 0 → IsRun (asked bytes.now bits gaps.now rules.now) bits bits state.now }
    ensures refused { result ≢ 0 → RefusedBy
        (RefusesItemsAtEnd (asked bytes.now bits gaps.now rules.now) state.now (length room.old) count.old count.new) result }
    ensures untouched { result ≢ 0 → room.new ≡ room.old }
{
    match finish_run(alloc, bytes, bits, gaps, *rules, *state, room, count) {
        Ok(()) => 0,
        Err(refusal) => refusal.number(),
    }
}
