//! A run from a state which the caller keeps.

ghost use Rattle.std.specs.Prelude.{◌≡◌, ◌≢◌, ◌+◌, ◌-◌, ◌^◌, ◌<◌, ◌≤◌, ◌⊎◌, ◌↔◌, ℕ, true, All, IfErr, IfOk, IfSome, IsOkUnless, None, OnErr, OnOk, length, map};
ghost use Rattle.rds_stream.specs.Recording.{length_of};
ghost use Rattle.rds_sync.specs.{Advance.group_item, Lawful.IsLawful as IsLawfulState, Rules.RuleNumbers, declared.state.State.TheVariants.Searching, Step.run as the_run};
ghost use Rattle.rds_live.specs.{Moving.IsPartHeard, Moving.moved_item, Moving.moved_items, Moving.moved_state, Places.place_of};
ghost use Rattle.rds_abi.specs.Ranges.{IsLeftState, IsRun, RefusesItemsAtEnd, RefusesItemsOfRun, RefusesRun, items_at_end, items_of_run, loss_in_c as the_loss_in_c, run_asked, run_from, state_in_c as the_state_in_c, state_of as the_state_of};
ghost use Rattle.rds_abi.specs.{Asked.IsFilled, Asked.IsTooMuch, Asked.asked, Asked.recording_of as the_recording_of, Asked.rules_of as the_rules_of, declared.refusal.Refusal.TheVariants.OutOfMemory, declared.refusal.Refusal.TheVariants.PlaceRange, declared.refusal.Refusal.TheVariants.SmallRoom, declared.refusal.Refusal.TheVariants.UnlawfulState, Layout.item_in_c};

use crate::asked::{refuse_recording, rules_of};
use crate::in_c::item_in_c;
use crate::layout::{RdsGap, RdsItem, RdsRules, RdsState};
use crate::part::{Part, part_of};
use crate::refusal::Refusal;
use rds_live::laws::{ends_move, runs_move};
use rds_live::{moved_back, moved_end, moved_on};
use rds_sync::{Decoder, Group, Item, Lock, Loss, Rules, Spans, State, laws, run_report};
use std::alloc::Global;

/// The lock that these numbers say, of a block that is known, or none if it is not lawful before `place`.
fn lock_of(rules: &Rules, s: RdsState, place: u64) -> Option<State>
    requires { s.number ≢ 0 }
    ensures some { IfSome result (λ state. state ≡ the_state_of s) }
    ensures left { IfSome result (λ _. IsLeftState rules.now place s) }
    ensures none { result ≡ None → IsLeftState rules.now place s → ⊥ }
{
    if s.number > 4 || s.first > 4 || !is_by(rules.loss(), s) {
        return None;
    }
    let state = State::Locked(Lock {
        due: s.due,
        number: s.number as u8,
        bad: s.bad,
        first: s.first as u8,
    });
    if state.is_lawful(rules, place) {
        Some(state)
    } else {
        None
    }
}

/// Whether the numbers name this rule of loss, and nothing else.
fn is_by(loss: Loss, s: RdsState) -> bool
    ensures { (result ≡ true)
        ↔ ((s.loss ≡ (the_loss_in_c loss).0) × (s.of ≡ (the_loss_in_c loss).1) × (s.reserved ≡ 0)) }
{
    let (bad, of) = loss_in_c(loss);
    s.loss == bad && s.of == of && s.reserved == 0
}

/// A rule of loss as two numbers: how many bad blocks, and among how many, or 0.
pub(crate) fn loss_in_c(loss: Loss) -> (u32, u32)
    ensures { result ≡ the_loss_in_c loss }
{
    match loss {
        Loss::Run(bad) => (bad, 0),
        Loss::Share { bad, of } => (bad, of),
    }
}

/// The state that these numbers say, or none if no call can have left them before `place`.
pub(crate) fn state_of(rules: &Rules, s: RdsState, place: u64) -> Option<State>
    ensures some { IfSome result (λ state. state ≡ the_state_of s) }
    ensures left { IfSome result (λ _. IsLeftState rules.now place s) }
    ensures none { result ≡ None → IsLeftState rules.now place s → ⊥ }
{
    if s == RdsState::SEARCHING {
        Some(State::Searching)
    } else if s.number == 0 {
        None
    } else {
        lock_of(rules, s, place)
    }
}

/// A state by these rules, for C.
pub(crate) fn state_in_c(rules: &Rules, state: State) -> RdsState
    ensures value { result ≡ the_state_in_c rules.now state }
    ensures says { (rules : RuleNumbers) (place : ℕ) → IsLawfulState rules place state
        → the_state_of result ≡ state }
{
    match state {
        State::Searching => RdsState::SEARCHING,
        State::Locked(lock) => {
            let (loss, of) = loss_in_c(rules.loss());
            RdsState {
                due: lock.due,
                bad: lock.bad,
                number: u32::from(lock.number),
                first: u32::from(lock.first),
                loss,
                of,
                reserved: 0,
            }
        }
    }
}

/// The state that a run over the places of this range begins with, in a recording of `bits` bits.
fn state_at(rules: &Rules, bits: u64, range: (u64, u64), s: RdsState) -> Result<State, Refusal>
    ensures state { IfOk result (λ state. state ≡ the_state_of s) }
    ensures left { IfOk result (λ _. IsLeftState rules.now range.0 s) }
    ensures order { IfOk result (λ _. range.0 ≤ range.1) }
    ensures within { IfOk result (λ _. range.1 ≤ bits) }
    ensures refused { IfErr result (λ refusal. ((refusal ≡ PlaceRange) × ((range.1 < range.0) ⊎ (bits < range.1)))
        ⊎ ((refusal ≡ UnlawfulState) × (range.0 ≤ range.1) × (range.1 ≤ bits)
        × (IsLeftState rules.now range.0 s → ⊥))) }
{
    let (from, to) = range;
    if to < from || bits < to {
        return Err(Refusal::PlaceRange);
    }
    match state_of(rules, s, from) {
        Some(state) => Ok(state),
        None => Err(Refusal::UnlawfulState),
    }
}

/// Rules, the part of a recording that a run hears, and the state in the part that the run begins with.
#[derive(Drop)]
struct Start {
    rules: Rules,
    part: Part,
    state: State,
}

/// The part, the rules and the state that a run over the places of this range begins with.
fn start_of(
    alloc: Global,
    bytes: &[u8],
    bits: u64,
    gaps: &[RdsGap],
    rules: RdsRules,
    range: (u64, u64),
    state: RdsState,
) -> Result<Start, Refusal>
    ensures rules { IfOk result (λ start. start.rules ≡ the_rules_of rules) }
    ensures begins { IfOk result (λ start. start.part.before ≤ range.0) }
    ensures len { IfOk result (λ start. length_of start.part.recording ≡ range.1 - start.part.before) }
    ensures heard { IfOk result (λ start. (place : ℕ) → range.0 - start.part.before ≤ place
        → IsPartHeard (the_recording_of bytes.now bits gaps.now) start.part.recording start.part.before place) }
    ensures state { IfOk result (λ start. moved_state start.part.before start.state ≡ the_state_of state) }
    ensures begin { IfOk result (λ start. IsLawfulState start.rules (range.0 - start.part.before) start.state) }
    ensures lawful { IfOk result (λ _. IsRun (asked bytes.now bits gaps.now rules) range.0 range.1 state) }
    ensures refused { IfErr result (RefusesRun (asked bytes.now bits gaps.now rules) range.0 range.1 state) }
{
    let rules = rules_of(alloc, rules)?;
    refuse_recording(bytes, bits, gaps)?;
    let whole = state_at(&rules, bits, range, state)?;
    let part = part_of(alloc, bytes, bits, gaps, range.0, range.1)?;
    let state = moved_back(whole, part.before);
    Ok(Start { rules, part, state })
}

/// Runs over the places from `from` to before `to` of a recording, from a state that is lawful before `from`, and writes
/// the items that this gives to the beginning of `room`, how many they are to `count`, and the state after them to `state`.
/// Runs in a row, each from the state of the one before, are one run: so a list of any length needs room for few items.
///
/// Refuses as [`totals`](crate::totals) does, then `PlaceRange` and `UnlawfulState`, and then `SmallRoom`;
/// `count` then tells how many items there are, and nothing else was written. It takes memory for the tables
/// of the rules, and for the bytes and the gaps of the range and of the 233 bits before it.
pub fn run(
    alloc: Global,
    bytes: &[u8],
    bits: u64,
    gaps: &[RdsGap],
    rules: RdsRules,
    range: (u64, u64),
    state: &mut RdsState,
    room: &mut [RdsItem],
    count: &mut u64,
) -> Result<(), Refusal>
    ensures filled { OnOk result
        (IsFilled (items_of_run (asked bytes.now bits gaps.now rules) range.0 range.1 state.old) room.old room.new) }
    ensures count { OnOk result
        (count.new ≡ length (items_of_run (asked bytes.now bits gaps.now rules) range.0 range.1 state.old)) }
    ensures state { OnOk result (the_state_of state.new
        ≡ (run_asked (asked bytes.now bits gaps.now rules) range.0 range.1 state.old).0) }
    ensures laid { OnOk result (state.new
        ≡ the_state_in_c (the_rules_of rules) (run_asked (asked bytes.now bits gaps.now rules) range.0 range.1 state.old).0) }
    ensures next { OnOk result (IsLeftState (the_rules_of rules) range.1 state.new) }
    ensures lawful { OnOk result (IsRun (asked bytes.now bits gaps.now rules) range.0 range.1 state.old) }
    ensures untouched { OnErr result ((room.new ≡ room.old) × (state.new ≡ state.old)) }
    ensures refused { IfErr result (RefusesItemsOfRun (asked bytes.now bits gaps.now rules) range.0 range.1 state.old
        (length room.old) count.old count.new) }
{
    let start = start_of(alloc, bytes, bits, gaps, rules, range, *state)?;
    runs_move();
    go_on(alloc, &start, range, state, room, count)
}

/// Runs over a range from a start, and writes the items and the state.
fn go_on(
    alloc: Global,
    start: &Start,
    range: (u64, u64),
    state: &mut RdsState,
    room: &mut [RdsItem],
    count: &mut u64,
) -> Result<(), Refusal>
    requires begins { start.now.part.before ≤ range.0 }
    requires order { range.0 ≤ range.1 }
    requires limit { range.1 ≤ 2 ^ 36 }
    requires len { length_of start.now.part.recording ≡ range.1 - start.now.part.before }
    requires begin { IsLawfulState start.now.rules (range.0 - start.now.part.before) start.now.state }
    ensures filled { OnOk result (IsFilled (map item_in_c (run_from start.now range).1) room.old room.new) }
    ensures count { OnOk result (count.new ≡ length (run_from start.now range).1) }
    ensures laid { OnOk result (state.new ≡ the_state_in_c start.now.rules (run_from start.now range).0) }
    ensures state { OnOk result (the_state_of state.new ≡ (run_from start.now range).0) }
    ensures next { OnOk result (IsLeftState start.now.rules range.1 state.new) }
    ensures untouched { OnErr result ((room.new ≡ room.old) × (state.new ≡ state.old)) }
    ensures refused { IfErr result (λ refusal.
        IsTooMuch (map item_in_c (run_from start.now range).1) (length room.old) refusal count.new
        ⊎ ((refusal ≡ OutOfMemory) × (count.new ≡ count.old))) }
{
    let before = start.part.before;
    let from = range.0 - before;
    let to = range.1 - before;
    let (end, number) = count_items(alloc, start, from, to)?;
    *count = number as u64;
    if room.len() < number {
        return Err(Refusal::SmallRoom);
    }
    let items = Decoder::new(&start.part.recording, &start.rules, start.state, from, to);
    fill_run(room, items, before);
    *state = state_in_c(&start.rules, moved_on(end, start.part.before));
    Ok(())
}

/// The state at the end of a run over places of the part, and how many items it gives.
fn count_items(alloc: Global, start: &Start, from: u64, to: u64) -> Result<(State, usize), Refusal>
    requires lawful { IsLawfulState start.now.rules from start.now.state }
    requires order { from ≤ to }
    requires within { to ≤ length_of start.now.part.recording }
    ensures state { IfOk result (λ end. end.0
        ≡ (the_run start.now.part.recording start.now.rules start.now.state from (to - from)).0) }
    ensures count { IfOk result (λ end. end.1
        ≡ length (the_run start.now.part.recording start.now.rules start.now.state from (to - from)).1) }
    ensures lawful { IfOk result (λ end. IsLawfulState start.now.rules to end.0) }
    ensures refused { IsOkUnless result OutOfMemory }
{
    let recording = &start.part.recording;
    laws::runs_give_few_items();
    prove!(to <= recording.len());
    let rules = &start.rules;
    match run_report(alloc, recording, rules, start.state, from, to, Spans::Whole) {
        Ok((end, report)) => Ok((end, report.items.len())),
        Err(_) => Err(Refusal::OutOfMemory),
    }
}

/// Writes the items of a run, moved on by `by` places, to the beginning of the room.
fn fill_run(room: &mut [RdsItem], items: Decoder<'_>, by: u64)
    requires fits { length items.items ≤ length room.old }
    requires early { All (λ item. place_of item < 2 ^ 36) items.items }
    requires limit { by ≤ 2 ^ 36 }
    ensures { IsFilled (map item_in_c (moved_items by items.entry.items)) room.old room.new }
{
    let mut at = 0;
    for item in items {
        room[at] = moved_in_c(item, by);
        at += 1;
    }
}

/// An item, moved on by `by` places, for C.
fn moved_in_c(item: Item, by: u64) -> RdsItem
    requires { place_of item + by < 2 ^ 64 }
    ensures { result ≡ item_in_c (moved_item by item) }
{
    let found = item_in_c(item);
    RdsItem {
        place: found.place + by,
        ..found
    }
}

/// Writes the group in progress, if there is one, to the beginning of the room, and to the count whether there is one.
pub(crate) fn write_end(
    room: &mut [RdsItem],
    group: Option<Group>,
    count: &mut u64,
) -> Result<(), Refusal>
    ensures filled { OnOk result (IsFilled (map item_in_c (group_item group)) room.old room.new) }
    ensures count { count.new ≡ length (group_item group) }
    ensures untouched { OnErr result (room.new ≡ room.old) }
    ensures refused { IfErr result
        (λ refusal. (refusal ≡ SmallRoom) × (length room.old < length (group_item group))) }
{
    *count = u64::from(group.is_some());
    if let Some(group) = group {
        let Some(slot) = room.first_mut() else {
            return Err(Refusal::SmallRoom);
        };
        *slot = item_in_c(Item::Group(group));
    }
    Ok(())
}

/// Writes the group in progress at a recording's end, if a run over it ended in this state, to the beginning
/// of `room`, and to `count` how many groups these are: one or none.
///
/// Refuses as [`run`] does, with no place from the recording's end on.
pub fn finish_run(
    alloc: Global,
    bytes: &[u8],
    bits: u64,
    gaps: &[RdsGap],
    rules: RdsRules,
    state: RdsState,
    room: &mut [RdsItem],
    count: &mut u64,
) -> Result<(), Refusal>
    ensures filled { OnOk result (IsFilled (items_at_end (asked bytes.now bits gaps.now rules) state) room.old room.new) }
    ensures count { OnOk result (count.new ≡ length (items_at_end (asked bytes.now bits gaps.now rules) state)) }
    ensures lawful { OnOk result (IsRun (asked bytes.now bits gaps.now rules) bits bits state) }
    ensures untouched { OnErr result (room.new ≡ room.old) }
    ensures refused { IfErr result
        (RefusesItemsAtEnd (asked bytes.now bits gaps.now rules) state (length room.old) count.old count.new) }
{
    let start = start_of(alloc, bytes, bits, gaps, rules, (bits, bits), state)?;
    ends_move();
    let part = &start.part;
    let group = moved_end(&part.recording, &start.rules, start.state, part.before);
    write_end(room, group, count)
}
