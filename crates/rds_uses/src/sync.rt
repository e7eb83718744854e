//! Facts that a user of `rds_sync` relies on: rules, lawful states, steps over a tape, runs over a range and their items, and reports.
ghost use Rattle.std.specs.Prelude.{◌≡◌, ◌≢◌, ℕ, ◌+◌, ◌-◌, ◌*◌, ◌<◌, ◌≤◌, ◌^◌, ◌++◌, ◌∷◌, ◌↔◌, [], IsTrue, IfOk, IsOkUnless, None, Some, true, Bool, if◌then◌else◌};
ghost use Rattle.std.specs.Int.{bit_at};
ghost use Rattle.rds_stream.specs.Recording.{length_of, touched};
ghost use Rattle.rds_sync.specs.{declared.item.Block.Block as ABlock, declared.state.State.State as AState, declared.step.Step.Step as AStep, Stretch.IsStretch, declared.state.State.TheVariants.Searching, Advance.group_item, Advance.items_in, Counting.IsAtMost, Convergence.IsSound, Convergence.sound_bits, Decoding.listed, GroupLaws.IsBlock, Groups.group as group_at, Groups.info_of, Lawful.IsBetweenGroups, Lawful.IsLawful, Loss.IsLawfulBad, Loss.bad_at, Loss.loses, Report.report_items, Step.items_at, Step.items_of_end, Step.run as run_of, Step.step, Totals.totals_of, declared.loss.Loss.TheVariants.Share, Ranges.IsLossInRange};
ghost use Rattle.rds_code.specs.declared.error.RdsError.TheVariants.{BurstRange, LossRange, OutOfMemory, ReachRange, ShareRange};

use rds_code::RdsError;
use rds_stream::{Counted, Reader, Recording, Tape};
use rds_sync::{
    Bad, Decoder, Group, Item, Lock, Loss, Report, Rules, Spans, State, Step, Tally, advance,
    finish, laws, run, run_report, stretch,
};
use std::alloc::Global;
use std::snapshot::Snapshot;

/// Rules are made again of the numbers that they were made of. Only memory can be refused.
pub fn rules_again(alloc: Global, rules: &Rules) -> Result<Rules, RdsError>
    ensures rules { IfOk result (λ made. made ≡ rules.now) }
    ensures refused { IsOkUnless result OutOfMemory }
{
    Rules::of(alloc, rules.numbers())
}

/// So they are of their numbers one after the other, each of which fits in a byte.
pub fn rules_in_bytes(alloc: Global, rules: &Rules) -> Result<Rules, RdsError>
    ensures rules { IfOk result (λ made. made ≡ rules.now) }
    ensures refused { IsOkUnless result OutOfMemory }
{
    let (burst, reach) = (rules.burst() as u8, rules.reach() as u8);
    match rules.loss() {
        Loss::Run(blocks) => Rules::new(alloc, burst.into(), reach.into(), u32::from(blocks as u8)),
        Loss::Share { bad, of } => Rules::with_share(
            alloc,
            burst.into(),
            reach.into(),
            bad,
            u32::from(of as u8),
        ),
    }
}

/// Of several wrong numbers the first is refused.
pub fn refused_in_order(alloc: Global, reach: u32, loss: u32, of: u32) -> [Option<RdsError>; 4]
    ensures { result ≡ Some BurstRange ∷ Some ReachRange ∷ Some LossRange ∷ Some ShareRange ∷ [] }
{
    [
        Rules::new(alloc, 6, reach, loss).err(),
        Rules::with_share(alloc, 5, 0, loss, of).err(),
        Rules::new(alloc, 5, 8, 65).err(),
        Rules::with_share(alloc, 5, 8, 0, of).err(),
    ]
}

/// Whether a group that was read from its block 1 to its block 4, which ends at `place`, has four information words.
pub fn has_four_words(recording: &Recording, rules: &Rules, place: u64, group: &Group) -> bool
    requires place { 103 ≤ place }
    requires group { group.now ≡ group_at recording.now rules.now 1 4 place }
    ensures { IsTrue result ↔ ((y : ℕ) → 1 ≤ y → y ≤ 4
        → (block : ABlock) × (word : ℕ) × IsBlock group.now y block × (info_of block ≡ Some word)) }
{
    laws::groups_are_read();
    group.is_complete()
}

/// A run from a tested state ends in one that needs no test, and gives two items per bit at most. Only memory can be refused.
pub fn tested_run(
    alloc: Global,
    recording: &Recording,
    rules: &Rules,
    state: State,
) -> Result<(bool, u64), RdsError>
    ensures lawful { IfOk result (λ told. told.0 ≡ true) }
    ensures left { IfOk result (λ told. told.1 ≤ 2 * length_of recording.now) }
    ensures refused { IsOkUnless result OutOfMemory }
{
    laws::runs_give_few_items();
    let len = recording.len();
    if !state.is_lawful(rules, 0) {
        return Ok((true, 0));
    }
    let (end, items) = run(alloc, recording, rules, state, 0, len)?;
    Ok((end.is_lawful(rules, len), 2 * len - items.len() as u64))
}

/// A run over one bit from a lawful state is that bit, and ends in a lawful state. If it is another one, with no group in progress, the bit
/// gives an item.
pub fn lawful_after_bit(recording: &Recording, rules: &Rules, state: State, place: u64) -> State
    requires lawful { IsLawful rules.now place state }
    requires within { place < length_of recording.now }
    ensures step { result ≡ step recording.now rules.now place state }
    ensures lawful { IsLawful rules.now (place + 1) (step recording.now rules.now place state) }
    ensures item { step recording.now rules.now place state ≢ state
        → IsBetweenGroups (step recording.now rules.now place state)
        → items_at recording.now rules.now place state ≢ [] }
{
    let (_loss, _len) = (rules.loss(), recording.len());
    laws::steps_are_lawful();
    laws::items_mark_changes();
    laws::one_bit_runs();
    Decoder::new(recording, rules, state, place, place + 1).end_state()
}

/// A step is the run over its bits. A search goes bit by bit, and reads its own window and one for each block of its reach at most. It goes
/// on, and gives nothing, at a place whose window touches a gap.
pub fn one_step<T: Tape>(tape: &mut T, rules: &Rules, state: State, place: u64, to: u64) -> Step
    requires lawful { IsLawful rules.now place state }
    requires before { place < to }
    requires within { to ≤ length_of (T.signal tape.old) }
    requires counted { T.reads_made tape.old + 16 ≤ 2 ^ 63 }
    ensures moved { (place < result.place) × (result.place ≤ to) }
    ensures state { result.state ≡ (run_of (T.signal tape.old) rules.now state place (result.place - place)).0 }
    ensures items { items_in result.items ≡ (run_of (T.signal tape.old) rules.now state place (result.place - place)).1 }
    ensures lawful { IsLawful rules.now result.place result.state }
    ensures bit { state ≡ Searching → result.place ≡ place + 1 }
    ensures gap { state ≡ Searching → touched (T.signal tape.old) place ≡ true
        → (result.state ≡ Searching) × (items_in result.items ≡ []) }
    ensures reads { state ≡ Searching → T.reads_made tape.new ≤ T.reads_made tape.old + (rules.now.reach + 1) }
    ensures same { T.signal tape.new ≡ T.signal tape.old }
{
    advance(tape, rules, state, place, to)
}

/// The end of a recording closes the group in progress, for three windows at most, and the tape is of the same bits.
pub fn cost_of_end<T: Tape>(tape: &mut T, rules: &Rules, state: State) -> Option<Group>
    requires lawful { IsLawful rules.now (length_of (T.signal tape.old)) state }
    requires counted { T.reads_made tape.old + 16 ≤ 2 ^ 63 }
    ensures group { group_item result ≡ items_of_end (T.signal tape.old) rules.now state }
    ensures reads { T.reads_made tape.new ≤ T.reads_made tape.old + 3 }
    ensures same { T.signal tape.new ≡ T.signal tape.old }
{
    finish(tape, rules, state)
}

/// A stretch is the run over its bits, and goes at least as far as a step. Its reader can go on.
pub fn one_stretch(
    reader: &mut Reader<'_>,
    rules: &Rules,
    state: State,
    place: u64,
    to: u64,
) -> (Step, bool)
    requires lawful { IsLawful rules.now place state }
    requires before { place < to }
    requires within { to ≤ length_of reader.old }
    ensures moved { (place < result.0.place) × (result.0.place ≤ to) }
    ensures items { items_in result.0.items ≡ (run_of reader.old rules.now state place (result.0.place - place)).1 }
    ensures no_further { result.1 ≡ true }
    ensures same { reader.new ≡ reader.old }
{
    laws::steps_agree();
    let recording = reader.recording();
    let _len = recording.len();
    let step = advance(&mut Counted::new(recording), rules, state, place, to);
    let far = stretch(reader, rules, state, place, to);
    (far, step.place <= far.place)
}

/// A hop of a tally that ends where a stretch does ends in its state.
pub fn one_hop(
    alloc: Global,
    recording: &Recording,
    rules: &Rules,
    state: State,
    place: u64,
    to: u64,
) -> (u64, State)
    requires lawful { IsLawful rules.now place state }
    requires before { place < to }
    requires within { to ≤ length_of recording.now }
    ensures state { (far : AStep) → IsStretch recording.now rules.now state place to far → result.0 ≡ far.place → result.1 ≡ far.state }
{
    laws::steps_agree();
    let _len = recording.len();
    let source = Snapshot::of(recording);
    let mut tally = Tally::new(alloc, source, rules, state, place, Spans::Whole);
    let _hopped = tally.hop(&mut Counted::new(recording), rules, to, to);
    (tally.place(), tally.state())
}

/// The items of the run over a recording in two parts, with the group at its end, are the report's.
pub fn decoded_in_two<'a>(
    recording: &'a Recording,
    rules: &'a Rules,
    middle: u64,
) -> (Decoder<'a>, Decoder<'a>, Option<Group>)
    requires { middle ≤ length_of recording.now }
    ensures { (result.0.items ++ result.1.items) ++ group_item result.2 ≡ report_items recording.now rules.now }
{
    let _loss = rules.loss();
    let len = recording.len();
    laws::runs_join();
    laws::runs_are_lawful();
    laws::runs_are_reports();
    let first = Decoder::new(recording, rules, State::Searching, 0, middle);
    let state = Decoder::new(recording, rules, State::Searching, 0, middle).end_state();
    let second = Decoder::new(recording, rules, state, middle, len);
    let end = Decoder::new(recording, rules, state, middle, len).end_state();
    let group = finish(&mut Counted::new(recording), rules, end);
    (first, second, group)
}

/// Runs that once are in one state stay so. Over a sound range those from all lawful states come into one, at a place within it.
pub fn has_one_end(recording: &Recording, rules: &Rules, from: u64, middle: u64, to: u64)
    requires before { from ≤ middle }
    requires after { middle ≤ to }
    ensures merged { (s t : AState) → (run_of recording.now rules.now s from (middle - from)).0
        ≡ (run_of recording.now rules.now t from (middle - from)).0
        → (run_of recording.now rules.now s from (to - from)).0
        ≡ (run_of recording.now rules.now t from (to - from)).0 }
    ensures sound { (j p c : ℕ) → IsSound recording.now rules.now j from p c
        → (to : ℕ) × (to ≤ from + sound_bits rules.now.loss j)
        × ((s t : AState) → IsLawful rules.now from s → IsLawful rules.now from t
        → (run_of recording.now rules.now s from (to - from)).0
        ≡ (run_of recording.now rules.now t from (to - from)).0) }
{
    laws::runs_merge();
    laws::runs_converge();
    let _numbers = rules.numbers();
}

/// Up to the block that is due a lock gives nothing. Neither does a recording in its first 51 places.
pub fn nothing_while_waiting<'a>(
    recording: &'a Recording,
    rules: &'a Rules,
    bad: u64,
    from: u64,
    due: u64,
) -> (Option<Item>, Decoder<'a>)
    requires bad { IsLawfulBad rules.now.loss bad }
    requires order { from ≤ due }
    requires soon { due ≤ from + 25 }
    requires whole { 77 ≤ due }
    requires within { due < length_of recording.now }
    ensures none { result.0 ≡ None }
    ensures state { result.1.end ≡ Searching }
    ensures items { result.1.items ≡ [] }
{
    let (_loss, _len) = (rules.loss(), recording.len());
    laws::locks_wait();
    laws::acquisitions_are_late();
    laws::searches_go_on();
    let lock = Lock {
        due,
        number: 1,
        bad,
        first: 1,
    };
    let none = Decoder::new(recording, rules, State::Locked(lock), from, due).next();
    (
        none,
        Decoder::new(recording, rules, State::Searching, 0, 51),
    )
}

/// The items of a run from a lawful state, their totals, and the state that it ends in.
pub fn report_of_run(
    alloc: Global,
    recording: &Recording,
    rules: &Rules,
    state: State,
    from: u64,
    to: u64,
) -> Result<(State, Report), RdsError>
    requires lawful { IsLawful rules.now from state }
    requires order { from ≤ to }
    requires within { to ≤ length_of recording.now }
    ensures state { IfOk result (λ end. end.0 ≡ (run_of recording.now rules.now state from (to - from)).0) }
    ensures items { IfOk result (λ end. end.1.items
        ≡ listed recording.now rules.now (run_of recording.now rules.now state from (to - from)).1) }
    ensures totals { IfOk result (λ end. end.1.totals ≡ totals_of (run_of recording.now rules.now state from (to - from)).1) }
    ensures small { IfOk result (λ end. IsAtMost (2 ^ 47) end.1.totals) }
    ensures lawful { IfOk result (λ end. IsLawful rules.now to end.0) }
    ensures refused { IsOkUnless result OutOfMemory }
{
    run_report(alloc, recording, rules, state, from, to, Spans::Whole)
}

/// A lock is lost if the mask that is kept of its last blocks has too many ones. Its lowest bit tells whether the newest block was bad.
pub fn lost_by_mask(bad: u32, of: u32, mask: u64) -> bool
    ensures lost { (is_good : ℕ → Bool) (k : ℕ) → bad_at is_good (Share bad of) k ≡ mask → loses (Share bad of) is_good k ≡ result }
    ensures newest { 1 ≤ of → (is_good : ℕ → Bool) (k : ℕ) → 1 ≤ k
        → bit_at (bad_at is_good (Share bad of) k) 0 ≡ (if is_good k then 0 else 1) }
{
    laws::bad_blocks_lose();
    laws::masks_tell_blocks();
    bad <= mask.count_ones()
}

/// Each rule as one of a share: it loses the same locks at the same blocks.
pub fn as_share(loss: Loss) -> Loss
    ensures { (is_good : ℕ → Bool) (k : ℕ) → loses result is_good k ≡ loses loss is_good k }
{
    laws::runs_are_shares();
    match loss {
        Loss::Run(blocks) => Loss::Share {
            bad: blocks,
            of: blocks,
        },
        share => share,
    }
}

/// A lock that bad blocks in a row lose tells how many it has, and one that a share loses tells its mask.
pub fn history_of(lock: Lock, loss: Loss) -> Option<u64>
    requires range { IsLossInRange loss }
    requires lawful { IsLawfulBad loss lock.bad }
    ensures { result ≡ Some lock.bad }
{
    match (lock.bad_by(loss), loss) {
        (Bad::Run(blocks), Loss::Run(_)) => Some(u64::from(blocks)),
        (Bad::Mask(mask), Loss::Share { .. }) => Some(mask),
        _ => None,
    }
}
