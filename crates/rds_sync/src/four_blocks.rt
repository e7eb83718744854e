//! Four blocks of a lock that were heard at once: the group of them, or its word, and the loss history after
//! them.

ghost use Rattle.std.specs.Prelude.{◌≡◌, ◌≤◌, ◌<◌, ◌+◌, ◌-◌, ◌^◌, ◌∷◌, [], None, false, length, map, vec_capacity, ℕ, All, IfSome};
ghost use Rattle.rds_code.specs.{Outcomes.outcome_number, Offsets.number, declared.reading.Wanted.Wanted as TheWanted, declared.reading.Wanted.TheVariants.Either};
ghost use Rattle.rds_stream.specs.{InARow.four_heard, Recording.Signal, Recording.length_of, Recording.reading_heard};
ghost use Rattle.rds_sync.specs.{Groups.blocks_at, Groups.group, Groups.wanted_beside, Inside.Outcomes.IsKeptOver, Inside.Outcomes.valid, Inside.Outcomes.outcome_of, Inside.Outcomes.blocks_in, Inside.WholeGroups.HasPushed, Inside.WholeGroups.IsWhole, Loss.IsLawfulBad, Loss.bad_after, Loss.are_too_many, Ranges.IsLossInRange, Rules.RuleNumbers, declared.item.Block.TheVariants.Read};

use crate::item::{Block, Group, Item};
use crate::loss::{Loss, NONE_BAD};
use crate::push::push_one;
use crate::rules::Rules;
use crate::words::{CLEAN, was_valid};
use rds_code::laws::{bursts_are_listed, readings_follow_the_rule};
use rds_code::{BlockNumber, Offset, Outcomes, Reading, Wanted, rem26};
use rds_stream::Reader;

/// Appends the group of four blocks that were heard, the first of which begins at `place`. The loss history after it:
/// none if a block of it loses the lock, and then nothing is appended.
#[inline(always)]
pub(crate) fn push_whole(
    part: &mut Vec<Item>,
    rules: &Rules,
    loss: Loss,
    place: u64,
    heard: &[Option<u32>; 4],
    bad: u64,
) -> Option<u64>
    requires free { length part.old.items < vec_capacity part.old }
    requires blocks { All (λ heard. IfSome heard (λ window. window < 2 ^ 26)) heard.now }
    requires loss { loss ≡ rules.now.loss }
    requires range { IsLossInRange loss }
    requires lawful { IsLawfulBad loss bad }
    ensures pushed { IfSome result (λ after. (b : Signal) (due : ℕ) → 25 ≤ due → place ≡ due - 25
        → heard.now ≡ four_heard b due
        → HasPushed b rules.now due bad part.old.items part.new.items after) }
    ensures none { result ≡ None → part.new.items ≡ part.old.items }
    ensures room { vec_capacity part.new ≡ vec_capacity part.old }
{
    // A clean group is made in its place: what a call returns would be copied.
    match valid_blocks(heard) {
        Some(blocks) => {
            let after = bad_after_four(loss, CLEAN, bad)?;
            push_one(part, &Item::Group(Group::of_blocks(place, blocks)));
            Some(after)
        }
        None => {
            let (group, after) = any_heard(rules, loss, place, heard, bad)?;
            push_one(part, &Item::Group(group));
            Some(after)
        }
    }
}

/// The group of four blocks that were heard, the first of which begins at `place`, and the loss history after
/// it: none if a block of it loses the lock.
#[inline(always)]
pub(crate) fn any_heard(
    rules: &Rules,
    loss: Loss,
    place: u64,
    heard: &[Option<u32>; 4],
    bad: u64,
) -> Option<(Group, u64)>
    requires blocks { All (λ heard. IfSome heard (λ window. window < 2 ^ 26)) heard.now }
    requires loss { loss ≡ rules.now.loss }
    requires range { IsLossInRange loss }
    requires lawful { IsLawfulBad loss bad }
    ensures { IfSome result (λ whole. (b : Signal) (due : ℕ) → 25 ≤ due → place ≡ due - 25
        → heard.now ≡ four_heard b due
        → IsWhole b rules.now due bad whole.0 whole.1) }
{
    let blocks = blocks_of(rules, heard);
    let after = bad_after_blocks(loss, &blocks, bad)?;
    Some((Group::of_blocks(place, blocks), after))
}

/// The word of the group whose block 1 ends at `due`.
#[inline(always)]
pub(crate) fn whole_word(reader: &mut Reader<'_>, rules: &Rules, due: u64) -> u16
    requires first { 25 ≤ due }
    requires last { due + 78 < length_of reader.old }
    requires place { due < 2 ^ 37 }
    ensures blocks { blocks_in result ≡ map outcome_of (group reader.old rules.now 1 4 (due + 78)).blocks }
    ensures same { reader.new ≡ reader.old }
{
    word_heard(rules, &reader.four_windows(due))
}

/// The word of a group whose four blocks were heard: from a table, since no branch foresees damage.
fn word_heard(rules: &Rules, heard: &[Option<u32>; 4]) -> u16
    requires { All (λ heard. IfSome heard (λ window. window < 2 ^ 26)) heard.now }
    ensures { (b : Signal) (due : ℕ) → heard.now ≡ four_heard b due
        → blocks_in result ≡ map outcome_of (group b rules.now 1 4 (due + 78)).blocks }
{
    // The outcome of each reading has a word.
    bursts_are_listed();
    readings_follow_the_rule();
    prove!(rules.burst() <= 5);
    let [one, two, three, four] = *heard;
    let first = rules.outcome(one, BlockNumber::ONE, Wanted::Either);
    let second = rules.outcome(two, BlockNumber::TWO, Wanted::Either);
    let third = rules.outcome(three, BlockNumber::THREE, rules.wanted_beside(two));
    let fourth = rules.outcome(four, BlockNumber::FOUR, Wanted::Either);
    first + 16 * (second + 16 * (third + 16 * fourth))
}

/// The four blocks of that group.
#[inline(always)]
#[tactic(auto, using(crate::proofs::Lemmas::blocks_heard))]
fn blocks_of(rules: &Rules, heard: &[Option<u32>; 4]) -> [Block; 4]
    requires { All (λ heard. IfSome heard (λ window. window < 2 ^ 26)) heard.now }
    ensures { (b : Signal) (due : ℕ) → heard.now ≡ four_heard b due
        → result ≡ blocks_at b rules.now 1 4 (due + 78) }
{
    let [one, two, three, four] = *heard;
    let first = Block::Read(rules.read(one, BlockNumber::ONE, Wanted::Either));
    let second = Block::Read(rules.read(two, BlockNumber::TWO, Wanted::Either));
    let third = Block::Read(rules.read(three, BlockNumber::THREE, second.wanted_beside()));
    let fourth = Block::Read(rules.read(four, BlockNumber::FOUR, Wanted::Either));
    [first, second, third, fourth]
}

/// The four blocks that were heard, if all of them are valid with the numbers 1 to 4.
#[inline(always)]
fn valid_blocks(heard: &[Option<u32>; 4]) -> Option<[Block; 4]>
    requires { All (λ heard. IfSome heard (λ window. window < 2 ^ 26)) heard.now }
    ensures blocks { IfSome result (λ blocks. (b : Signal) (rules : RuleNumbers) (due : ℕ)
        → heard.now ≡ four_heard b due
        → blocks ≡ blocks_at b rules 1 4 (due + 78)) }
    ensures valid { IfSome result (λ blocks. map outcome_of blocks ≡ valid ∷ valid ∷ valid ∷ valid ∷ []) }
{
    let [one, two, three, four] = *heard;
    let first = valid_reading(one, Offset::A)?;
    let second = valid_reading(two, Offset::B)?;
    let third = valid_third(three)?;
    let fourth = valid_reading(four, Offset::D)?;
    Some([
        Block::Read(first),
        Block::Read(second),
        Block::Read(third),
        Block::Read(fourth),
    ])
}

/// The window that was heard, if it is a valid block 3 of either version.
#[inline(always)]
fn valid_third(heard: Option<u32>) -> Option<Reading>
    requires { IfSome heard (λ window. window < 2 ^ 26) }
    ensures reading { IfSome result (λ reading. (wanted : TheWanted) (limit : ℕ)
        → reading ≡ reading_heard heard 3 wanted limit) }
    ensures valid { IfSome result (λ reading. outcome_of (Read reading) ≡ valid) }
{
    match valid_reading(heard, Offset::C) {
        Some(reading) => Some(reading),
        None => valid_reading(heard, Offset::Cx),
    }
}

/// The window that was heard, if it is a valid block with this offset: one comparison of its remainder tells.
#[inline(always)]
fn valid_reading(heard: Option<u32>, offset: Offset) -> Option<Reading>
    requires { IfSome heard (λ window. window < 2 ^ 26) }
    ensures reading { IfSome result (λ reading. (wanted : TheWanted) (limit : ℕ)
        → reading ≡ reading_heard heard (number offset) wanted limit) }
    ensures valid { IfSome result (λ reading. outcome_of (Read reading) ≡ valid) }
{
    match heard {
        Some(window) if rem26(window) == offset.word() => Some(Reading::Valid {
            offset,
            info: (window >> 10) as u16,
        }),
        _ => None,
    }
}

/// The loss history after these four blocks, or none if one of them loses the lock.
#[inline(always)]
fn bad_after_blocks(loss: Loss, blocks: &[Block; 4], bad: u64) -> Option<u64>
    requires range { IsLossInRange loss }
    requires lawful { IsLawfulBad loss bad }
    ensures { IfSome result (IsKeptOver loss (map outcome_of blocks.now) bad) }
{
    let [one, two, three, four] = blocks;
    let first = kept_after(loss, one.is_valid(), bad)?;
    let second = kept_after(loss, two.is_valid(), first)?;
    let third = kept_after(loss, three.is_valid(), second)?;
    let fourth = kept_after(loss, four.is_valid(), third)?;
    Some(fourth)
}

/// The loss history after the blocks of the group of a word, or none if one of them loses the lock. After
/// four good blocks no row of bad ones is left, and none is counted.
#[inline(always)]
#[tactic(auto, using(crate::proofs::Lemmas::bad_after_four))]
pub(crate) fn bad_after_four(loss: Loss, word: u16, bad: u64) -> Option<u64>
    requires range { IsLossInRange loss }
    requires lawful { IsLawfulBad loss bad }
    ensures { IfSome result (IsKeptOver loss (blocks_in word) bad) }
{
    match loss {
        Loss::Run(_) if word == CLEAN => Some(NONE_BAD),
        _ => bad_after_each(loss, word, bad),
    }
}

/// The same, by one block after the other.
#[inline(always)]
fn bad_after_each(loss: Loss, word: u16, bad: u64) -> Option<u64>
    requires range { IsLossInRange loss }
    requires lawful { IsLawfulBad loss bad }
    ensures { IfSome result (IsKeptOver loss (blocks_in word) bad) }
{
    let one = kept_after(loss, was_valid(word % 16), bad)?;
    let two = kept_after(loss, was_valid(word / 16 % 16), one)?;
    let three = kept_after(loss, was_valid(word / 256 % 16), two)?;
    let four = kept_after(loss, was_valid(word / 4096), three)?;
    Some(four)
}

/// The loss history after one more block, or none if it loses the lock.
#[inline(always)]
#[tactic(auto, using(crate::proofs::LossLemmas::lawful_kept))]
fn kept_after(loss: Loss, good: bool, bad: u64) -> Option<u64>
    requires range { IsLossInRange loss }
    requires lawful { IsLawfulBad loss bad }
    ensures bad { IfSome result (λ after. after ≡ bad_after loss good bad) }
    ensures lawful { IfSome result (IsLawfulBad loss) }
    ensures kept { IfSome result (λ after. are_too_many loss after ≡ false) }
{
    let after = loss.bad_after(good, bad);
    if loss.are_too_many(after) {
        None
    } else {
        Some(after)
    }
}
