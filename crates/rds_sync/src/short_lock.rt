//! A lock that its second block loses: its group has these two blocks, or only the second after a block 4.

ghost use Rattle.std.specs.Prelude.{◌≡◌, ◌≤◌, ◌<◌, ◌+◌, ◌^◌, true, IfSome};
ghost use Rattle.rds_code.specs.{Cycle.next_number, Outcomes.outcome_number};
ghost use Rattle.rds_stream.specs.Recording.{length_of, reading_at};
ghost use Rattle.rds_sync.specs.{Acquiring.has_number, Inside.Outcomes.IsLostAtOnce, Inside.Outcomes.wanted_behind, Inside.Outcomes.word_of_two};

use crate::lock::BLOCK_PLACES;
use crate::rules::Rules;
use rds_code::laws::{bursts_are_listed, readings_follow_the_rule};
use rds_code::{BlockNumber, Outcomes, Wanted};
use rds_stream::Reader;

/// The word of the group of a lock that begins with block `number` at `place`, if the next block, before
/// `to`, is bad and one bad block loses a lock. If there is none, nothing is said of the lock.
#[inline(always)]
pub(crate) fn word_if_lost(
    reader: &mut Reader<'_>,
    rules: &Rules,
    place: u64,
    number: BlockNumber,
    to: u64,
) -> Option<u16>
    requires valid { (25 ≤ place) × (has_number reader.old place number ≡ true) }
    requires order { place < to }
    requires within { to ≤ length_of reader.old }
    requires near { to ≤ 2 ^ 36 }
    ensures lost { IfSome result (IsLostAtOnce reader.old rules.now place number to) }
    ensures same { reader.new ≡ reader.old }
{
    // The outcome of each reading has a word.
    bursts_are_listed();
    readings_follow_the_rule();
    if to <= place + BLOCK_PLACES {
        return None;
    }
    let loss = rules.loss();
    if loss.loses_by_one() {
        prove!(number.get() <= 4);
        let outcome = outcome_after(reader, rules, place, number);
        if outcome != u16::from(Outcomes::VALID) {
            return Some(word_of_two(number, outcome));
        }
    }
    None
}

/// The word of a group of a valid block of this number and the next one of this outcome; after block 4, of only
/// that one.
#[inline(always)]
fn word_of_two(number: BlockNumber, outcome: u16) -> u16
    requires outcome { outcome ≤ 13 }
    ensures { result ≡ word_of_two number outcome }
{
    match number.get() {
        1 => 0x0001 + 0x0010 * outcome,
        2 => 0x0010 + 0x0100 * outcome,
        3 => 0x0100 + 0x1000 * outcome,
        _ => outcome,
    }
}

/// How the next block after one of this number at `place` came out.
#[inline(always)]
fn outcome_after(reader: &mut Reader<'_>, rules: &Rules, place: u64, number: BlockNumber) -> u16
    requires first { 25 ≤ place }
    requires within { place + 26 < length_of reader.old }
    requires near { place < 2 ^ 36 }
    ensures value { result ≡ outcome_number
        (reading_at reader.old (place + 26) (next_number number)
        (wanted_behind reader.old rules.now place number) rules.now.burst) }
    ensures most { result ≤ 13 }
    ensures same { reader.new ≡ reader.old }
{
    let wanted = wanted_behind(reader, rules, place, number);
    rules.outcome(reader.window(place + BLOCK_PLACES), number.next(), wanted)
}

/// The offsets that are tried for that block.
#[inline(always)]
fn wanted_behind(reader: &mut Reader<'_>, rules: &Rules, place: u64, number: BlockNumber) -> Wanted
    requires first { 25 ≤ place }
    requires within { place < length_of reader.old }
    ensures value { result ≡ wanted_behind reader.old rules.now place number }
    ensures same { reader.new ≡ reader.old }
{
    if number == BlockNumber::TWO {
        rules.wanted_beside(reader.window(place))
    } else {
        Wanted::Either
    }
}
