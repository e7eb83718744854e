//! Facts that a user of `rds_code` relies on: remainders, offsets, bursts, and blocks as they are sent and read.
ghost use Rattle.std.specs.Prelude.{◌≡◌, ◌≢◌, ℕ, ◌+◌, ◌<◌, ◌≤◌, ◌^◌, ◌↔◌, ◌⊎◌, ◌∷◌, [], IsTrue, IfOk, IfSome, None, Some, Contains, bit_xor, codes, slice_index, true};
ghost use Rattle.std.specs.Int.{bit_at, Count.ones};
ghost use Rattle.rds_code.specs.{declared.offset.Offset.Offset as AnOffset, declared.offset.Offset.TheVariants.A, declared.offset.Offset.TheVariants.B, declared.offset.Offset.TheVariants.C, declared.offset.Offset.TheVariants.Cx, declared.offset.Offset.TheVariants.D, declared.reading.Wanted.TheVariants.OnlyCx, declared.reading.Reading.Reading as AReading, declared.reading.Reading.TheVariants.Valid, declared.reading.Reading.TheVariants.Corrected, Remainder.IsRemainder, Remainder.generator, Remainder.rem, Generator.HasPeriod, Generator.IsCandidate, Generator.TellsApart, Generator.parity_rows, Generator.remainder_by, Generator.syndrome, Generator.times_power, Offsets.number, Bursts.IsBurst, Bursts.bursts, Bursts.burst_length, Reading.FitsAlone, Reading.IsReading, Encoding.IsBlockOf, Encoding.third_offset, Correction.version_burst};

use rds_code::{
    BlockNumber, Burst, BurstLimit, BurstTable, Offset, Outcomes, RdsError, Reading, Wanted,
    encode_block, encode_group, laws, offset_of, plain, read_block, rem26,
};
use std::alloc::Global;

/// The ten bits that differ from a block by a multiple of the generator are its remainder: no others do. Each block has some. Division
/// bit by bit, and the standard's syndrome times x^16, give the same. Of the polynomials with its period, only the generator and its
/// mirror tell all bursts apart.
pub fn only_remainder(w: u32, remainder: u16) -> (u16, u16)
    requires block { w < 2 ^ 26 }
    requires remainder { IsRemainder w remainder }
    ensures only { result ≡ (remainder, remainder) }
    ensures some { (v : ℕ) → v < 2 ^ 26 → IsRemainder v (rem v) }
    ensures divided { remainder_by generator 26 w ≡ result.0 }
    ensures multiplied { times_power generator 16 (syndrome parity_rows w) ≡ result.0 }
    ensures two { (g : ℕ) → IsCandidate g → HasPeriod g 341 → TellsApart g → (g ≡ 0x5B9) ⊎ (g ≡ 0x4ED) }
{
    laws::blocks_have_one_remainder();
    laws::generator_is_one_of_two();
    laws::syndromes_are_remainders();
    (rem26(w), plain::rem26(w))
}

/// The remainder of a damaged block is that of the block as it was sent, and to it that of the damage.
pub fn remainder_of_damaged(sent: u32, damage: u32) -> bool
    requires sent { sent < 2 ^ 26 }
    requires damage { damage < 2 ^ 26 }
    ensures { result ≡ true }
{
    laws::remainders_are_linear();
    rem26(damaged(sent, damage)) == rem26(sent) ^ rem26(damage)
}

/// A block with some of its bits inverted: a block still.
pub(crate) fn damaged(sent: u32, damage: u32) -> u32
    requires sent { sent < 2 ^ 26 }
    requires damage { damage < 2 ^ 26 }
    ensures value { result ≡ bit_xor sent damage }
    ensures block { result < 2 ^ 26 }
{
    sent ^ damage
}

/// An offset is known by its word, and counted from 1 to 4. C' is printed as `Cx`.
pub fn known_by_word(offset: Offset) -> (Option<Offset>, usize, &'static str)
    ensures offset { result.0 ≡ Some offset }
    ensures index { result.1 + 1 ≡ number offset }
    ensures inside { result.1 < 4 }
    ensures name { offset ≡ Cx → result.2.now ≡ codes "Cx" }
{
    let index = (offset.number().get() - 1) as usize;
    (offset_of(offset.word()), index, offset.name())
}

/// Block 1 comes after block 4, and there is no block 5. Bursts of three bits may be corrected, and those of six may not.
pub fn number_and_limit() -> Option<(u8, u8)>
    ensures { result ≡ Some (1, 3) }
{
    if BlockNumber::new(5).is_some() || BurstLimit::new(6).is_some() {
        return None;
    }
    let next = BlockNumber::new(4)?.next();
    Some((next.get(), BurstLimit::new(3)?.bits()))
}

/// A burst leaves a remainder, by which it is told from all others, and is in the list of bursts. Its span, ones and outcome are indices
/// of tables of 5, 5 and 11.
pub fn told_apart(one: Burst, other: Burst) -> (bool, [usize; 3])
    requires { rem one ≡ rem other }
    ensures same { result.0 ≡ true }
    ensures listed { Contains (bursts 5) one }
    ensures span { (slice_index result.1 0 + 1 ≡ burst_length one) × (slice_index result.1 0 < 5) }
    ensures ones { (slice_index result.1 1 + 1 ≡ ones one) × (slice_index result.1 1 < 5) }
    ensures outcome { slice_index result.1 2 < 11 }
{
    laws::bursts_have_their_remainders();
    laws::bursts_are_listed();
    let (pattern, _other) = (one.pattern(), other.pattern());
    let span = (one.span() - 1) as usize;
    let outcome = (one.outcome() - 3) as usize;
    let indices = [span, (one.ones() - 1) as usize, outcome];
    (one == other && rem26(pattern) != 0, indices)
}

/// The table finds each burst by its remainder, within its own span.
pub fn found_again(table: &BurstTable, burst: Burst) -> Option<Burst>
    ensures { result ≡ Some burst }
{
    let limit = BurstLimit::new(u32::from(burst.span()))?;
    table.find(rem26(burst.pattern()), limit)
}

/// The remainder and the span of a burst that is found are those that were asked for. An undamaged block has none.
pub fn found_as_asked(table: &BurstTable, limit: BurstLimit, asked: u16) -> Option<(u16, u8)>
    requires { asked < 1024 }
    ensures found { IfSome result (λ found. (found.0 ≡ asked) × (found.1 ≤ limit)) }
    ensures none { asked ≡ 0 → result ≡ None }
{
    let found = table.find(asked, limit)?;
    Some((rem26(found.pattern()), found.span()))
}

/// A block that is sent is valid, by outcomes for any limit, and no other window is that block. After a block 2 with its version bit set,
/// only C' is wanted for block 3.
pub fn sent_and_told(
    outcomes: &Outcomes,
    info: u16,
    offset: Offset,
    wanted: Wanted,
    w: u32,
) -> (u8, Wanted, bool)
    ensures outcome { result.0 ≡ 1 }
    ensures wanted { offset ≡ B → bit_at info 11 ≡ 1 → result.1 ≡ OnlyCx }
    ensures block { IsTrue result.2 ↔ IsBlockOf w info offset }
{
    laws::blocks_are_read_as_sent();
    let sent = encode_block(info, offset);
    let outcome = outcomes.of_block(sent, offset.number(), wanted);
    (outcome, outcomes.wanted_after(sent), sent == w)
}

/// Outcomes keep their limit.
pub fn limit_of_outcomes(
    alloc: Global,
    table: &BurstTable,
    limit: BurstLimit,
) -> Result<BurstLimit, RdsError>
    ensures { IfOk result (λ kept. kept ≡ limit) }
{
    let outcomes = Outcomes::new(alloc, table, limit)?;
    Ok(outcomes.limit())
}

/// Block 1, 2 or 4, sent, damaged by one burst within the limit, and read: the word that was sent, and the burst. Block 3 of version A
/// likewise, if only C is wanted. One burst makes of it a valid one of version B.
pub fn damaged_and_read(
    table: &BurstTable,
    info: u16,
    offset: Offset,
    burst: Burst,
    limit: BurstLimit,
) -> (Reading, Reading, Option<Offset>)
    requires { IsBurst limit burst }
    ensures others { number offset ≢ 3 → result.0 ≡ Corrected offset info burst }
    ensures third { burst ≢ version_burst → result.1 ≡ Corrected C info burst }
    ensures that_one { burst ≡ version_burst → result.2 ≡ Some Cx }
{
    prove!(limit.bits() <= 5);
    laws::damaged_blocks_are_corrected();
    let block = damaged(encode_block(info, offset), burst.pattern());
    let third = damaged(encode_block(info, Offset::C), burst.pattern());
    (
        read_block(table, block, offset.number(), Wanted::Either, limit),
        read_block(table, third, BlockNumber::THREE, Wanted::OnlyC, limit),
        offset_of(rem26(third)),
    )
}

/// Who reads by the rule reads this: a window is corrected only if exactly one pair of an offset and a burst fits.
pub fn read_by_the_rule(
    table: &BurstTable,
    limit: BurstLimit,
    w: u32,
    number: BlockNumber,
    wanted: Wanted,
) -> Reading
    requires block { w < 2 ^ 26 }
    ensures rule { (r : AReading) → IsReading w number wanted limit r → r ≡ result }
    ensures alone { (o : AnOffset) (info e : ℕ) → result ≡ Corrected o info e → FitsAlone w number wanted limit o e }
{
    prove!(number.get() <= 4 && limit.bits() <= 5);
    laws::readings_follow_the_rule();
    read_block(table, w, number, wanted, limit)
}

/// A group that is sent and read, block by block: block 3 has C' if the version bit is set. Its last block is that of its last word.
pub fn group_sent_and_read(table: &BurstTable, words: [u16; 4], limit: BurstLimit) -> [Reading; 4]
    ensures { result ≡ Valid A (slice_index words 0) ∷ Valid B (slice_index words 1)
        ∷ Valid (third_offset (slice_index words 1)) (slice_index words 2) ∷ Valid D (slice_index words 3)
        ∷ [] }
{
    laws::blocks_are_read_as_sent();
    let [one, two, three, four] = encode_group(words);
    let is_last = four == encode_block(words[3], Offset::D);
    prove!(is_last);
    [
        read_block(table, one, BlockNumber::ONE, Wanted::Either, limit),
        read_block(table, two, BlockNumber::TWO, Wanted::Either, limit),
        read_block(table, three, BlockNumber::THREE, Wanted::Either, limit),
        read_block(table, four, BlockNumber::FOUR, Wanted::Either, limit),
    ]
}
