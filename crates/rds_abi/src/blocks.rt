//! Single blocks: their remainders, and their correction.

ghost use Rattle.std.specs.Prelude.{◌≡◌, ◌≢◌, ◌^◌, ◌<◌, ◌≤◌, IfErr, IfOk, IfSome, None};
ghost use Rattle.rds_code.specs.{Reading.reading, Remainder.rem};
ghost use Rattle.rds_abi.specs.{Blocks.RefusesCorrection, Blocks.block_wanted as the_block_wanted, Layout.reading_in_c, declared.refusal.Refusal.TheVariants.BlockRange};

use crate::in_c::reading_in_c;
use crate::layout::RdsBlock;
use crate::refusal::Refusal;
use rds_code::{BlockNumber, BurstLimit, BurstTable, Wanted, is_block, read_block, rem26};
use std::alloc::Global;

/// The remainder of a word of 26 bits by the generator (EN 50067:1998, 2.3 and annex B): below 1024.
///
/// Refuses `BlockRange` if the word has more bits.
pub fn remainder(word: u32) -> Result<u16, Refusal>
    ensures remainder { IfOk result (λ remainder. remainder ≡ rem word) }
    ensures lawful { IfOk result (λ _. word < 2 ^ 26) }
    ensures refused { IfErr result (λ refusal. (refusal ≡ BlockRange) × (2 ^ 26 ≤ word)) }
{
    if !is_block(word) {
        return Err(Refusal::BlockRange);
    }
    Ok(rem26(word))
}

/// The block that an offset's number asks for, and the offsets that are tried for it.
fn block_wanted(offset: u8) -> Option<(BlockNumber, Wanted)>
    ensures { result ≡ the_block_wanted offset }
{
    match offset {
        1 => Some((BlockNumber::ONE, Wanted::Either)),
        2 => Some((BlockNumber::TWO, Wanted::Either)),
        3 => Some((BlockNumber::THREE, Wanted::OnlyC)),
        4 => Some((BlockNumber::THREE, Wanted::OnlyCx)),
        5 => Some((BlockNumber::FOUR, Wanted::Either)),
        6 => Some((BlockNumber::THREE, Wanted::Either)),
        _ => None,
    }
}

/// A 26-bit word read as the block with this offset: 1 A, 2 B, 3 C, 4 C', 5 D, or 6 for C or C'. A burst of
/// up to `limit` bits, 0 to 5, is corrected if exactly one fits. A block 3 that is valid is taken as it is,
/// whichever of its two offsets was asked for: this project's rule.
///
/// Refuses `BlockRange`, then `OffsetRange`, then `BurstRange`. Otherwise it fails only if memory is refused,
/// which it takes for a table of bursts.
pub fn correct(alloc: Global, word: u32, offset: u8, limit: u8) -> Result<RdsBlock, Refusal>
    ensures block { IfOk result (λ block. IfSome (the_block_wanted offset)
        (λ wanted. block ≡ reading_in_c (reading word wanted.0 wanted.1 limit))) }
    ensures lawful { IfOk result (λ _. (word < 2 ^ 26) × (the_block_wanted offset ≢ None) × (limit ≤ 5)) }
    ensures refused { IfErr result (RefusesCorrection word offset limit) }
{
    if !is_block(word) {
        return Err(Refusal::BlockRange);
    }
    let Some((number, wanted)) = block_wanted(offset) else {
        return Err(Refusal::OffsetRange);
    };
    let Some(limit) = BurstLimit::new(u32::from(limit)) else {
        return Err(Refusal::BurstRange);
    };
    match BurstTable::new(alloc) {
        Ok(table) => Ok(reading_in_c(read_block(&table, word, number, wanted, limit))),
        Err(_) => Err(Refusal::OutOfMemory),
    }
}
