//! Single blocks and groups, names and the version.

ghost use Rattle.std.specs.Prelude.{◌≡◌, ◌≢◌, ◌^◌, ◌<◌, ◌≤◌, ◌++◌, IfSome, None, drop, length, map};
ghost use Rattle.rds_code.specs.Reading.{reading};
ghost use Rattle.rds_code.specs.Remainder.{rem};
ghost use Rattle.rds_abi.specs.Asked.{RefusedBy};
ghost use Rattle.rds_abi.specs.Blocks.{RefusesCorrection, block_wanted, packed};
ghost use Rattle.rds_abi.specs.Layout.{reading_in_c};
ghost use Rattle.rds_abi.specs.Names.{IsNamed, RefusesName};
ghost use Rattle.rds_abi.specs.declared.refusal.Refusal.TheVariants.{BlockRange, SmallRoom};

use rds_abi::{RdsBlock, RdsPacked, RdsWords, VERSION, correct, encode, refusal_name, remainder};
use std::alloc::Global;

/// Writes the remainder of a word of 26 bits, and returns 0, or the number of `BlockRange`.
#[unsafe(no_mangle)]
pub extern "C" fn rds_remainder(word: u32, found: &mut u16) -> u8
    ensures found { result ≡ 0 → found.new ≡ rem word }
    ensures lawful { result ≡ 0 → word < 2 ^ 26 }
    ensures refused { result ≢ 0 → RefusedBy (λ refusal. (refusal ≡ BlockRange) × (2 ^ 26 ≤ word)) result }
    ensures untouched { result ≢ 0 → found.new ≡ found.old }
{
    match remainder(word) {
        Ok(remainder) => {
            *found = remainder;
            0
        }
        Err(refusal) => refusal.number(),
    }
}

/// Writes a word of 26 bits read as the block with this offset, corrected by up to `limit` bits, and returns 0, or the number of a refusal.
#[unsafe(no_mangle)]
pub extern "C" fn rds_correct(
    alloc: Global,
    word: u32,
    offset: u8,
    limit: u8,
    found: &mut RdsBlock,
) -> u8
    ensures found { result ≡ 0 → IfSome (block_wanted offset)
        (λ wanted. found.new ≡ reading_in_c (reading word wanted.0 wanted.1 limit)) }
    ensures lawful { result ≡ 0 → (word < 2 ^ 26) × (block_wanted offset ≢ None) × (limit ≤ 5) }
    ensures refused { result ≢ 0 → RefusedBy (RefusesCorrection word offset limit) result }
    ensures untouched { result ≢ 0 → found.new ≡ found.old }
{
    match correct(alloc, word, offset, limit) {
        Ok(block) => {
            *found = block;
            0
        }
        Err(refusal) => refusal.number(),
    }
}

/// Writes groups as they are sent to the beginning of `room`, 13 bytes each, and returns 0, or the number of `SmallRoom`.
#[unsafe(no_mangle)]
pub extern "C" fn rds_encode(groups: &[RdsWords], room: &mut [RdsPacked]) -> u8
    ensures packed { result ≡ 0 → room.new ≡ map packed groups.now ++ drop (length groups.now) room.old }
    ensures lawful { result ≡ 0 → length groups.now ≤ length room.old }
    ensures refused { result ≢ 0
        → RefusedBy (λ refusal. (refusal ≡ SmallRoom) × (length room.old < length groups.now)) result }
    ensures untouched { result ≢ 0 → room.new ≡ room.old }
{
    match encode(groups, room) {
        Ok(()) => 0,
        Err(refusal) => refusal.number(),
    }
}

/// Writes the name of the refusal of this number, followed by a 0, and returns 0, or the number of a refusal.
#[unsafe(no_mangle)]
pub extern "C" fn rds_refusal_name(number: u8, room: &mut [u8]) -> u8
    ensures named { result ≡ 0 → IsNamed number room.old room.new }
    ensures refused { result ≢ 0 → RefusedBy (RefusesName number room.old) result }
    ensures untouched { result ≢ 0 → room.new ≡ room.old }
{
    match refusal_name(number, room) {
        Ok(()) => 0,
        Err(refusal) => refusal.number(),
    }
}

/// The version of the library: 65536 times the first number, 256 times the second, and the third.
#[unsafe(no_mangle)]
pub extern "C" fn rds_version() -> u32
    ensures { result ≡ 512 }
{
    VERSION
}
