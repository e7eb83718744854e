//! The rows of least weights.
ghost use Rattle.std.specs.Prelude.{◌≡◌, ℕ, ◌<◌, ◌+◌, ◌*◌, ◌/◌, ◌%◌, ◌^◌, length, slice_index, bit_xor, min};
ghost use Rattle.rds_soft.specs.Inside.{Lightest.effect as the_effect, Lightest.confidence, Rows.Follows, Rows.AreLeast, Rows.AreRows};

use rds_code::rem26;
use std::simd::prelude::*;

/// How many remainders there are.
pub(crate) const REMAINDERS: usize = 1024;

/// How many symbols a window has.
pub(crate) const SYMBOLS: usize = 27;

/// How many blocks of sixteen remainders.
const BLOCKS: usize = 64;

/// The least weights by remainder.
pub(crate) type Row = [u8; 1024];

/// Fills row n with the least weights of the flips of the last n symbols.
pub(crate) fn fill_rows(rows: &mut [Row], confidences: &[u8])
    requires rows { length rows.old ≡ 27 }
    requires symbols { length confidences.now ≡ 27 }
    ensures { AreRows the_effect (confidence confidences.now) rows.new }
{
    fill_first(&mut rows[0]);
    for n in 0..SYMBOLS - 1 {
        let mut next = rows[n + 1];
        fill_next(&mut next, &rows[n], effect(n), confidences[SYMBOLS - 1 - n]);
        rows[n + 1] = next;
    }
}

/// What the flip of a symbol, by its place from the last, adds to the remainder of its window.
#[inline(always)]
pub(crate) fn effect(n: usize) -> u16
    requires { n < 27 }
    ensures value { result ≡ the_effect n }
    ensures small { result < 1024 }
{
    let flip = 1u32 << n;
    rem26((flip ^ flip / 2) % (1 << 26))
}

/// Fills the row of no symbols.
#[tactic(auto, unfolding(crate::specs::Inside::Lightest::least))]
fn fill_first(row: &mut Row)
    ensures { (c : ℕ → ℕ) → AreLeast the_effect c 0 row.new }
{
    for sum in 0..REMAINDERS {
        row[sum] = if sum == 0 { 0 } else { 255 };
    }
}

/// Fills the row of least weights once there is one more symbol, of this effect and confidence.
///
/// Sixteen sums at a time: to add an effect permutes the blocks of sixteen, and the places in each block alike.
fn fill_next(next: &mut Row, row: &Row, effect: u16, confidence: u8)
    requires effect { effect < 1024 }
    ensures long { length next.new ≡ 1024 }
    ensures first { Follows row.now effect confidence next.new }
{
    for block in 0..BLOCKS {
        store(next, block, next_block(row, block, effect, confidence));
    }
}

/// Writes a block of the row.
#[inline(always)]
fn store(next: &mut [u8], block: usize, lanes: u8x16)
    requires room { length next.old ≡ 1024 }
    requires block { block < 64 }
    requires lanes { length lanes ≡ 16 }
    ensures long { length next.new ≡ 1024 }
    ensures here { (j : ℕ) → j < 16 → slice_index next.new (16 * block + j) ≡ slice_index lanes j }
    ensures below { (s : ℕ) → s < 16 * block → slice_index next.new s ≡ slice_index next.old s }
{
    let at = 16 * block;
    lanes.copy_to_slice(&mut next[at..]);
}

/// The least weights of a block of sums: of each the lesser of the two ways to get to it.
#[inline(always)]
fn next_block(row: &[u8], block: usize, effect: u16, confidence: u8) -> u8x16
    requires row { length row.now ≡ 1024 }
    requires block { block < 64 }
    requires effect { effect < 1024 }
    ensures long { length result ≡ 16 }
    ensures first { (j : ℕ) → j < 16 → slice_index result j
        ≡ min (slice_index row.now (16 * block + j)) (slice_index row.now (bit_xor (16 * block + j) effect) + confidence) }
{
    let kept = block_of(row, block);
    let flipped = turned(block_of(row, block ^ (effect / 16) as usize), effect);
    smaller(kept, heavier(flipped, confidence))
}

/// A block of the row.
#[inline(always)]
fn block_of(row: &[u8], block: usize) -> u8x16
    requires row { length row.now ≡ 1024 }
    requires block { block < 64 }
    ensures long { length result ≡ 16 }
    ensures each { (j : ℕ) → j < 16 → slice_index result j ≡ slice_index row.now (16 * block + j) }
{
    let at = 16 * block;
    u8x16::from_slice(&row[at..])
}

/// The block with its places turned by the lowest four bits of an effect.
#[inline(always)]
fn turned(block: u8x16, effect: u16) -> u8x16
    requires long { length block ≡ 16 }
    ensures long { length result ≡ 16 }
    ensures each { (j : ℕ) → j < 16 → slice_index result j ≡ slice_index block (bit_xor j (effect % 16)) }
{
    let mut lanes = block;
    for k in 0..4 {
        if (effect >> k) % 2 == 1 {
            lanes = exchanged(lanes, k);
        }
    }
    lanes
}

/// The block with its places turned by 2^k.
#[inline(always)]
fn exchanged(block: u8x16, k: u32) -> u8x16
    requires long { length block ≡ 16 }
    requires k { k < 4 }
    ensures long { length result ≡ 16 }
    ensures each { (j : ℕ) → j < 16 → slice_index result j ≡ slice_index block (bit_xor j (2 ^ k)) }
{
    match k {
        0 => block.swizzle([1, 0, 3, 2, 5, 4, 7, 6, 9, 8, 11, 10, 13, 12, 15, 14]),
        1 => block.swizzle([2, 3, 0, 1, 6, 7, 4, 5, 10, 11, 8, 9, 14, 15, 12, 13]),
        2 => block.swizzle([4, 5, 6, 7, 0, 1, 2, 3, 12, 13, 14, 15, 8, 9, 10, 11]),
        _ => block.swizzle([8, 9, 10, 11, 12, 13, 14, 15, 0, 1, 2, 3, 4, 5, 6, 7]),
    }
}

/// The weights with one more symbol, at most 255.
#[inline(always)]
fn heavier(weights: u8x16, confidence: u8) -> u8x16
    requires long { length weights ≡ 16 }
    ensures long { length result ≡ 16 }
    ensures each { (j : ℕ) → j < 16 → slice_index result j ≡ min (slice_index weights j + confidence) 255 }
{
    smaller(weights, u8x16::splat(255 - confidence)) + u8x16::splat(confidence)
}

/// The lesser of two weights, each.
#[inline(always)]
fn smaller(a: u8x16, b: u8x16) -> u8x16
    requires a { length a ≡ 16 }
    requires b { length b ≡ 16 }
    ensures long { length result ≡ 16 }
    ensures each { (j : ℕ) → j < 16 → slice_index result j ≡ min (slice_index a j) (slice_index b j) }
{
    a.simd_lt(b).select(a, b)
}
