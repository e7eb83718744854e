//! Symbols as the packed bits between them.
ghost use Rattle.std.specs.{Prelude.◌≡◌, Prelude.◌+◌, Prelude.◌*◌, Prelude.◌-◌, Prelude.◌^◌, Prelude.◌<◌, Prelude.◌≤◌, Prelude.ℕ, Prelude.IfOk, Prelude.length, Int.bit_at, Int.cast_signed, Int.w8};
ghost use Rattle.rds_stream.specs.Recording.{packed_bit};
ghost use Rattle.rds_soft.specs.{ReadAgain.symbols_of, Symbols.hard_bit, Symbols.sign, Inside.Packed.sign_at};

use std::alloc::{AllocError, Global};
use std::simd::prelude::*;

/// The bits of symbols, whose bytes are signed, packed eight to a byte, the first one highest: one bit fewer than there are
/// symbols.
pub fn pack_bits(alloc: Global, symbols: &[u8]) -> Result<Vec<u8>, AllocError>
    ensures enough { IfOk result (λ bytes. length symbols.now ≤ 8 * length bytes.items + 1) }
    ensures bits { IfOk result (λ bytes. (i : ℕ) → i + 1 < length symbols.now
        → packed_bit bytes.items i ≡ hard_bit (symbols_of symbols.now) i) }
{
    let mut bytes = Vec::with_capacity(alloc, symbols.len() / 8 + 8)?;
    let mut left = symbols;
    while left.len() > 1 {
        bytes.extend_from_slice(&bytes_of(left))?;
        left = &left[left.len().min(64)..];
    }
    Ok(bytes)
}

/// The bits between the first 65 symbols, or fewer.
#[inline(always)]
fn bytes_of(symbols: &[u8]) -> [u8; 8]
    ensures { (i : ℕ) → i < 64 → i + 1 < length symbols.now → packed_bit result i ≡ hard_bit (symbols_of symbols.now) i }
{
    match symbols.first_chunk() {
        Some(chunk) => bytes_between(chunk),
        None => last_bytes(symbols),
    }
}

/// The same of fewer than 65 symbols.
#[inline(never)]
fn last_bytes(symbols: &[u8]) -> [u8; 8]
    requires { length symbols.now < 65 }
    ensures { (i : ℕ) → i < 64 → i + 1 < length symbols.now → packed_bit result i ≡ hard_bit (symbols_of symbols.now) i }
{
    let mut chunk = [0; 65];
    for i in 0..symbols.len() {
        chunk[i] = symbols[i];
    }
    bytes_between(&chunk)
}

/// The 64 bits between 65 symbols, packed eight to a byte, the first one highest.
#[inline(always)]
fn bytes_between(symbols: &[u8; 65]) -> [u8; 8]
    ensures { (i : ℕ) → i < 64 → packed_bit result i ≡ hard_bit (symbols_of symbols.now) i }
{
    let high = half_signs(symbols, 0);
    let low = half_signs(symbols, 32);
    let signs = high * 0x1_0000_0000 + low;
    // The same, one symbol later.
    let next = signs % 0x8000_0000_0000_0000 * 2 + sign_of(symbols[64]);
    (signs ^ next).to_be_bytes()
}

/// The signs of 32 symbols from one on, the first one highest.
#[inline(always)]
fn half_signs(symbols: &[u8], from: usize) -> u64
    requires { from + 32 ≤ length symbols.now }
    ensures each { (k : ℕ) → k < 32 → bit_at result (31 - k) ≡ sign_at symbols.now (from + k) }
    ensures small { result < 2 ^ 32 }
{
    let high = signs_from(symbols, from);
    let low = signs_from(symbols, from + 16);
    high % 0x1_0000 * 0x1_0000 + low % 0x1_0000
}

/// The sign of a symbol.
#[inline(always)]
fn sign_of(symbol: u8) -> u64
    ensures value { result ≡ sign (cast_signed w8 symbol) }
    ensures digit { result < 2 }
{
    u64::from(symbol.cast_signed().is_positive())
}

/// The signs of sixteen symbols from one on, the first one highest.
#[inline(always)]
fn signs_from(symbols: &[u8], from: usize) -> u64
    requires { from + 16 ≤ length symbols.now }
    ensures { (k : ℕ) → k < 16 → bit_at result (15 - k) ≡ sign_at symbols.now (from + k) }
{
    let lanes = u8x16::from_slice(&symbols[from..]);
    let last_first = lanes.swizzle([15, 14, 13, 12, 11, 10, 9, 8, 7, 6, 5, 4, 3, 2, 1, 0]);
    // A signed byte is above 0 if one less is below 127: 0 gives 255.
    (last_first - u8x16::splat(1))
        .simd_lt(u8x16::splat(127))
        .to_bitmask()
}
