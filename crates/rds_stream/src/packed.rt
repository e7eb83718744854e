//! Packed bits with places.
ghost use Rattle.std.specs.Prelude.{◌≡◌, List, ℕ, ◌+◌, ◌*◌, ◌/◌, ◌^◌, ◌<◌, ◌≤◌, ◌-◌, ◌++◌, ◌↔◌, [], ◌∷◌, All, drop, vec_len, length, slice_index, if◌then◌else◌, bit_and};
ghost use Rattle.std.specs.Int.{bit_at};
ghost use Rattle.rds_stream.specs.Recording.{packed_bit, bits_of, window};
ghost use Rattle.rds_code.specs.declared.error.RdsError.TheVariants.{BitsPastBytes, TooLong};

use crate::bit_order::lowest_first;
use rds_code::{BLOCK_BITS, RdsError};
use std::marker::Model;

/// The most bits that a recording may hold.
pub const MOST_BITS: u64 = 1 << 36;

/// Ones in the places of a block.
const BLOCK: u32 = (1 << BLOCK_BITS) - 1;

/// The places of seven bytes.
const SEVEN_BYTES: u64 = 7 * 8;

/// Packed bits with their places from 0 on. Contracts see the list of the bits, each 0 or 1.
#[derive(Drop)]
pub(crate) struct Packed {
    bytes: Vec<u8>,
    bits: u64,
}

impl Model for Packed {
    ghost Value = { List ℕ };

    ghost view = { λ r. bits_of r.bytes.items r.bits };

    ghost invariant = { λ r. (r.bits ≤ 2 ^ 36) × (r.bits ≤ 8 * vec_len r.bytes) };
}

/// The bit at a place of packed bytes, the highest bit of a byte first.
fn bit_of(bytes: &[u8], place: u64) -> u8
    requires { place < 8 * length bytes.now }
    ensures value { result ≡ packed_bit bytes.now place }
    ensures digit { result < 2 }
{
    bytes[(place / 8) as usize] >> (7 - place % 8) & 1
}

/// The bits of eight bytes up to `place`, the last one lowest. They hold the windows of two blocks.
#[inline(always)]
fn bits_up_to(bytes: &[u8], place: u64) -> u64
    requires first { 56 ≤ place }
    requires last { place < 8 * length bytes.now }
    ensures here { (bits : ℕ) → place < bits → bit_and result (2 ^ 26 - 1) ≡ window (bits_of bytes.now bits) place }
    ensures before { (bits : ℕ) → place < bits
        → bit_and (result / 2 ^ 26) (2 ^ 26 - 1) ≡ window (bits_of bytes.now bits) (place - 26) }
{
    let last = (place / 8) as usize;
    let eight = [
        bytes[last - 7],
        bytes[last - 6],
        bytes[last - 5],
        bytes[last - 4],
        bytes[last - 3],
        bytes[last - 2],
        bytes[last - 1],
        bytes[last],
    ];
    u64::from_be_bytes(eight) >> (7 - place % 8)
}

/// The window that ends at `place`, which may have fewer than seven bytes before its own.
#[cold]
fn early_window(bytes: &[u8], place: u64) -> u32
    requires first { 25 ≤ place }
    requires last { place < 8 * length bytes.now }
    ensures value { (bits : ℕ) → place < bits → result ≡ window (bits_of bytes.now bits) place }
    ensures block { result < 2 ^ 26 }
{
    // A window takes up four bytes, or five if it begins with the last bit of one.
    let last = (place / 8) as usize;
    let four = [
        bytes[last - 3],
        bytes[last - 2],
        bytes[last - 1],
        bytes[last],
    ];
    let before = if place % 8 == 0 { bytes[last - 4] } else { 0 };
    let places = (before as u64) << 32 | u32::from_be_bytes(four) as u64;
    (places >> (7 - place % 8) & BLOCK as u64) as u32
}

/// Puts these bytes in the place of the first ones.
fn put_first(stored: &mut [u8], bytes: &[u8])
    requires { length bytes.now ≤ length stored.old }
    ensures items { stored.new ≡ bytes.now ++ drop (length bytes.now) stored.old }
    ensures len { length stored.new ≡ length stored.old }
{
    stored[..bytes.len()].copy_from_slice(bytes);
}

impl Packed {
    /// Why the bytes do not hold `bits` bits, if they do not.
    pub fn refusal(bytes: &Vec<u8>, bits: u64) -> Option<RdsError>
        ensures taken { (result ≡ None) ↔ ((bits ≤ 2 ^ 36) × (bits ≤ 8 * vec_len bytes.now)) }

        // Too many bits are refused as such, whether or not the bytes hold them.
        ensures too_long { (result ≡ Some TooLong) ↔ (2 ^ 36 < bits) }
        ensures past_bytes { (result ≡ Some BitsPastBytes)
            ↔ ((bits ≤ 2 ^ 36) × (8 * vec_len bytes.now < bits)) }
    {
        if bits > MOST_BITS {
            return Some(RdsError::TooLong);
        }
        if bits.div_ceil(8) > bytes.len() as u64 {
            return Some(RdsError::BitsPastBytes);
        }
        None
    }

    /// The first `bits` bits of the bytes, the highest bit of a byte first.
    pub fn new(bytes: Vec<u8>, bits: u64) -> Packed
        requires limit { bits ≤ 2 ^ 36 }
        requires held { bits ≤ 8 * vec_len bytes }
        ensures { result ≡ bits_of bytes.items bits }
    {
        Packed { bytes, bits }
    }

    /// The number of bits, at most 2^36.
    pub fn len(&self) -> u64
        ensures value { result ≡ length self.now }
        ensures limit { result ≤ 2 ^ 36 }
    {
        self.bits
    }

    /// Puts the bits of these bytes in the place of the first ones.
    #[tactic(auto, using(crate::proofs::Places::steps, crate::proofs::Refilling::bits_refilled))]
    pub fn refill(&mut self, bytes: &[u8])
        requires { 8 * length bytes.now ≤ length self.old }
        ensures { self.new ≡ bits_of bytes.now (8 * length bytes.now)
            ++ drop (8 * length bytes.now) self.old }
    {
        put_first(self.bytes.as_mut_slice(), bytes);
    }

    /// Whether the bit at `place`, which is below the length, is a one.
    pub fn bit(&self, place: u64) -> bool
        requires { place < length self.now }
        ensures { slice_index self.now place ≡ (if result then 1 else 0) }
    {
        bit_of(&self.bytes, place) == 1
    }

    /// The 26 bits that end at `place`, the first one highest (EN 50067:1998, 2.1). `place` is at least 25, and below
    /// the length.
    #[tactic(auto, using(crate::proofs::Places::steps))]
    pub fn window(&self, place: u64) -> u32
        requires first { 25 ≤ place }
        requires last { place < length self.now }
        ensures value { result ≡ window self.now place }
        ensures block { result < 2 ^ 26 }
    {
        let bytes = self.bytes.as_slice();
        if place < SEVEN_BYTES {
            return early_window(bytes, place);
        }
        (bits_up_to(bytes, place) & BLOCK as u64) as u32
    }

    /// The windows of two blocks in a row, of which the second ends at `place`, which is at least 51, and below the
    /// length.
    #[inline(always)]
    #[tactic(auto, using(crate::proofs::Places::steps))]
    pub fn two_windows(&self, place: u64) -> [u32; 2]
        requires first { 51 ≤ place }
        requires last { place < length self.now }
        ensures value { result ≡ window self.now (place - 26) ∷ window self.now place ∷ [] }
        ensures blocks { All (λ window. window < 2 ^ 26) result }
    {
        if place < SEVEN_BYTES {
            return [self.window(place - BLOCK_BITS as u64), self.window(place)];
        }
        let up_to = bits_up_to(self.bytes.as_slice(), place);
        [
            (up_to >> BLOCK_BITS & BLOCK as u64) as u32,
            (up_to & BLOCK as u64) as u32,
        ]
    }

    /// The bits at the 89 places from `from` on, the first one lowest, in two words of 57 places: the second begins 32
    /// places after the first, so they hold the windows at 64 places.
    #[inline(always)]
    pub fn places(&self, from: u64) -> [u64; 2]
        requires { from + 89 ≤ length self.now }
        ensures { (j k : ℕ) → j < 2 → k < 57
            → bit_at (slice_index result j) k ≡ slice_index self.now (from + (32 * j + k)) }
    {
        // Twelve bytes hold them.
        let first = (from / 8) as usize;
        let bytes = self.bytes.as_slice();
        [
            eight_bytes(bytes, first) >> (from % 8),
            eight_bytes(bytes, first + 4) >> (from % 8),
        ]
    }
}

/// The bits of the eight bytes from `first` on, the first one lowest.
#[inline(always)]
fn eight_bytes(bytes: &[u8], first: usize) -> u64
    requires { first + 8 ≤ length bytes.now }
    ensures { (k : ℕ) → k < 64 → bit_at result k ≡ packed_bit bytes.now (8 * first + k) }
{
    lowest_first([
        bytes[first],
        bytes[first + 1],
        bytes[first + 2],
        bytes[first + 3],
        bytes[first + 4],
        bytes[first + 5],
        bytes[first + 6],
        bytes[first + 7],
    ])
}
