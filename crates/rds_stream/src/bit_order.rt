//! Bits in the order of their places, for arithmetic over many places at a time.
ghost use Rattle.std.specs.{Prelude.◌≡◌, Prelude.ℕ, Prelude.◌+◌, Prelude.◌-◌, Prelude.◌*◌, Prelude.◌/◌, Prelude.◌%◌, Prelude.◌<◌, Int.bit_at};
ghost use Rattle.rds_stream.specs.Recording.{packed_bit};

/// Ones at every other place, from the lowest on.
const EVEN_PLACES: u64 = 0x5555_5555_5555_5555;

/// Ones at every other pair of places.
const EVEN_PAIRS: u64 = 0x3333_3333_3333_3333;

/// Ones at every other four places.
const EVEN_FOURS: u64 = 0x0F0F_0F0F_0F0F_0F0F;

/// The bits of eight bytes, of each the highest first, as a word whose lowest bit is the first of them.
pub(crate) fn lowest_first(bytes: [u8; 8]) -> u64
    ensures { (k : ℕ) → k < 64 → bit_at result k ≡ packed_bit bytes k }
{
    // In each byte the halves are exchanged, in each half the pairs, and in each pair the two bits.
    let highest_first = u64::from_le_bytes(bytes);
    let by_fours = fours_swapped(highest_first);
    let by_pairs = pairs_swapped(by_fours);
    places_swapped(by_pairs)
}

/// Neighbouring places exchanged.
fn places_swapped(word: u64) -> u64
    ensures { (k : ℕ) → k < 64 → bit_at result k ≡ bit_at word (k + 1 - 2 * (k % 2)) }
{
    word >> 1 & EVEN_PLACES | (word & EVEN_PLACES) << 1
}

/// Neighbouring pairs of places exchanged.
fn pairs_swapped(word: u64) -> u64
    ensures { (k : ℕ) → k < 64 → bit_at result k ≡ bit_at word (k + 2 - 4 * (k / 2 % 2)) }
{
    word >> 2 & EVEN_PAIRS | (word & EVEN_PAIRS) << 2
}

/// Neighbouring fours of places exchanged.
fn fours_swapped(word: u64) -> u64
    ensures { (k : ℕ) → k < 64 → bit_at result k ≡ bit_at word (k + 4 - 8 * (k / 4 % 2)) }
{
    word >> 4 & EVEN_FOURS | (word & EVEN_FOURS) << 4
}
