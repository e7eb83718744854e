ghost use Rattle.std.specs.Prelude.{◌≡◌, ◌^◌, ◌<◌};
ghost use Rattle.rds_soft.specs.Nearest.{mask_of as the_mask_of};

use rds_code::Offset;

/// How 27 symbols are read as a block: this project's rule.
#[derive(Clone, Copy, Debug, PartialEq, Eq)]
pub enum SoftReading {
    /// The window is a block with this offset; `info` is its information word.
    Valid {
        offset: Offset,
        info: u16,
    },
    /// The window is a block with this offset once these symbols are flipped; `info` is the information word then.
    Corrected {
        offset: Offset,
        info: u16,
        /// The symbols, a word of 27 bits, the first symbol highest.
        flips: u32,
    },
    /// The window is uncorrectable.
    Lost,
}

/// The bits of a window that flips of its symbols invert, a word of 26 bits. `flips` is a word of 27 bits, the first symbol highest;
/// higher bits are passed over.
pub fn mask_of(flips: u32) -> u32
    ensures value { result ≡ the_mask_of flips }
    ensures block { result < 2 ^ 26 }
{
    (flips ^ flips / 2) % (1 << 26)
}
