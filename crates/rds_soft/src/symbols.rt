//! How the symbols of a window are read as a block.
ghost use Rattle.std.specs.Prelude.{◌≡◌, ◌^◌, ◌<◌, length, bit_xor};
ghost use Rattle.rds_code.specs.{Offsets.offset_of as the_offset_of, Remainder.rem};
ghost use Rattle.rds_soft.specs.{ReadAgain.own_of, Symbols.sign, Symbols.confidences as the_confidences, Symbols.hard_window as the_hard_window};

use crate::correction::Correction;
use crate::laws::symbols_are_read_so;
use crate::lightest::SYMBOLS;
use crate::margin::Margin;
use crate::nearest::Search;
use crate::soft_reading::{SoftReading, mask_of};
use rds_code::{BlockNumber, Offset, Wanted, offset_of, rem26};

impl Search {
    ghost use Rattle.rds_soft.specs.{ReadAgain.soft_reading, Symbols.IsSoftReading};

    /// Reads 27 symbols, signed bytes from the one before the window on, as block `number`. A valid window stays as it is;
    /// else it is corrected to the nearest block, or lost if there is none.
    pub fn read(
        &mut self,
        symbols: &[i8; 27],
        number: BlockNumber,
        wanted: Wanted,
        margin: Margin,
    ) -> SoftReading
        ensures rule { IsSoftReading symbols.now number wanted margin result }
        ensures value { result ≡ soft_reading symbols.now number wanted margin }
    {
        symbols_are_read_so();
        prove!(number.get() <= 4);
        prove!(margin.weight() <= 127);
        self.computed(symbols, number, wanted, margin)
    }

    /// The same, as it is computed.
    #[tactic(auto, using(crate::proofs::ReadAgainLaws::inverted), unfolding(crate::specs::ReadAgain::soft_reading))]
    fn computed(
        &mut self,
        symbols: &[i8; 27],
        number: BlockNumber,
        wanted: Wanted,
        margin: Margin,
    ) -> SoftReading
        ensures { result ≡ soft_reading symbols.now number wanted margin }
    {
        let w = hard_window(symbols);
        if let Some(offset) = own_offset(w, number) {
            return SoftReading::Valid {
                offset,
                info: (w >> 10) as u16,
            };
        }
        match self.correction(w, &confidences(symbols), number, wanted, margin) {
            Some(Correction { offset, flips }) => SoftReading::Corrected {
                offset,
                info: ((w ^ mask_of(flips)) >> 10) as u16,
                flips,
            },
            None => SoftReading::Lost,
        }
    }
}

/// The window of 27 symbols: a bit is 1 if the signs of the symbols beside it differ.
fn hard_window(symbols: &[i8; 27]) -> u32
    ensures value { result ≡ the_hard_window symbols.now }
    ensures block { result < 2 ^ 26 }
{
    let mut w = 0;
    for i in 0..SYMBOLS - 1 {
        w = 2 * w + bit_between(symbols[i], symbols[i + 1]);
    }
    w
}

/// The bit between two symbols in a row.
#[inline(always)]
fn bit_between(before: i8, after: i8) -> u32
    ensures value { result ≡ bit_xor (sign before) (sign after) }
    ensures digit { result < 2 }
{
    u32::from(before.is_positive()) ^ u32::from(after.is_positive())
}

/// The confidences of 27 symbols.
fn confidences(symbols: &[i8; 27]) -> [u8; 27]
    ensures { result ≡ the_confidences symbols.now }
{
    let mut confidences = [0; 27];
    for i in 0..SYMBOLS {
        confidences[i] = symbols[i].unsigned_abs().min(127);
    }
    confidences
}

/// The offset of block `number` with which the window is valid.
fn own_offset(w: u32, number: BlockNumber) -> Option<Offset>
    requires { w < 2 ^ 26 }
    ensures { result ≡ own_of (the_offset_of (rem w)) number }
{
    match offset_of(rem26(w)) {
        Some(offset) if offset.number() == number => Some(offset),
        _ => None,
    }
}
