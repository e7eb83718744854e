//! Laws of the nearest block. Each call does nothing: its contract is a law of the definitions.
ghost use Rattle.rds_soft.specs.{SoftTotals.SoftTotalsJoin, Laws.NoneTurnsValid, Laws.HasOneNearest, Laws.SureSymbolsStay, Laws.CorrectsSent, Laws.HasOneSoftReading, Laws.SymbolsAreReadSo, Laws.SymbolsHaveWindows, Laws.ReadsFromSymbols};

use rds_code::laws::{readings_follow_the_rule, remainders_are_linear};

/// A window that is valid needs no flips, which weigh nothing.
#[tactic(auto, using(crate::proofs::NearestLaws::none_turns_valid))]
pub fn valid_blocks_need_no_flips()
    ensures { NoneTurnsValid }
{}

/// At most one block is nearest, by one word of flips.
pub fn nearest_blocks_are_alone()
    ensures { HasOneNearest }
{}

/// If each symbol weighs more than the top, no window that is not valid is corrected.
pub fn sure_symbols_stay()
    ensures { SureSymbolsStay }
{}

/// A block whose wrong symbols weigh little is corrected to what was sent: less than half of the lightest other turn less the margin.
pub fn sent_blocks_are_corrected()
    ensures { CorrectsSent }
{}

/// Symbols have one reading: whoever reads them, and whatever was read before.
#[tactic(auto, using(crate::proofs::AgainLaws::has_one_soft_reading))]
pub fn symbols_are_read_alike()
    ensures { HasOneSoftReading }
{}

/// `soft_reading` computes that reading.
#[tactic(auto, using(crate::proofs::ReadAgainLaws::symbols_are_read_so))]
pub fn symbols_are_read_so()
    ensures { SymbolsAreReadSo }
{
    remainders_are_linear();
}

/// The totals of two lists, one after the other, are those of each together.
#[tactic(auto, using(crate::proofs::TotalsLemmas::soft_totals_of_append))]
pub fn soft_totals_join()
    ensures { SoftTotalsJoin }
{}

/// If a recording's bits are those of symbols, its windows are those of 27 symbols, and each block that it reads is read again as
/// its symbols are.
pub fn blocks_are_read_from_symbols()
    ensures windows { SymbolsHaveWindows }
    ensures blocks { ReadsFromSymbols }
{
    readings_follow_the_rule();
}
