//! Laws of the block code. Each call does nothing: its contract is a law of the definitions, whoever reads or writes.
ghost use Rattle.rds_code.specs.{Laws.HasRemainder, Laws.HasOneRemainder, Laws.IsLinear, Laws.ListsBursts, Laws.TellsBursts, Laws.BurstsHaveNonzeroRemainders, Laws.ReadsByRule, Laws.HasOneBlock, Correction.ReadsAsSent, Correction.CorrectsBurst, Correction.CorrectsThird, Correction.TakesOtherVersion, Generator.AreGeneratorAndMirror, Generator.DividesAlike, Generator.SyndromesAreRemainders, Detection.DetectsBitErrors, Detection.DetectsErrorBursts, Detection.HasOneWordPerRemainder, Detection.CountsAllCorrected, Detection.ListsAllErrorMasks, Detection.CountsAllMiscorrections};

/// Each block has one remainder, the one that is computed.
pub fn blocks_have_one_remainder()
    ensures some { HasRemainder }
    ensures one { HasOneRemainder }
{}

/// The remainder of a sum of words is the sum of their remainders.
pub fn remainders_are_linear()
    ensures { IsLinear }
{}

/// Of the 512 polynomials of degree 10 that end in 1, two have period 341 and tell all bursts of up to five bits apart: the
/// generator and its mirror (EN 50067:1998, 2.3 and Annex B).
pub fn generator_is_one_of_two()
    ensures two { AreGeneratorAndMirror 341 }
    ensures same { DividesAlike }
{}

/// The standard's syndrome of a block, from the parity-check matrix of Annex B, times x^16 is its remainder.
pub fn syndromes_are_remainders()
    ensures { SyndromesAreRemainders }
{}

/// The definition of a burst by its highest and lowest one, and the list of bursts, agree.
pub fn bursts_are_listed()
    ensures { ListsBursts }
{}

/// A remainder tells its burst of up to five bits, and shows that there is one: EN 50067:1998, Annex B.
pub fn bursts_have_their_remainders()
    ensures told { TellsBursts }
    ensures detected { BurstsHaveNonzeroRemainders }
{}

/// The rule of reading gives one reading, the one that is computed.
pub fn readings_follow_the_rule()
    ensures { ReadsByRule }
{}

/// An information word with an offset has one block, and it is read as it was sent.
pub fn blocks_are_read_as_sent()
    ensures one { HasOneBlock }
    ensures valid { ReadsAsSent }
{}

/// A block that one burst within the limit damaged is corrected. For block 3 this holds if only its own
/// offset is wanted, and except for the one burst that makes of it a valid block 3 of the other version.
pub fn damaged_blocks_are_corrected()
    ensures corrected { CorrectsBurst }
    ensures third { CorrectsThird }
    ensures but_one { TakesOtherVersion }
{}

/// One or two bit errors, and any burst of up to ten bits, are detected: EN 50067:1998, 2.3.
pub fn damage_is_detected()
    ensures bits { DetectsBitErrors 2 }
    ensures bursts { DetectsErrorBursts 10 }
{}

/// If one offset is wanted, 26, 51, 99, 191 and 367 of each 1,024 words of 26 bits are corrected, by limits of 1 to 5
/// bits. For block 3 the last is 366.
pub fn corrected_words_are_few()
    ensures alike { HasOneWordPerRemainder }
    ensures shares { CountsAllCorrected }
{}

/// How many error masks of two, three and four bit errors miscorrect a block, by limit. The tables are in `Detection`.
pub fn miscorrections_are_counted()
    ensures masks { ListsAllErrorMasks }
    ensures counts { CountsAllMiscorrections }
{}
