//! Facts about soft decisions that a user of `rds_soft` relies on: which block is nearest, how symbols are read, and what a
//! report read again keeps.
ghost use Rattle.std.specs.Prelude.{◌≡◌, ◌≢◌, ℕ, ◌+◌, ◌-◌, ◌*◌, ◌<◌, ◌≤◌, ◌^◌, ◌++◌, None, Some, IfOk, IfSome, slice_index, IsTrue, ◌∷◌, List, [], drop, length, take, IsOkUnless, OnOk};
ghost use Rattle.rds_code.specs.{declared.offset.Offset.Offset as AnOffset, Offsets.number as number_of, Offsets.word, Remainder.rem, Reading.IsValid, Reading.allows, Reading.information, declared.reading.Wanted.Wanted as WantedHard};
ghost use Rattle.rds_soft.specs.{Nearest.Turns, Nearest.top, Nearest.weight, Symbols.hard_bit, Symbols.hard_bits, Symbols.hard_window, Symbols.IsSoftReading, declared.soft_item.SoftBlock.TheVariants.Read as SoftRead, declared.soft_item.SoftItem.SoftItem as AnItem, ReadAgain.block_again, ReadAgain.item_again, ReadAgain.reading_heard, ReadAgain.soft_reading, ReadAgain.symbols_heard, ReadAgain.symbols_of, SoftLists.item_of, SoftStream.complete, SoftStream.report_of, SoftTotals.soft_totals_of};
ghost use Rattle.rds_stream.specs.Recording.{AreGaps, length_of, reading_at};
ghost use Rattle.rds_sync.specs.declared.item.Block.TheVariants.{Read};

use rds_code::{BlockNumber, BurstLimit, Offset, RdsError, Wanted};
use rds_soft::{
    Correction, Listed, Margin, Search, SoftBlock, SoftItem, SoftList, SoftReading, SoftStream,
    SoftTotals, laws, mask_of, pack_bits,
};
use rds_stream::Recording;
use rds_sync::{Item, Rules};
use std::alloc::{AllocError, Global};
use std::thread::Threads;

/// The margins are the numbers 1 to 127.
pub fn margin_of(weight: u8) -> u8
    requires least { 1 ≤ weight }
    requires most { weight ≤ 127 }
    ensures { result ≡ weight }
{
    match Margin::new(weight) {
        Some(margin) => margin.weight(),
        None => 0,
    }
}

/// A block whose wrong symbols weigh little is corrected to what was sent, by just these symbols. No flips weigh nothing.
pub fn finds_what_was_sent(
    search: &mut Search,
    sent: u32,
    wrong: u32,
    confidences: &[u8; 27],
    number: BlockNumber,
    wanted: Wanted,
    margin: Margin,
    offset: Offset,
) -> Option<Correction>
    ghost lightest: { ℕ }
    requires block { sent < 2 ^ 26 }
    requires own { number_of offset ≡ number }
    requires allowed { IsTrue (allows wanted offset) }
    requires due { rem sent ≡ word offset }
    requires wrong { wrong < 2 ^ 27 }
    requires top { weight confidences.now wrong ≤ top }
    requires others { (p : AnOffset) (any : ℕ) → Turns sent number wanted p any → any ≢ 0 → lightest ≤ weight confidences.now any }
    requires apart { 2 * weight confidences.now wrong + margin ≤ lightest }
    ensures found { result ≡ Some (record { offset = offset; flips = wrong }) }
    ensures weightless { weight confidences.now 0 ≡ 0 }
{
    laws::valid_blocks_need_no_flips();
    laws::sent_blocks_are_corrected();
    laws::nearest_blocks_are_alone();
    let _some = margin.weight();
    search.nearest(sent ^ mask_of(wrong), confidences, number, wanted, margin)
}

/// If each symbol weighs more than the top, only a window that is valid already is found, by no flips.
pub fn nothing_is_flipped(
    search: &mut Search,
    margin: Margin,
    w: u32,
    number: BlockNumber,
    wanted: Wanted,
    confidences: &[u8; 27],
) -> Option<Correction>
    requires window { w < 2 ^ 26 }
    requires sure { (k : ℕ) → k < 27 → top < slice_index confidences.now k }
    ensures { IfSome result (λ found. found.flips ≡ 0) }
{
    laws::sure_symbols_stay();
    search.nearest(w, confidences, number, wanted, margin)
}

/// Two searches read symbols alike, and those whose window is valid as it is. The reading is the one that is computed. The information word
/// of a corrected block is known.
pub fn read_alike(
    one: &mut Search,
    other: &mut Search,
    symbols: &[i8; 27],
    number: BlockNumber,
    wanted: Wanted,
    margin: Margin,
) -> (SoftReading, SoftReading, Option<u16>)
    ensures alike { result.0 ≡ result.1 }
    ensures valid { (o : AnOffset) → IsValid (hard_window symbols.now) number o
        → result.0 ≡ SoftReading.Valid o (information (hard_window symbols.now)) }
    ensures computed { IsSoftReading symbols.now number wanted margin (soft_reading symbols.now number wanted margin) }
    ensures word { (o : AnOffset) (info flips : ℕ) → result.0 ≡ SoftReading.Corrected o info flips → result.2 ≡ Some info }
{
    laws::symbols_are_read_alike();
    laws::symbols_are_read_so();
    prove!(number.get() <= 4 && margin.weight() <= 127);
    let first = one.read(symbols, number, wanted, margin);
    let second = other.read(symbols, number, wanted, margin);
    (first, second, SoftBlock::Read(first).info())
}

/// The windows of a recording of symbols' bits are those of 27 symbols. A block that it reads is read again as its symbols are, also if its
/// bits make it valid.
pub fn read_from_symbols(
    recording: &Recording,
    symbols: &[i8],
    first: u64,
    number: BlockNumber,
    limit: BurstLimit,
    wanted: Wanted,
    margin: Margin,
) -> u32
    ghost hard: { WantedHard }
    requires bits { recording.now.bits ≡ hard_bits symbols.now }
    requires within { first + 26 < length symbols.now }
    requires short { first + 25 < length_of recording.now }
    ensures window { result ≡ hard_window (take 27 (drop first symbols.now)) }
    ensures again { block_again (symbols_heard recording.now symbols.now first) number wanted margin
        (Read (reading_at recording.now (first + 25) number hard limit))
        ≡ SoftRead (reading_heard (symbols_heard recording.now symbols.now first) number wanted margin) }
{
    laws::blocks_are_read_from_symbols();
    let _number = number.get();
    let _limit = limit.bits();
    let _bits = recording.len();
    recording.window(first + 25)
}

/// The item read again is the one that `item_again` computes.
pub fn again_as_computed(
    item: &Item,
    recording: &Recording,
    symbols: &[u8],
    margin: Margin,
    search: &mut Search,
) -> SoftItem
    ensures { result ≡ item_again recording.now (symbols_of symbols.now) margin item.now }
{
    search.read_again(recording, symbols, margin, item)
}

/// The first packed bit is that between the first two symbols.
pub fn first_packed_bit(alloc: Global, symbols: &[u8]) -> Result<u8, AllocError>
    requires { 1 < length symbols.now }
    ensures { IfOk result (λ bit. bit ≡ hard_bit (symbols_of symbols.now) 0) }
{
    let bytes = pack_bits(alloc, symbols)?;
    Ok(bytes[0] >> 7)
}

/// The totals of two items, one after the other.
pub fn totals_of_two(one: &SoftItem, other: &SoftItem) -> SoftTotals
    ensures { result ≡ soft_totals_of (one.now ∷ other.now ∷ []) }
{
    laws::soft_totals_join();
    SoftTotals::of_item(one).plus(SoftTotals::of_item(other))
}

/// The items of one more read follow those of the reads before, and change none of them. More symbols than a stream may have are not heard.
pub fn of_one_more_read<R: Threads + Sync>(
    stream: &mut SoftStream<'_>,
    rt: &R,
    alloc: Global,
    symbols: &[u8],
) -> Result<SoftList, RdsError>
    ensures heard { OnOk result ((stream.new.symbols ≡ stream.old.symbols ++ symbols.now) × (stream.new.terms ≡ stream.old.terms)) }
    ensures items { IfOk result (λ items. complete stream.old.terms (stream.old.symbols ++ symbols.now)
        ≡ complete stream.old.terms stream.old.symbols ++ items) }
    ensures too_many { 2 ^ 36 + 1 < length stream.old.symbols + length symbols.now → OnOk result ⊥ × (stream.new ≡ stream.old) }
{
    stream.take(rt, alloc, symbols)
}

/// The first item of a list that is appended follows the items before.
pub fn first_appended(list: &mut SoftList, more: &SoftList) -> Result<Option<Listed>, AllocError>
    ensures item { (one : AnItem) (rest : List AnItem) → more.now ≡ one ∷ rest
        → IfOk result (λ found. IfSome found (λ found. item_of found ≡ one)) }
    ensures none { IfOk result (λ found. found ≡ None → more.now ≡ []) }
{
    let count = list.len();
    list.append(more)?;
    if count == list.len() {
        return Ok(None);
    }
    Ok(Some(list.get(count)))
}

/// A stream of symbols that has heard none. Only memory is refused, if a recording may have the gaps.
pub fn begun<'r>(
    alloc: Global,
    rules: &'r Rules,
    gaps: &'r [(u64, u64)],
    margin: Margin,
    workers: u32,
) -> Result<SoftStream<'r>, RdsError>
    ensures begun { IfOk result (λ stream. (stream.terms ≡ record { rules = rules.now; gaps = gaps.now; margin = margin })
        × (stream.symbols ≡ [])) }
    ensures refused { AreGaps (2 ^ 36) gaps.now → IsOkUnless result RdsError.OutOfMemory }
{
    SoftStream::new(alloc, rules, gaps, margin, workers)
}

/// The totals of a stream are those of its report, read again. It gives `None` if a gap ends after its last bit.
pub fn totals_at_end(
    alloc: Global,
    stream: SoftStream<'_>,
) -> Result<Option<SoftTotals>, AllocError>
    ensures totals { IfOk result (λ totals. IfSome totals (λ totals. totals
        ≡ soft_totals_of (report_of stream.entry.terms stream.entry.symbols))) }
    ensures none { IfOk result (λ totals. totals ≡ None → AreGaps (length stream.entry.symbols - 1) stream.entry.terms.gaps → ⊥) }
{
    if !stream.may_end() {
        return Ok(None);
    }
    Ok(Some(stream.finish(alloc)?.totals))
}
