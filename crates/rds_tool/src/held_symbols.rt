//! Symbols that are decoded while they come, and of which only the items are held.
ghost use Rattle.std.specs.{Prelude.◌++◌, Prelude.◌-◌, Prelude.◌<◌, Prelude.◌^◌, Prelude.◌≡◌, Prelude.◌≤◌, Prelude.◌⊎◌, Prelude.[], Prelude.Err, Prelude.IfErr, Prelude.IfOk, Prelude.Ok, Prelude.OnOk, Prelude.Some, Prelude.length, Prelude.if◌then◌else◌, List.flat_map, Option.unwrap_or};
ghost use Rattle.rds_soft.specs.SoftStream.{group_item};
ghost use Rattle.rds_code.specs.Refusals.{IsMemoryOrErrOf};
ghost use Rattle.rds_stream.specs.Recording.{AreGaps};
ghost use Rattle.rds_tool.specs.{Inside.HeldSymbols.most_heard as the_most_heard, Inside.HeldSymbols.text_of_held, Inside.Texts.bytes_of, Soft.soft_row, Soft.soft_totals_text};

use crate::Input;
use crate::rows::RowWriter;
use crate::soft_rows::push_soft_totals;
use crate::taker::Taker;
use crate::task::{Plan, Text};
use rds_code::RdsError;
use rds_soft::{Margin, SoftEnd, SoftItem, SoftList, SoftStream, SoftTotals};
use rds_stream::{MOST_BITS, Trace};
use std::alloc::{AllocError, Global};
use std::marker::Model;
use std::thread::Threads;

/// The items of symbols that come chunk by chunk: of those of the bits that are claimed, or of all. Contracts see the terms and the
/// symbols.
#[derive(Drop)]
pub struct HeldSymbols<'a> {
    stream: SoftStream<'a>,
    bits: Option<u64>,
    has_rows: bool,
    /// The items that are complete, if rows are listed.
    items: SoftList,
    /// How many symbols came.
    count: u64,
    symbols: Trace,
}

impl<'a> Model for HeldSymbols<'a> {
    ghost use Rattle.std.specs.Prelude.{false};
    ghost use Rattle.rds_tool.specs.Inside.HeldSymbols.{HeldOf, IsHeld};

    ghost Value = { HeldOf };

    ghost view = { λ h. record {
      terms = record {
        input = record { hex = false; bits = h.bits; gaps = h.stream.terms.gaps };
        rules = h.stream.terms.rules;
        margin = h.stream.terms.margin;
        has_rows = h.has_rows;
      };
      symbols = h.symbols.bytes;
    } };

    ghost invariant = { λ h. IsHeld h.stream h.bits h.has_rows h.items h.count h.symbols.bytes };
}

impl<'a> HeldSymbols<'a> {
    ghost use Rattle.std.specs.Prelude.{false};

    /// No symbols yet. Blocks are read by up to as many workers as the plan has. Refuses gaps that no recording may have.
    pub fn new(
        alloc: Global,
        input: &'a Input,
        plan: &'a Plan<'_>,
        margin: Margin,
        has_rows: bool,
    ) -> Result<HeldSymbols<'a>, RdsError>
        ensures new { IfOk result (λ held. held ≡ record {
          terms = record {
            input = record { hex = false; bits = input.now.bits; gaps = input.now.gaps };
            rules = plan.now.rules;
            margin = margin;
            has_rows = has_rows;
          };
          symbols = [];
        }) }
        ensures bad_gaps { result ≡ Err RdsError.BadGaps → AreGaps (2 ^ 36) input.now.gaps → ⊥ }
        ensures refused { IfErr result (λ error. (error ≡ RdsError.BadGaps) ⊎ (error ≡ RdsError.OutOfMemory)) }
    {
        let gaps = input.gaps.as_slice();
        let stream = SoftStream::new(alloc, plan.rules(), gaps, margin, plan.workers())?;
        Ok(HeldSymbols {
            stream,
            bits: input.bits,
            has_rows,
            items: SoftList::new(alloc),
            count: 0,
            symbols: Trace::new(),
        })
    }
}

/// Refuses bits that are too many, or more than there are between this number of symbols.
pub fn check_symbols(bits: Option<u64>, count: u64) -> Result<(), RdsError>
    ensures ok { OnOk result ((unwrap_or bits (count - 1) ≤ 2 ^ 36) × (unwrap_or bits (count - 1) ≤ count - 1)) }
    ensures refused { IfErr result (λ error. ((error ≡ RdsError.TooLong) × (2 ^ 36 < unwrap_or bits (count - 1)))
        ⊎ ((error ≡ RdsError.BitsPastBytes) × (unwrap_or bits (count - 1) ≤ 2 ^ 36)
        × (count - 1 < unwrap_or bits (count - 1)))) }
{
    let all = count.saturating_sub(1);
    let claimed = bits.unwrap_or(all);
    if claimed > MOST_BITS {
        Err(RdsError::TooLong)
    } else if claimed > all {
        Err(RdsError::BitsPastBytes)
    } else {
        Ok(())
    }
}

/// How many symbols count of those that come.
fn most_heard(bits: Option<u64>) -> u64
    ensures { result ≡ the_most_heard bits }
{
    match bits {
        Some(bits) => bits.min(MOST_BITS) + 1,
        None => MOST_BITS + 1,
    }
}

/// These items, and then the group in progress, if there is one.
pub fn whole_list(items: SoftList, end: &SoftEnd) -> Result<SoftList, AllocError>
    ensures { IfOk result (λ list. list ≡ items ++ group_item end.now.group) }
{
    let mut list = items;
    if let Some(group) = end.group {
        list.push(SoftItem::Group(group))?;
    }
    Ok(list)
}

/// The rows of all totals.
fn soft_totals_rows(alloc: Global, totals: &SoftTotals) -> Result<Vec<u8>, AllocError>
    ensures { IfOk result (λ text. text.items ≡ soft_totals_text totals.now) }
{
    let mut text = Vec::new(alloc);
    push_soft_totals(&mut RowWriter::new(), &mut text, totals)?;
    Ok(text)
}

impl<'t> Taker<'t> for HeldSymbols<'_> {
    ghost taken = { λ held. held.symbols };

    ghost text = { λ held. text_of_held held.terms };

    fn take<R: Threads + Sync>(
        &mut self,
        rt: &R,
        alloc: Global,
        bytes: &mut [u8],
    ) -> Result<(), AllocError> {
        let left = most_heard(self.bits) - self.stream.count();
        let room = left.min(bytes.len() as u64) as usize;
        let Ok(items) = self.stream.take(rt, alloc, &bytes[..room]) else {
            return Err(AllocError);
        };
        self.count = self.count.saturating_add(bytes.len() as u64);
        self.symbols.note(bytes);
        if !self.has_rows {
            return Ok(());
        }
        let listed = self.items.append(&items);
        self.has_rows = listed.is_ok();
        listed
    }

    fn finish<R: Threads + Sync>(self, _rt: &R, alloc: Global) -> Result<Text<'t>, RdsError> {
        check_symbols(self.bits, self.count)?;
        if !self.stream.may_end() {
            return Err(RdsError::BadGaps);
        }
        let end = self.stream.finish(alloc)?;
        Ok(text_of_end(alloc, self.has_rows, self.items, end)?)
    }
}

/// The listing of these items and the end, or only its totals.
fn text_of_end<'a>(
    alloc: Global,
    has_rows: bool,
    items: SoftList,
    end: SoftEnd,
) -> Result<Text<'a>, AllocError>
    ensures { IfOk result (λ text. bytes_of text
        ≡ (if has_rows then flat_map soft_row (items ++ group_item end.group) else []) ++ soft_totals_text end.totals) }
{
    if has_rows {
        Ok(Text::Soft(whole_list(items, &end)?, end.totals))
    } else {
        Ok(Text::Whole(soft_totals_rows(alloc, &end.totals)?))
    }
}
