//! The text of a listing.
ghost use Rattle.std.specs.Prelude.{◌+◌, ◌++◌, ◌-◌, ◌≡◌, ◌≤◌, All, IfOk, IsOkUnless, OnOk, drop, length, map, take};
ghost use Rattle.std.specs.List.{flat_map};
ghost use Rattle.rds_rows.specs.Sheets.{left_of, size_of, text_of};
ghost use Rattle.rds_tool.specs.{Listing.item_row, Listing.total_row, Listing.totals_text, Inside.RowWriter.IsPlain, Inside.RowWriter.IsShort};

use crate::rows::RowWriter;
use crate::totals::totals_with_names;
use rds_code::RdsError;
use rds_rows::Sheet;
use rds_stream::Recording;
use rds_sync::{IndexedItems, Item, ItemIter, Rules, Totals};
use std::alloc::{AllocError, Global};

/// The source of items: the recording that they name, and the rules.
#[derive(Clone, Copy)]
pub struct Heard<'a> {
    pub recording: &'a Recording,
    pub rules: &'a Rules,
}

impl<'a> Heard<'a> {
    /// The items from one number up to another.
    pub fn range(self, items: &IndexedItems<'a>, from: usize, to: usize) -> ItemIter<'a>
        requires order { from ≤ to }
        requires inside { to ≤ length items.now.list }
        requires source { items.now.source ≡ self.recording.now }
        requires rules { items.now.rules ≡ self.rules.now }
        ensures { result ≡ take (to - from) (drop from items.now.list) }
    {
        items.range(self.recording, self.rules, from, to)
    }
}

/// Adds the rows of these items to a sheet, page by page.
#[tactic(auto, using(crate::proofs::Spelled::row_steps))]
pub fn fill_items(rows: &mut RowWriter, items: &[Item], sheet: &mut Sheet)
    requires room { length items.now ≤ left_of sheet.old }
    requires longest { (size_of sheet.old).1 ≡ 168 }
    ensures rows { text_of sheet.new ≡ text_of sheet.old ++ flat_map item_row items.now }
    ensures left { left_of sheet.new + length items.now ≡ left_of sheet.old }
    ensures size { size_of sheet.new ≡ size_of sheet.old }
{
    let mut left = items;
    while !left.is_empty() {
        let count = rows.write_items(left);
        sheet.push_all(count, rows.as_bytes());
        left = &left[count..];
    }
}

/// Adds the rows of these totals to a sheet.
pub fn fill_totals(rows: &mut RowWriter, totals: &[(&'static str, u64)], sheet: &mut Sheet)
    requires few { length totals.now ≤ 12 }
    requires plain { All (λ total. IsPlain total.0.now) totals.now }
    requires short { All (λ total. IsShort total.0.now) totals.now }
    requires room { length totals.now ≤ left_of sheet.old }
    requires longest { (size_of sheet.old).1 ≡ 168 }
    ensures rows { text_of sheet.new ≡ text_of sheet.old
        ++ flat_map total_row (map (λ total. (total.0.now, total.1)) totals.now) }
    ensures left { left_of sheet.new + length totals.now ≡ left_of sheet.old }
    ensures size { size_of sheet.new ≡ size_of sheet.old }
{
    rows.write_totals(totals);
    sheet.push_all(totals.len(), rows.as_bytes());
}

/// Appends the rows of these items, page by page.
#[tactic(auto, using(crate::proofs::Spelled::row_steps))]
pub fn push_items(
    rows: &mut RowWriter,
    text: &mut Vec<u8>,
    items: &[Item],
) -> Result<(), AllocError>
    ensures { OnOk result (text.new.items ≡ text.old.items ++ flat_map item_row items.now) }
{
    let mut left = items;
    while !left.is_empty() {
        let count = rows.write_items(left);
        text.extend_from_slice(rows.as_bytes())?;
        left = &left[count..];
    }
    Ok(())
}

/// Appends the rows of all totals.
pub fn push_totals(
    rows: &mut RowWriter,
    text: &mut Vec<u8>,
    totals: &Totals,
) -> Result<(), RdsError>
    ensures rows { OnOk result (text.new.items ≡ text.old.items ++ totals_text totals.now) }
    ensures refused { IsOkUnless result RdsError.OutOfMemory }
{
    rows.write_totals(totals_with_names(totals).as_slice());
    Ok(text.extend_from_slice(rows.as_bytes())?)
}

/// The rows of all totals.
pub fn totals_rows(alloc: Global, totals: &Totals) -> Result<Vec<u8>, RdsError>
    ensures rows { IfOk result (λ text. text.items ≡ totals_text totals.now) }
    ensures refused { IsOkUnless result RdsError.OutOfMemory }
{
    let mut text = Vec::new(alloc);
    push_totals(&mut RowWriter::new(), &mut text, totals)?;
    Ok(text)
}
