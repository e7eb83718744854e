//! The rows of a report, which can be spelled from any on.
ghost use Rattle.std.specs.{Prelude.◌+◌, Prelude.◌++◌, Prelude.◌-◌, Prelude.◌<◌, Prelude.◌≡◌, Prelude.◌≤◌, Prelude.IfOk, Prelude.IsOkUnless, Prelude.drop, Prelude.length, Prelude.take, Prelude.vec_capacity, List.flat_map};
ghost use Rattle.rds_rows.specs.Sheets.{left_of, size_of, text_of};
ghost use Rattle.rds_tool.specs.Listing.{item_row, named_totals, total_row};

use crate::listing::{Heard, fill_items, fill_totals};
use crate::page::LONGEST_ROW;
use crate::rows::RowWriter;
use crate::totals::totals_with_names;
use rds_rows::{Rows, RowsError, Sheet};
use rds_sync::{IndexedItems, Item, ItemIter, Report, Totals};
use std::alloc::Global;

/// How many totals there are.
const TOTALS: usize = 12;

/// How many items are decoded at once when their rows are made again.
const PART: usize = 256;

/// The rows of the items of a report, and then those of its totals.
#[derive(Drop)]
pub struct ListingRows<'a> {
    alloc: Global,
    heard: Heard<'a>,
    items: IndexedItems<'a>,
    totals: &'a Totals,
    len: usize,
    ghost source: { items.source ≡ heard.recording.now },
    ghost rules: { items.rules ≡ heard.rules.now },
    ghost counted: { len ≡ length items.list + 12 },
}

impl<'a> ListingRows<'a> {
    ghost use Rattle.rds_tool.specs.Inside.Rows.{rows_of_report};

    /// The rows of this report of the bits that were heard. Takes memory for an index of its items. More rows
    /// than can be numbered are refused as if memory were refused.
    pub fn new(
        alloc: Global,
        heard: Heard<'a>,
        report: &'a Report,
    ) -> Result<ListingRows<'a>, RowsError>
        requires source { report.now.items.source ≡ heard.recording.now }
        requires rules { report.now.items.rules ≡ heard.rules.now }
        ensures rows { IfOk result (λ rows. rows_of_report rows.items.list rows.totals.now
            ≡ rows_of_report report.now.items.list report.now.totals) }
        ensures refused { IsOkUnless result RowsError.OutOfMemory }
    {
        let Some(len) = report.items.len().checked_add(TOTALS) else {
            return Err(RowsError::OutOfMemory);
        };
        let items = report.items.indexed(alloc)?;
        Ok(ListingRows {
            alloc,
            heard,
            items,
            totals: &report.totals,
            len,
        })
    }

    /// The rows of the items from one number up to another.
    fn fill_items(&self, from: usize, to: usize, sheet: &mut Sheet)
        requires order { from ≤ to }
        requires inside { to ≤ length self.now.items.list }
        requires room { to - from ≤ left_of sheet.old }
        requires longest { (size_of sheet.old).1 ≡ 168 }
        ensures rows { text_of sheet.new ≡ text_of sheet.old
            ++ flat_map item_row (take (to - from) (drop from self.now.items.list)) }
        ensures left { left_of sheet.new + (to - from) ≡ left_of sheet.old }
        ensures size { size_of sheet.new ≡ size_of sheet.old }
    {
        let mut rows = RowWriter::new();
        let mut left = self.heard.range(&self.items, from, to);
        match Vec::with_capacity(self.alloc, PART) {
            Ok(mut part) => fill_left(&mut rows, &mut left, &mut part, sheet),
            Err(_) => fill_each(&mut rows, left, sheet),
        }
    }

    /// The rows of the totals from one number up to another.
    fn fill_totals(&self, from: usize, to: usize, sheet: &mut Sheet)
        requires order { from ≤ to }
        requires inside { to ≤ 12 }
        requires room { to - from ≤ left_of sheet.old }
        requires longest { (size_of sheet.old).1 ≡ 168 }
        ensures rows { text_of sheet.new ≡ text_of sheet.old
            ++ flat_map total_row (take (to - from) (drop from (named_totals self.now.totals.now))) }
        ensures size { size_of sheet.new ≡ size_of sheet.old }
    {
        if from == to {
            return;
        }
        let all = totals_with_names(self.totals);
        fill_totals(&mut RowWriter::new(), &all[from..to], sheet);
    }
}

/// The rows of the items that are left, some of them at a time.
fn fill_left(rows: &mut RowWriter, left: &mut ItemIter<'_>, part: &mut Vec<Item>, sheet: &mut Sheet)
    requires some { 0 < vec_capacity part.old }
    requires room { length left.old ≤ left_of sheet.old }
    requires longest { (size_of sheet.old).1 ≡ 168 }
    ensures rows { text_of sheet.new ≡ text_of sheet.old ++ flat_map item_row left.old }
    ensures left { left_of sheet.new + length left.old ≡ left_of sheet.old }
    ensures size { size_of sheet.new ≡ size_of sheet.old }
{
    'parts: loop {
        left.fill(part);
        if part.is_empty() {
            return;
        }
        fill_items(rows, part.as_slice(), sheet);
    }
}

/// The same, one by one, if there is no memory for more.
fn fill_each(rows: &mut RowWriter, left: ItemIter<'_>, sheet: &mut Sheet)
    requires room { length left ≤ left_of sheet.old }
    requires longest { (size_of sheet.old).1 ≡ 168 }
    ensures rows { text_of sheet.new ≡ text_of sheet.old ++ flat_map item_row left.entry }
    ensures left { left_of sheet.new + length left.entry ≡ left_of sheet.old }
    ensures size { size_of sheet.new ≡ size_of sheet.old }
{
    for item in left {
        fill_items(rows, [item].as_slice(), sheet);
    }
}

impl Rows for ListingRows<'_> {
    ghost use Rattle.rds_tool.specs.Inside.Rows.{rows_of_report};

    ghost rows = { λ rows. rows_of_report rows.items.list rows.totals.now };

    ghost longest = { λ rows. 168 };

    fn len(&self) -> usize {
        self.len
    }

    fn longest_row(&self) -> usize {
        LONGEST_ROW
    }

    #[tactic(auto, using(crate::proofs::Spelled::row_steps))]
    fn fill(&self, from: usize, to: usize, sheet: &mut Sheet) {
        let items = self.items.len();
        let (first, last) = (from.min(items), to.min(items));
        self.fill_items(first, last, sheet);
        self.fill_totals(from - first, to - last, sheet);
    }
}
