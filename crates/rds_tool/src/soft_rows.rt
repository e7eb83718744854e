//! The rows of items that were read again, and of their totals.
ghost use Rattle.std.specs.{Prelude.◌+◌, Prelude.◌++◌, Prelude.◌-◌, Prelude.◌≡◌, Prelude.◌≤◌, Prelude.IfOk, Prelude.IsOkUnless, Prelude.OnOk, Prelude.drop, Prelude.length, Prelude.take, List.flat_map};
ghost use Rattle.rds_rows.specs.Sheets.{left_of, size_of, text_of};
ghost use Rattle.rds_tool.specs.{Listing.total_row, Soft.soft_row, Soft.soft_totals_text, Inside.Rows.named_soft_totals};

use crate::listing::fill_totals;
use crate::page::LONGEST_ROW;
use crate::rows::RowWriter;
use crate::totals::{flips_with_names, totals_with_names};
use rds_rows::{Rows, RowsError, Sheet};
use rds_soft::{SoftList, SoftTotals};
use std::alloc::AllocError;

/// How many totals there are, of which the first are those of any listing.
const TOTALS: usize = 18;

const HARD: usize = 12;

/// The rows of the items of a list, and then those of these totals.
#[derive(Drop)]
pub struct SoftRows<'a> {
    items: &'a SoftList,
    totals: &'a SoftTotals,
    len: usize,
    ghost counted: { len ≡ length items.now + 18 },
}

impl<'a> SoftRows<'a> {
    ghost use Rattle.rds_tool.specs.Inside.Rows.{rows_of_soft_report};

    /// These rows. More than can be numbered are refused as if memory were refused.
    pub fn new(items: &'a SoftList, totals: &'a SoftTotals) -> Result<SoftRows<'a>, RowsError>
        ensures rows { IfOk result (λ rows. rows_of_soft_report rows.items.now rows.totals.now
            ≡ rows_of_soft_report items.now totals.now) }
        ensures refused { IsOkUnless result RowsError.OutOfMemory }
    {
        match items.len().checked_add(TOTALS) {
            Some(len) => Ok(SoftRows { items, totals, len }),
            None => Err(RowsError::OutOfMemory),
        }
    }

    /// The rows of the items from one number up to another.
    #[tactic(auto, using(crate::proofs::Spelled::row_steps))]
    fn fill_items(&self, from: usize, to: usize, sheet: &mut Sheet)
        requires order { from ≤ to }
        requires inside { to ≤ length self.now.items.now }
        requires room { to - from ≤ left_of sheet.old }
        requires longest { (size_of sheet.old).1 ≡ 168 }
        ensures rows { text_of sheet.new ≡ text_of sheet.old
            ++ flat_map soft_row (take (to - from) (drop from self.now.items.now)) }
        ensures left { left_of sheet.new + (to - from) ≡ left_of sheet.old }
        ensures size { size_of sheet.new ≡ size_of sheet.old }
    {
        let mut rows = RowWriter::new();
        let mut done = from;
        while done < to {
            let count = rows.write_listed(self.items, done, to);
            sheet.push_all(count, rows.as_bytes());
            done += count;
        }
    }

    /// The rows of the totals from one number up to another.
    fn fill_totals(&self, from: usize, to: usize, sheet: &mut Sheet)
        requires order { from ≤ to }
        requires inside { to ≤ 18 }
        requires room { to - from ≤ left_of sheet.old }
        requires longest { (size_of sheet.old).1 ≡ 168 }
        ensures rows { text_of sheet.new ≡ text_of sheet.old
            ++ flat_map total_row (take (to - from) (drop from (named_soft_totals self.now.totals.now))) }
        ensures left { left_of sheet.new + (to - from) ≡ left_of sheet.old }
        ensures size { size_of sheet.new ≡ size_of sheet.old }
    {
        let hard = totals_with_names(&self.totals.totals);
        let flips = flips_with_names(self.totals);
        let (first, last) = (from.min(HARD), to.min(HARD));
        let mut rows = RowWriter::new();
        fill_totals(&mut rows, &hard[first..last], sheet);
        fill_totals(&mut rows, &flips[from - first..to - last], sheet);
    }
}

impl Rows for SoftRows<'_> {
    ghost use Rattle.rds_tool.specs.Inside.Rows.{rows_of_soft_report};

    ghost rows = { λ rows. rows_of_soft_report rows.items.now rows.totals.now };

    ghost longest = { λ rows. 168 };

    fn len(&self) -> usize {
        self.len
    }

    fn longest_row(&self) -> usize {
        LONGEST_ROW
    }

    #[tactic(auto, using(crate::proofs::Spelled::row_steps))]
    fn fill(&self, from: usize, to: usize, sheet: &mut Sheet) {
        let items = self.items.len();
        let (first, last) = (from.min(items), to.min(items));
        self.fill_items(first, last, sheet);
        self.fill_totals(from - first, to - last, sheet);
    }
}

/// Appends the rows of the items of a list, page by page.
#[tactic(auto, using(crate::proofs::Spelled::row_steps))]
pub fn push_listed(
    rows: &mut RowWriter,
    text: &mut Vec<u8>,
    items: &SoftList,
) -> Result<(), AllocError>
    ensures { OnOk result (text.new.items ≡ text.old.items ++ flat_map soft_row items.now) }
{
    let to = items.len();
    let mut done = 0;
    while done < to {
        let count = rows.write_listed(items, done, to);
        text.extend_from_slice(rows.as_bytes())?;
        done += count;
    }
    Ok(())
}

/// Appends the rows of all totals.
pub fn push_soft_totals(
    rows: &mut RowWriter,
    text: &mut Vec<u8>,
    totals: &SoftTotals,
) -> Result<(), AllocError>
    ensures { OnOk result (text.new.items ≡ text.old.items ++ soft_totals_text totals.now) }
{
    rows.write_totals(totals_with_names(&totals.totals).as_slice());
    text.extend_from_slice(rows.as_bytes())?;
    rows.write_totals(flips_with_names(totals).as_slice());
    text.extend_from_slice(rows.as_bytes())
}
