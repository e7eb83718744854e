//! The rows of a scan, which can be spelled from any place on.
ghost use Rattle.std.specs.Prelude.{◌*◌, ◌+◌, ◌++◌, ◌≡◌, ◌≤◌, length};
ghost use Rattle.rds_rows.specs.Sheets.{left_of, size_of, text_of};
ghost use Rattle.rds_tool.specs.Inside.Rows.{rows_of_places};

use crate::page::{LONGEST_ROW, Page};
use rds_rows::{Rows, Sheet};
use rds_stream::{Recording, ValidWindows};

/// How many bytes the row of a window has at most: a place, an offset and what parts them.
const LONGEST_WINDOW: usize = 32;

/// The rows of the valid windows of a recording: row i is that of the window at place i, if it is valid, and
/// else it has no byte. So the rows from one number up to another are those of the windows at these places.
#[derive(Drop)]
pub struct WindowRows<'a> {
    pub recording: &'a Recording,
}

impl Rows for WindowRows<'_> {
    ghost rows = { λ rows. rows_of_places rows.recording.now };

    ghost longest = { λ rows. 32 };

    fn len(&self) -> usize {
        self.recording.len() as usize
    }

    fn longest_row(&self) -> usize {
        LONGEST_WINDOW
    }

    fn fill(&self, from: usize, to: usize, sheet: &mut Sheet) {
        let (mut page, mut count) = (Page::blank(), 0);
        for window in ValidWindows::new(self.recording, from as u64, to as u64) {
            count = left_after_moving(&mut page, count, sheet);
            page.push_window(window.0, window.1);
            count += 1;
        }
        sheet.push_all(count, page.as_bytes());
    }
}

/// Moves the rows of a page to the sheet if there may be no room for another. Answers how many the page has then.
#[inline(always)]
fn left_after_moving(page: &mut Page, count: usize, sheet: &mut Sheet) -> usize
    requires few { count ≤ left_of sheet.old }
    requires short { length page.old ≤ count * (size_of sheet.old).1 }
    ensures text { text_of sheet.new ++ page.new ≡ text_of sheet.old ++ page.old }
    ensures fewer { result ≤ count }
    ensures short { length page.new ≤ result * (size_of sheet.old).1 }
    ensures room { length page.new + 168 ≤ 8192 }
    ensures left { left_of sheet.new + count ≡ left_of sheet.old + result }
    ensures size { size_of sheet.new ≡ size_of sheet.old }
{
    if page.room() >= LONGEST_ROW {
        return count;
    }
    sheet.push_all(count, page.as_bytes());
    page.clear();
    0
}
