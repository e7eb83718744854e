//! Rows of text, made by threads and written in order from a bounded room.
//!
//! Rows that are to be written are cut into parts. Workers make the parts, each on a sheet of its own, and
//! leave them at seats. The caller writes them in order, and makes parts too while the next one is not there.
//! All sheets are taken before the first byte is written: the room is bounded however many rows there are.
//! Nobody waits for another. A worker whose seat stays full ends, since the writer is slow; a part that stays
//! away is made by the caller; and if several do, the caller starts the workers anew. Small parts are
//! gathered: a write has 64 KiB or more, except the last, or as many bytes as a part of the longest rows if
//! fewer.
//!
//! # Example
//!
//! ```text
//! // A thousand empty lines.
//! struct Lines;
//!
//! impl Rows for Lines {
//!     ghost rows = { λ _. replicate 1000 (10 ∷ []) };
//!     ghost longest = { λ _. 1 };
//!
//!     fn len(&self) -> usize {
//!         1000
//!     }
//!
//!     fn longest_row(&self) -> usize {
//!         1
//!     }
//!
//!     fn fill(&self, from: usize, to: usize, sheet: &mut Sheet) {
//!         for _ in from..to {
//!             sheet.push(b"\n");
//!         }
//!     }
//! }
//!
//! write_rows(&rt, alloc, &Lines, 4, 256, &mut writer)?;
//! ```
//!
//! # What there is
//!
//! - [`write_rows`]: writes all rows of a list, by up to 256 workers, in parts of a given number of rows.
//! - [`Rows`]: a list of rows, which can spell those from one number up to another.
//! - [`Sheet`]: room for a fixed number of rows, into which they are spelled. It takes no memory after it is
//!   made.
//! - [`Sink`]: where the bytes go. [`write_all`] writes whole bytes to it.
//! - [`RowsError`]: `OutOfMemory`, before the first byte, or `Write`.
//!
//! # What callers may rely on
//!
//! - If [`write_rows`] answers `Ok`, the text that was written is the rows in order: for every list, any
//!   number of workers, and whatever the threads do.
//! - After the first byte nothing but the writer can be refused. If memory is refused, the writer is as it
//!   was. If the writer fails, it has a beginning of the rows' text: the rows of some parts and a part of the
//!   next.
//! - The call returns if those of the rows and of the writer do. No thread outlives it. A thread that the
//!   system refuses is done without.
//!
//! # What it leaves to others
//!
//! No contract can say that the threads run at the same time. The tests in `rds_tests` show it, by many runs
//! with writers that fail.
#![tactic(auto)]

// In the order of reading: the rows and their sink, how they are written, and the seats at which the workers
// meet.
mod rows; // A list of rows that can be spelled.
mod sheet; // Room for some of them.
mod sink; // Where the bytes go.
mod write; // All rows of a list, written.
mod rounds; // Part by part, in rounds.
mod handoff; // Where they meet.
mod slot; // A sheet for one part, under a lock.
mod gathered; // Parts that are gathered to larger writes.
mod owned_sink; // A writer that is handed in and back.
mod error; // Why rows are not written.

pub use error::RowsError;
pub use rows::Rows;
pub use sheet::Sheet;
pub use sink::{Failed, Sink, write_all};
pub use write::write_rows;
