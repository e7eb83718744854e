//! Decoding in pieces. A recording is cut, and each piece is decoded as if nothing came before it: this is its *guess*.
//! The guesses are joined into the report of one decoder that reads from the first bit.
//!
//! A guess begins with a search, so its first items may be wrong. The run from the bits before continues over the
//! piece, beside the guess. They *meet* when both are in one state with no group in progress. From there on the guess
//! is right.
//!
//! The standard speaks of one receiver that reads from the first bit. All rules of pieces are this project's.
//!
//! # Example
//!
//! ```text
//! let cutting = Cutting::even(alloc, recording.len(), 2)?;
//! let mut runs = Vec::new(alloc);
//! for j in 0..cutting.pieces() {
//!     runs.push(speculate(alloc, &recording, &rules, &cutting, j)?)?;
//! }
//! let mut tape = Counted::new(&recording);
//! let report = stitch(alloc, &mut tape, &rules, runs.as_slice())?;
//! // The report that decode_plain gives.
//! ```
//!
//! Two neighbouring runs can be joined before they are stitched:
//!
//! ```text
//! let left = speculate(alloc, &recording, &rules, &cutting, 0)?;
//! let right = speculate(alloc, &recording, &rules, &cutting, 1)?;
//! let mut tape = Counted::new(&recording);
//! // The guess of both pieces. Both runs are only lent.
//! let both = join_runs(alloc, &mut tape, &rules, &left, &right)?;
//! ```
//!
//! # Contents
//!
//! - [`Cutting`]: the places at which a recording is cut.
//! - [`speculate`]: returns the guess of a piece, a [`PieceRun`]. The run begins with a search. It keeps the totals, the
//!   end state and the spans of the items, which are decoded when recording and rules are lent again.
//! - [`Marks`]: the marks of a guess, in order. A [`Mark`] is its first place, or the place after a bit that gave an
//!   item. Two runs meet first at a mark of one of them.
//! - [`seam`]: continues the run from the bits before over a piece, until it meets the guess. From there on the items
//!   are the guess's, and nothing more is read. It returns a [`Seam`].
//! - [`join_runs`]: joins two neighbouring runs into the guess of both ranges, by a seam from the end state of the left
//!   one. So any number of runs can be joined two by two, neighbours in any order.
//! - [`stitch`]: makes the report from consecutive runs that cover the recording, by a seam over each.
//! - [`Work`] and [`RecordingWork`]: these calls for one recording, one set of rules and one cutting.
//! - [`laws`]: the laws of pieces themselves.
//! - [`RdsError`](rds_code::RdsError): the refusals `BadCutting` (6) and `OutOfMemory` (8).
//!
//! # Promises
//!
//! - A [`PieceRun`], also a joined one, is the guess of its range for the recording and the rules that it names. It
//!   borrows nothing and holds nothing of the recording.
//! - A seam gives the items, their totals and the end state of the run from the state that it is given. It tells the
//!   place at which this run met the guess, if they met. It reads at most (reach + 2)(d + 1) windows; d is the number of
//!   bits up to the meeting, or to the piece's end if they do not meet. A join reads no more than its seam.
//! - The stitched report is that of [`decode_plain`](rds_sync::decode_plain), items and totals. Runs that are stitched
//!   or joined may be empty.
//! - If a piece has a sound range, the run meets its guess by the end of that range. Otherwise no meeting is promised. A
//!   guess that locks at a false phase may never be met, and then a seam or a join reads its whole piece.
//! - A run takes memory for its spans, each of some hundred items. A seam and a join copy those that they take over.
//!
//! # Left to others
//!
//! The crates above decide which thread runs which piece and join. They are lent a [`Work`], which is their only way to
//! the bits. The report's items are decoded when recording and rules are lent again: see [`Items`](rds_sync::Items).
#![tactic(auto)]

// In the order of reading: a piece and its guess, the way along a guess, and its uses.
mod cutting; // Where a recording is cut.
mod run; // The guess of a range of places, and how a piece is guessed.
mod beside; // A run and its guess, side by side.
mod mark; // One mark of a run.
mod marks; // The marks of a guess, one after the other.
mod seams; // The items and totals of a piece, from the state before it.
mod seaming; // `seam`: how the state before a piece runs over it.
mod joining; // Two neighbours joined.
mod stitching; // The report of runs in a row.
mod work; // The calls above for one recording, one set of rules and one cutting.
pub mod laws; // The laws of pieces themselves.

pub use cutting::Cutting;
pub use joining::join_runs;
pub use mark::Mark;
pub use marks::Marks;
pub use run::{PieceRun, speculate};
pub use seaming::seam;
pub use seams::Seam;
pub use stitching::stitch;
pub use work::{RecordingWork, Work};
