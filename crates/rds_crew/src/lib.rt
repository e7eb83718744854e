//! The report of one decoder, made by a crew of workers.
//!
//! A recording is cut into pieces, and each piece is guessed by a worker that knows nothing of the bits
//! before it. The guesses are then put in the order of their pieces, and neighbours are joined, level by
//! level, until one run is left: that of the whole recording, which is made into the report that one decoder
//! gives, reading from the first bit. A [`Work`](rds_pieces::Work) says what a piece is, how it is guessed,
//! how two runs are joined and how a run becomes a report. This crate deals the pieces out, and then the
//! joins of each level, and waits for its workers. It puts their results in order, and the runs of a level
//! together: they are moved up, and none is copied.
//!
//! # Example
//!
//! ```text
//! let cutting = Cutting::even(alloc, recording.len(), 16)?;
//! let work = RecordingWork::new(&recording, &rules, &cutting);
//! let report = decode_crew(&rt, alloc, &work, 4, &OpenGate)?;
//! ```
//!
//! Pieces and joins are drawn from a [`Dealer`], which other work can be drawn from too:
//!
//! ```text
//! // A dealer of one number, and a seat for each thread.
//! let (dealer, mut seats) = Dealer::new(alloc, 1, 1)?;
//! let Some(seat) = seats.pop() else { unreachable!() };
//! let (number, seat) = dealer.draw(seat); // Some(0): the seat holds it
//! let seat = dealer.finish(seat, 0);
//! let (none, seat) = dealer.draw(seat); // None: it has ended
//! seats.push(seat)?;
//! let closed = dealer.close(seats); // all drawn once, all finished
//! ```
//!
//! # What there is
//!
//! - [`decode_crew`]: the report of a work, by up to [`MOST_WORKERS`] workers.
//! - [`Gate`]: the calls of the workers round each piece and each join, by which a caller watches them or
//!   holds them up. [`OpenGate`] does nothing.
//! - [`Dealer`]: deals each number below some count once, to as many [`Seat`]s as it was made with, at most
//!   256, and takes no lock. [`Closed`] has its final counts.
//! - [`RdsError`](rds_code::RdsError): the refusals `CrewRange` (7), `OutOfMemory` (8) and `NoWorker` (14), which is never answered.
//!
//! # What callers may rely on
//!
//! - If [`decode_crew`] answers a report, it is that of the work's recording and rules. That holds for any
//!   cutting and any number of workers, in whatever order they drew and ended. It is lent no recording: bits
//!   reach it only by the work.
//! - It refuses a number of workers outside 1 to 256 exactly as [`rds_code::RdsError::CrewRange`], and else only
//!   [`rds_code::RdsError::OutOfMemory`]. If the system starts no thread, the calling thread does its work.
//! - It returns if the calls of the work and of the gate do. No thread that it started outlives the call.
//! - A dealer deals no number twice and leaves none out, in whatever order the steps of any threads
//!   fall. No call of it waits, tries again, or takes memory once it is made.
//!
//! # What it leaves to others
//!
//! That memory is there, that the calls of the work and of the gate return, and which worker draws what and
//! ends first. No contract can say that the workers run at the same time, at pieces and at
//! joins, or that neighbours are joined level by level. Nor can one say that the report is made of their runs
//! and of no others. The tests in `rds_tests` show it: by a [`Gate`] that holds one worker up until the other
//! has begun, and one that notes which runs each join is made of.
#![tactic(auto)]

// In the order of reading: the report of a crew, the parts that its workers draw, and the dealer that they
// draw from.
mod crew; // The report, from the guesses to the run that is left.
mod gate; // Calls by which a caller hears of the workers.
mod parts; // Work in numbered parts, of which there are two kinds.
mod guesses; // The pieces of a work, as parts.
mod joins; // The joins of one level, as parts.
mod tree; // The levels of joins, up to one run.
mod team; // All parts of a work, made by workers.
mod drawing; // The parts that one worker draws and makes.
mod slots; // The parts that were made, in the order of their numbers.
mod dealer; // Who deals the numbers.
mod seat; // The right of a worker to draw.
mod deal; // The invariant of the dealer's table: the rule of its two words.

pub use crew::{MOST_WORKERS, decode_crew};
pub use dealer::{Closed, Dealer};
pub use gate::{Gate, OpenGate};
pub use seat::Seat;
