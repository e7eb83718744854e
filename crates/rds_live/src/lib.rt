//! The decoder of a stream of Radio Data System bits, which takes them as they come.
//!
//! A receiver gives bits day and night. A [`StreamDecoder`] is handed each chunk of them as it arrives, of any length, and gives
//! the items that it completes; at the end it gives the group in progress and the totals. Together these are
//! the report of all that was heard, as `rds_sync` defines it. How a stream is decoded, and when an item is
//! complete, are this project's rules.
//!
//! # Example
//!
//! ```text
//! let mut live = StreamDecoder::new(alloc, &rules)?;
//! let mut items = Vec::with_capacity(alloc, MOST_ITEMS)?;
//! for chunk in chunks {
//!     let mut rest = chunk;
//!     while !rest.is_empty() {
//!         let count = live.take(rest, &mut items)?;
//!         // the items are complete now: no later bit changes them
//!         rest = &rest[count..];
//!     }
//! }
//! let end = live.finish();
//! // end.group, if a group was in progress, and end.totals, which are the report's
//! ```
//!
//! Between two chunks a decoder can be kept as numbers, and another made of them:
//!
//! ```text
//! keep(live.tail(), live.place(), live.state(), live.totals());
//! // later, maybe in another process
//! let mut live = StreamDecoder::resume(alloc, &rules, &gaps, tail, place, state, totals)?;
//! ```
//!
//! # What there is
//!
//! - [`StreamDecoder`]: a decoder of a stream: its rules and gaps, the last 30 bytes, how many bits were heard, the state after
//!   them, and the totals of the items that are complete.
//! - [`StreamDecoder::take`]: the next bytes, as many as are decoded at once, and the items that they complete, in room that the caller
//!   keeps; [`MOST_ITEMS`] is as much of it as is ever of use. [`StreamDecoder::take_all`]: a chunk of any length, and its items in a list.
//! - [`StreamEnd`]: the result of the end of a stream, by [`StreamDecoder::finish`] after a whole byte, or by
//!   [`StreamDecoder::finish_with`] at any bit.
//! - [`StreamDecoder::tail`] and [`StreamDecoder::resume`]: the bytes that a decoder has to keep beside its place, state and
//!   totals, and a decoder that is made of these. [`ResumeError`] says why it refuses.
//! - [`StreamCounter`]: a decoder whose items are only counted, by several workers. [`StreamCounter::count`] takes a chunk of any
//!   length, and [`StreamCounter::into_decoder`] is the decoder that has heard them all.
//! - [`may_have_gaps`]: the test of gaps that these make.
//! - [`run_part`], [`finish_part`], [`gaps_of_part`]: the run over a part of a stream that its caller makes, for one whose bits don't come
//!   in bytes. [`moved_on`], [`moved_back`], [`moved_end`]: a state, and the group in progress, by places counted from elsewhere.
//! - [`laws`]: a run depends only on the bits heard, and bytes in two pieces give the same as at once.
//!
//! # What callers may rely on
//!
//! - A decoder's numbers depend only on the bytes: `HasHeard` says of a [`StreamDecoder`] that these bytes lead to it.
//!   So two that were fed the same are equal, however the stream was cut.
//! - Whatever the chunks, the items given are those of the run over all bits so far, from a search on; with the group of
//!   the end they are the report's, and so are the totals.
//! - Each call promises its results for numbers that are lawful and of no stream, too: those of the run over
//!   the tail and the further bytes (`live_next`, `completed`, `group_next`).
//! - A refused call has heard nothing: the same bytes can be offered again. `take` and `StreamCounter::count`
//!   refuse only `TooLong` (5), past 2^36 bits in all, and `take_all` `OutOfMemory` (8) too.
//! - All memory that a stream needs is taken at its beginning: `take`, `finish` and `finish_with` take
//!   none. A counter takes room for 2 MiB, and memory for its threads, without which it goes on.
//! - It follows both rules of loss, and gaps that are known beforehand ([`StreamDecoder::with_gaps`]).
//! - A decoder that is made of the numbers of another is equal to that one, and so has heard the same bytes.
//!   It is refused if no stream may have its gaps, if no decoder has its numbers, or if memory is refused.
//!   The numbers of a decoder are refused only if memory is.
//! - It keeps no more of a stream than its last 30 bytes: 233 bits are enough to go on, those of a partner's window eight
//!   blocks back, since a group in progress begins later.
//!
//! # What it costs
//!
//! Windows are read from a recording. So the next bytes are copied after those that are kept, 960 at a time,
//! into a recording that was made with the decoder. The gaps of such a part are found by two binary searches
//! among those of the stream. A counter starts a thread for each 64 KiB of 2 MiB, as far as there are workers.
#![tactic(auto)]

// In the order of reading: the decoder, what it keeps, and how a part of a stream becomes a recording.
mod stream_decoder; // The decoder of a stream.
mod stream_counter; // A stream that is counted by several workers.
mod stream_lister; // A stream that is listed by several workers.
mod item_rows; // The rows that these make.
mod listed_pieces; // Bytes that are listed by pieces.
mod counted_pieces; // Bytes that are counted by pieces.
mod room; // The last bytes, and those that come after them.
mod gaps; // The gaps of a stream, and those of a part of it.
mod part; // A part of a stream, and the run over it.
mod moved; // States and items whose places are counted from elsewhere.
mod kept; // The numbers that a decoder may be made of.
pub mod laws; // The laws of following.
mod error; // Why a decoder that was kept as numbers is refused.

pub use error::ResumeError;
pub use gaps::may_have_gaps;
pub use item_rows::ItemRows;
pub use moved::{moved_back, moved_on};
pub use part::{finish_part, gaps_of_part, moved_end, run_part};
pub use stream_counter::StreamCounter;
pub use stream_decoder::{MOST_ITEMS, StreamDecoder, StreamEnd};
pub use stream_lister::StreamLister;
