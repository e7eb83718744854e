//! Soft decisions: blocks that are corrected by how sure each symbol is.
//!
//! A bit of RDS tells whether two symbols in a row differ in sign, and a demodulator knows how sure it is of each symbol. A block
//! of 26 bits has 27 symbols. The nearest block is found by the flips of symbols that weigh least, where a symbol weighs as much
//! as it is sure: a log-likelihood ratio in units of 1/16 nat. It is taken only if the flips weigh at most 127, and all other
//! flips that make a block weigh more by a margin. This is this project's rule, not the standard's.
//!
//! # Example
//!
//! ```text
//! let mut search = Search::new(alloc)?;
//! let reading = search.read(&symbols, BlockNumber::FOUR, Wanted::Either, Margin::DEFAULT);
//! // Corrected { offset: D, info: 0x5320, flips: 0x100 }: one wrong symbol, whose flip inverts the bits of mask_of(0x100), 0x180
//! ```
//!
//! # What there is
//!
//! - [`Search`]: room for searches.
//! - [`Search::nearest`]: the nearest block of a window, or none. [`Correction`]: its offset, and the flips that make it.
//! - [`Margin`]: how much more all other flips must weigh.
//! - [`Search::read`]: 27 symbols, read as a block, a [`SoftReading`]: valid, corrected or lost. [`mask_of`]: the bits that flips
//!   invert.
//! - [`Search::read_again`]: an item of a report, read again from the symbols of its recording, a [`SoftItem`].
//! - [`SoftStream`]: a stream of symbols, heard as it comes. [`SoftStream::take`] gives the items that the next symbols complete, a
//!   [`SoftList`], and [`SoftStream::finish`] a [`SoftEnd`]: the group in progress, and the totals.
//! - [`SoftList`]: items in little room. [`SoftList::get`] gives one as it is kept, a [`Listed`]: a [`ValidGroup`], or any other item.
//! - [`pack_bits`]: the packed bits of symbols. [`SoftTotals`]: the totals of items that were read again.
//! - [`laws`]: at most one block is nearest, which blocks are corrected to what was sent, and that items are read again in one way.
//!
//! # What callers may rely on
//!
//! The result is the definition's, exactly (`specs/Nearest.antt`, `specs/Symbols.antt`, `specs/ReadAgain.antt`): if there is a nearest
//! block it is found, and nothing else is. A valid block stays as it is, and so do acquisitions and losses. Each item is read again
//! by itself, so any part of a report may be read again by any worker. A search takes no memory. [`Search::new`] takes 27,648 bytes
//! once, and fails only with `OutOfMemory` (8).
//!
//! # What it leaves to others
//!
//! The report of the bits of symbols: when a receiver is in sync follows from the hard bits alone. What the
//! confidence of a symbol is.
#![tactic(auto)]

// In the order of reading: the result, the search by rows of least weights, the nearest block, and its laws.
mod correction; // A block by flips of symbols.
mod margin; // How much more others must weigh.
mod lightest; // The rows of least weights.
mod look_back; // The lightest flips, from these rows.
mod nearest; // The nearest block.
mod soft_reading; // What symbols may say.
mod symbols; // How symbols are read.
mod soft_item; // Items as symbols tell them.
mod again; // Items read again.
mod soft_totals; // Their totals.
mod pack; // Symbols as the bits between them.
mod near; // The part of a stream that is known.
mod soft_list; // Items in little room.
mod reading_again; // Items read again by several threads.
mod soft_stream; // A stream of symbols.
pub mod laws; // The laws of the nearest block.

pub use correction::Correction;
pub use margin::Margin;
pub use nearest::Search;
pub use pack::pack_bits;
pub use soft_item::{SoftBlock, SoftGroup, SoftItem};
pub use soft_list::{Listed, SoftList, ValidGroup};
pub use soft_reading::{SoftReading, mask_of};
pub use soft_stream::{SoftEnd, SoftStream};
pub use soft_totals::SoftTotals;
