//! The decoder for C, and for any language that calls C: the same calls over only numbers.
//!
//! Arguments and results are slices and structs of numbers with C's layout. Nothing here keeps memory after a
//! call, has a state of its own, starts a thread or takes a lock. `rds_c` exports these calls.
//!
//! # What there is
//!
//! - [`totals`] and [`items`] of a recording that is handed over whole.
//! - [`run`] and [`finish_run`]: the same from range to range, by an [`RdsState`] that the caller keeps.
//! - [`push`], and [`finish`] or [`finish_with`]: a stream chunk by chunk, by an [`RdsStream`] that the caller keeps.
//! - [`push_soft`]: a stream of symbols, by an [`RdsSoft`] that the caller keeps.
//! - [`remainder`], [`correct`] and [`encode`]: single blocks and groups.
//! - [`Refusal`]: why a call is refused, with its number and name. By [`laws`] no two reasons hold at once.
//! - [`RdsTotals`], [`RdsItem`], [`RdsBlock`], [`RdsGap`], [`RdsRules`], [`RdsWords`], [`RdsPacked`]: the structs of C.
//!
//! # What callers may rely on
//!
//! - A call gives the results that `rds_sync` defines, laid out as `specs/Layout.antt` says; of a stream, those of `rds_live`.
//! - A refused call has left everything that it was lent as it was, and says which of the reasons in `specs/Asked.antt` holds.
//! - Equal states, and equal streams, are equal numbers: they may be compared, stored and hashed as the bytes that they are.
#![tactic(auto)]

// In the order of reading: the structs of C, the arguments of a call, and the calls.
mod layout; // The structs of C.
mod in_c; // Items, blocks and totals, laid out so.
mod asked; // A caller's arguments.
mod whole; // A recording that is handed over whole.
mod part; // The part of a recording that a run hears.
mod ranges; // A run from range to range.
mod stream; // A stream chunk by chunk.
mod soft; // A stream of symbols.
mod blocks; // Single blocks.
mod groups; // Groups to bytes.
mod names; // Names and the version.
mod refusal; // Why a call is refused.
pub mod laws; // The refusals exclude each other.

pub use blocks::{correct, remainder};
pub use groups::encode;
pub use layout::{
    RdsBlock, RdsGap, RdsItem, RdsPacked, RdsRules, RdsSoft, RdsState, RdsStream, RdsTotals,
    RdsWords,
};
pub use names::{VERSION, refusal_name};
pub use ranges::{finish_run, run};
pub use refusal::Refusal;
pub use soft::push_soft;
pub use stream::{check, finish, finish_with, push};
pub use whole::{items, totals};
