//! The decoder for C, and for any language that calls C.
//!
//! Each function here is one of `rds_abi`'s, under the name that C calls it by. It returns 0 for `Ok`, and else the number of the refusal.
//! `rds.h` states the requirements on each pointer, who owns it, and which calls may run at once.
//!
//! # What callers may rely on
//!
//! - After 0 the results are written, and nothing else.
//! - After any other number the arguments are unchanged, except the count that a `SmallRoom` tells.
#![tactic(auto)]

// In the order of reading, as the calls of `rds_abi`.
mod whole; // A recording that is handed over whole.
mod ranges; // A run from range to range.
mod stream; // A stream chunk by chunk.
mod soft; // A stream of symbols.
mod single; // Single blocks and groups, names and the version.
