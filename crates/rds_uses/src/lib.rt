//! Proved callers of the libraries: the use of each of their claims, in plain words.
//!
//! No program runs these functions. Each is a call or a few, and is proved only from the contracts of the
//! functions that it calls. So a clause that goes, or that grows too weak for a user, is missed here, and the
//! check fails. `docs/PROOFS.md` names the caller of each claim.
//!
//! # The files
//!
//! In the order of the crates, each after those that it depends on:
//!
//! | Crate | File | Callers of |
//! |---|---|---|
//! | `rds_code` | [`code`] | remainders, offsets, bursts, blocks as they are sent and read |
//! | `rds_stream` | [`stream`] | recordings, their gaps and windows, scans, planes and tapes |
//! | `rds_sync` | [`sync`] | rules, rules of loss, lawful states, steps, runs, their items one after the other, and reports |
//! | | [`items`] | lists of items of a recording, and their totals |
//! | `rds_soft` | [`softly`] | nearest blocks, symbols read as blocks, and reports read again from symbols |
//! | `rds_live` | [`live`] | streams, chunk by chunk, also by several workers, and decoders made of any lawful numbers |
//! | `rds_abi` | [`library`] | the calls for C, and the numbers that C keeps between them |
//! | `rds_pieces` | [`pieces`] | cuttings, guesses, seams, joins, the report that is stitched of them, from bytes on |
//! | `rds_crew` | [`crew`] | the reports of crews, and numbers that are dealt to seats |
//! | `rds_tool` | [`commands`] | the command line as a job |
//! | | [`devices`] | sources and sinks over any device |
//! | | [`tool`] | the text that is written for the bytes that a reader gave, its rows, and each refusal by its cause |
//! | several | [`sent`] | laws of groups that were sent: encoded, damaged, decoded, listed |
//! | each | [`refusals`] | numbers and names, which all crates share |
//!
//! `rds_rows` has its callers in `rds_tests`.
#![tactic(auto)]

pub mod code;
pub mod commands;
pub mod crew;
pub mod devices;
pub mod items;
pub mod library;
pub mod live;
pub mod pieces;
pub mod refusals;
pub mod sent;
pub mod softly;
pub mod stream;
pub mod sync;
pub mod tool;
