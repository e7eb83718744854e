//! The library of the program `rds`: words ask for a job, and a job makes text of the bytes that a reader
//! holds.
//!
//! A job lists the valid windows of a recording, the items of its report, or only the totals, or encodes
//! groups. It is told which bits the recording has and which gaps are in them. It is also told by which rules
//! it is decoded, in which pieces, and by how many workers.
//!
//! # Example
//!
//! ```text
//! let job = Job::Scan(Input { hex: true, bits: None, gaps: Vec::new(alloc) }, 4);
//! let mut reader = FromRead::new(b"00003f000019800005a00001b4".as_slice());
//! let mut writer = ToWrite::new(Vec::new(alloc));
//! transcribe(&rt, alloc, &mut reader, &mut writer, &job)?;
//! // The writer holds "25,A\n51,B\n77,C\n96,B\n103,D\n".
//! ```
//!
//! # What there is
//!
//! - [`asked_of`]: the request of a command line, a [`Job`] or to follow a stream, with the option that is
//!   ignored; or a [`CliFault`]. [`job_of`]: only the job.
//! - [`Job`], made of [`Input`], [`Settings`], [`Cuts`] and [`Loss`]: the job that is asked for.
//! - [`transcribe`]: reads all bytes of a [`Source`], works, by threads if there are pieces and workers for
//!   them, and writes the whole text to a [`Sink`]. [`transcribe_gated`] is the same with a gate, by which a
//!   caller hears of the workers.
//! - [`follow`]: the same listing of a stream, row by row as its bytes come. [`follow_soft`]: the soft listing of a stream of symbols.
//! - [`FromRead`] and [`ToWrite`]: a source and a sink of a reader and a writer of std. [`Trace`]: the bytes that
//!   one gave or took, for contracts alone.
//! - [`RdsError`](rds_code::RdsError): the refusals 1 to 16.
//!
//! # What callers may rely on
//!
//! - If `transcribe` answers `Ok`, the bytes that the writer took are the text that the job makes of the
//!   bytes that the reader gave. The reader had answered its end, and the last call of the writer was a flush
//!   that succeeded. That holds at every reader and writer. If the reader tells the bytes to come, as one
//!   over memory does, they are those. Of a `List` the text is the listing of the report of the recording,
//!   lock by lock, for every cutting and any number of workers; `specs/Outcome.antt` says it for each job.
//! - Each refusal is an [`RdsError`](rds_code::RdsError) and comes when it should: `Read` and `Write` exactly if a call of the
//!   device failed, settings out of their range before anything is read, `NoWorker` never. `TooManyTurns`
//!   comes only after 16,777,216 bytes were given, and any other but `OutOfMemory` exactly if the job and the
//!   bytes given call for it: `BadGaps`, for gaps that are empty, out of order or past the bits, after
//!   `TooLong` and `BitsPastBytes`, and before `BadCutting`.
//! - After any refusal but `Write` the writer is as it was; after `Write` it took a prefix of the text.
//! - If `follow` answers `Ok`, the bytes that the writer took are the listing of those that the reader gave.
//!   The last call was a flush that succeeded. Whenever it is refused, the rows of all that was given but the
//!   last read were taken, each once. If a read fails, the rows of all bytes before it were taken and
//!   flushed.
//!   `follow_soft` promises the same of the soft listing of symbols.
//! - If `asked_of` answers `Ok`, the request holds the entries that `clap` read, defaults too, and its gaps
//!   are the pairs that `--gaps` spells. If it answers a fault, help or the version was asked for, or `clap`
//!   finds a fault in the words, or neither a job nor a stream has their entries, or memory was refused.
//!
//! # What it leaves to others
//!
//! The crates `rds_code`, `rds_stream` and `rds_sync` say what a block, a recording and a report are. No
//! contract says when memory or a thread is refused, or that workers run at the same time. None says that a
//! [`ToWrite`] flushes its writer: std does not define the effect of a flush. Nor does one say which bytes a
//! file or a pipe holds, or which texts help, version and faults have. These are for tests.
#![tactic(auto)]

// In the order of reading: the command line, a job on its way from a reader to a writer, its rows, and the
// jobs that go another way.
mod cli; // From a command line to its request.
mod commands; // The commands and their options.
mod help; // Their texts.
mod entries; // The entries of a parsed command line.
mod fault; // Why it asks for nothing.
mod gap_text; // Gaps as a command line names them.
mod job; // The jobs that can be asked for.
mod engine; // From a reader to a writer.
mod devices; // The two ends of that.
mod task; // A job whose settings were looked at, and the text that it writes.
mod making; // From a job to its task, and on to its text.
mod plan; // Rules, workers and pieces.
mod input; // From bytes to a recording.
mod taker; // Where the bytes of a reader go.
mod counting; // Totals that are counted as the bytes come.
mod one_pass; // A list by one worker, written while it is decoded.
mod held_symbols; // Symbols that are decoded as they come.
mod text; // The text that a task writes.
mod listing_rows; // The rows of a report, from any on.
mod soft_rows; // Those of a report that was read again.
mod window_rows; // Those of a scan.
mod listing; // The text of a list of items.
mod rows; // Pages of rows.
mod totals; // The totals by name.
mod pen; // The row of a group, stored eight bytes at a time.
mod page; // Room for rows, on the stack.
mod digits; // Digits of numbers.
mod group_lines; // Groups from lines of digits.
mod encode; // Groups as blocks.
mod stream_rows; // Rows of a stream.
mod following; // From a reader to a writer, as the bytes come.
mod soft_following; // The same of symbols.
pub mod laws; // The laws of jobs and their texts.

pub use cli::{asked_of, job_of};
pub use devices::{FromRead, Source, ToWrite};
pub use engine::{transcribe, transcribe_gated};
pub use fault::{CliFault, FaultKind};
pub use following::follow;
pub use job::{Asked, Cuts, Ignored, Input, Job, Request, Settings};
pub use rds_rows::{Failed, Sink, write_all};
pub use rds_soft::Margin;
pub use rds_stream::Trace;
pub use rds_sync::{Loss, RuleNumbers};
pub use soft_following::follow_soft;
