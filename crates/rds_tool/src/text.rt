//! The text that a task writes.
ghost use Rattle.std.specs.Prelude.{◌<◌, ◌≤◌, ◌^◌, ◌≡◌, ◌≢◌, ◌↔◌, ◌⊎◌, IfErr, IsErrOf, IsOkUnless, Ok, OnErr, OnOk, true};
ghost use Rattle.std.specs.Io.KnownBytes.{Appends, Keeps};
ghost use Rattle.rds_rows.specs.Written.{IsWritten};
ghost use Rattle.rds_tool.specs.{Inside.Texts.bytes_of, Outcome.WritesPrefix};

use crate::encode::GroupRows;
use crate::listing::Heard;
use crate::listing_rows::ListingRows;
use crate::one_pass::write_in_one_pass;
use crate::plan::busy_workers;
use crate::soft_rows::SoftRows;
use crate::task::{Plan, Text};
use crate::window_rows::WindowRows;
use rds_code::RdsError;
use rds_rows::{Failed, RowsError, Sink, write_all, write_rows};
use rds_stream::Recording;
use std::alloc::Global;
use std::thread::Threads;

/// How many rows of a listing are made at once.
const PART: usize = 1024;

/// How many rows of symbols are made at once by the caller alone: so that most writes have 64 KiB or more.
const ALONE: usize = 2048;

/// How many places are scanned at once: each has room for a row.
const PLACES: usize = 16_384;

/// How many groups are encoded at once.
const GROUPS: usize = 4096;

/// How many workers make rows at most: the caller writes all of them, and more would wait for it.
const MAKERS: u32 = 8;

impl Text<'_> {
    /// Writes the whole text and flushes. If memory is refused, nothing was written.
    pub fn write_to<R: Threads + Sync, K: Sink>(
        &self,
        rt: &R,
        alloc: Global,
        writer: &mut K,
    ) -> Result<(), RdsError>
        requires { K.failed writer.old < 2 ^ 63 }
        ensures ok { OnOk result (Appends (K.contents writer.old) (K.contents writer.new)
            (bytes_of self.now)) }
        ensures flushed { OnOk result (K.is_flushed writer.new ≡ true) }
        ensures write { IsErrOf result RdsError.Write ↔ (K.failed writer.old < K.failed writer.new) }
        ensures kinds { IfErr result (λ error. (error ≡ RdsError.OutOfMemory) ⊎ (error ≡ RdsError.Write)) }
        ensures untouched { IfErr result (λ error. error ≢ RdsError.Write → writer.new ≡ writer.old) }
        ensures prefix { IsErrOf result RdsError.Write
            → WritesPrefix (K.contents writer.old) (K.contents writer.new) (Ok (bytes_of self.now)) }
    {
        match write_bytes(rt, alloc, self, writer) {
            Ok(()) => flush(writer),
            Err(RowsError::OutOfMemory) => Err(RdsError::OutOfMemory),
            Err(RowsError::Write) => Err(RdsError::Write),
        }
    }
}

/// Writes the whole text, and does not flush. Rows are spelled by as many threads as there are workers, groups by the caller alone.
fn write_bytes<R: Threads + Sync, K: Sink>(
    rt: &R,
    alloc: Global,
    text: &Text<'_>,
    writer: &mut K,
) -> Result<(), RowsError>
    requires { K.failed writer.old < 2 ^ 63 }
    ensures { IsWritten K.contents K.failed (bytes_of text.now) writer.old writer.new result }
{
    match text {
        Text::Whole(bytes) => write_whole(writer, bytes.as_slice()),
        Text::Listing(listing) => {
            let heard = Heard {
                recording: &listing.recording,
                rules: listing.plan.rules(),
            };
            let rows = ListingRows::new(alloc, heard, &listing.report)?;
            let workers = makers(listing.plan.workers(), &listing.recording);
            write_rows(rt, alloc, &rows, workers, PART, writer)
        }
        Text::OnePass(recording, plan) => {
            write_in_one_pass(alloc, recording, plan.rules(), writer)
        }
        Text::Windows(recording, workers) => {
            let rows = WindowRows { recording };
            let workers = makers(workers.count(), recording);
            write_rows(rt, alloc, &rows, workers, PLACES, writer)
        }
        Text::Groups(groups, hex) => {
            let rows = GroupRows {
                groups: groups.as_slice(),
                hex: *hex,
            };
            write_rows(rt, alloc, &rows, 1, GROUPS, writer)
        }
        Text::Soft(items, totals) => {
            let rows = SoftRows::new(items, totals)?;
            write_rows(rt, alloc, &rows, 1, ALONE, writer)
        }
    }
}

/// Writes a text that is made.
fn write_whole<K: Sink>(writer: &mut K, bytes: &[u8]) -> Result<(), RowsError>
    requires { K.failed writer.old < 2 ^ 63 }
    ensures { IsWritten K.contents K.failed bytes.now writer.old writer.new result }
{
    match write_all(writer, bytes) {
        Ok(()) => Ok(()),
        Err(Failed) => Err(RowsError::Write),
    }
}

/// How many of the workers make rows of a recording.
fn makers(workers: u32, recording: &Recording) -> u32
    requires { 0 < workers }
    ensures some { 0 < result }
    ensures few { result ≤ 256 }
{
    busy_workers(workers, recording.len()).min(MAKERS)
}

/// Writes this text and flushes.
pub fn write_flushed<K: Sink>(writer: &mut K, text: &[u8]) -> Result<(), RdsError>
    requires { K.failed writer.old < 2 ^ 63 }
    ensures ok { OnOk result (Appends (K.contents writer.old) (K.contents writer.new) text.now) }
    ensures flushed { OnOk result (K.is_flushed writer.new ≡ true) }
    ensures count { OnOk result (K.failed writer.new ≡ K.failed writer.old) }
    ensures write { IsErrOf result RdsError.Write ↔ (K.failed writer.old < K.failed writer.new) }
    ensures kinds { IsOkUnless result RdsError.Write }
    ensures prefix { OnErr result (WritesPrefix (K.contents writer.old) (K.contents writer.new)
        (Ok text.now)) }
{
    match write_all(writer, text) {
        Ok(()) => flush(writer),
        Err(Failed) => Err(RdsError::Write),
    }
}

/// Flushes.
fn flush<K: Sink>(writer: &mut K) -> Result<(), RdsError>
    requires { K.failed writer.old < 2 ^ 63 }
    ensures bytes { Keeps (K.contents writer.old) (K.contents writer.new) }
    ensures flushed { OnOk result (K.is_flushed writer.new ≡ true) }
    ensures count { OnOk result (K.failed writer.new ≡ K.failed writer.old) }
    ensures write { IsErrOf result RdsError.Write ↔ (K.failed writer.old < K.failed writer.new) }
    ensures kinds { IsOkUnless result RdsError.Write }
{
    match writer.flush() {
        Ok(()) => Ok(()),
        Err(Failed) => Err(RdsError::Write),
    }
}
