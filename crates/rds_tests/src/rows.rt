//! Writes of `rds_rows` are large, and threads make parts beside a writer that waits. No contract says it.
ghost use Rattle.std.specs.Prelude.{◌<◌, ◌≡◌, ◌≤◌, ◌∷◌, [], None, map};

use rds_rows::{Failed, Rows, RowsError, Sheet, Sink, write_rows};
use std::alloc::{AllocError, Global};
use std::sync::atomic::{AtomicUsize, Ordering};
use std::test::Fail;
use std::thread::Threads;

/// The turns after which a writer no longer waits.
const MOST_TURNS: u64 = 1_000_000_000;

/// How many bytes the longest row may have, which is more than any has.
const LONGEST: usize = 2;

/// Rows of a byte each, which count the parts that were made of them.
#[derive(Drop)]
struct Bytes {
    bytes: Vec<u8>,
    made: AtomicUsize,
}

impl Bytes {
    fn new(alloc: Global, count: usize) -> Result<Bytes, AllocError> {
        let bytes = vec![in alloc; b'a'; count]?;
        Ok(Bytes {
            bytes,
            made: AtomicUsize::new(0),
        })
    }
}

impl Rows for Bytes {
    ghost rows = { λ rows. map (λ byte. byte ∷ []) rows.bytes.items };

    ghost longest = { λ _. 2 };

    fn len(&self) -> usize {
        self.bytes.len()
    }

    fn longest_row(&self) -> usize {
        LONGEST
    }

    fn fill(&self, from: usize, to: usize, sheet: &mut Sheet) {
        let bytes = self.bytes.as_slice();
        sheet.push_all(to - from, &bytes[from..to]);
        self.made.fetch_add(1, Ordering::SeqCst);
    }
}

/// Before each write it waits until `parts` parts were made. The write is refused if it `fails`.
#[derive(Drop)]
struct Patient<'a> {
    rows: &'a Bytes,
    parts: usize,
    fails: bool,
    misses: u64,
    writes: usize,
    failures: u64,
    flushed: bool,
}

impl<'a> Patient<'a> {
    fn new(rows: &'a Bytes, parts: usize, fails: bool) -> Patient<'a>
        ensures { result.failures ≡ 0 }
    {
        Patient {
            rows,
            parts,
            fails,
            misses: 0,
            writes: 0,
            failures: 0,
            flushed: false,
        }
    }

    /// Whether the parts were made before the last turn.
    fn waited(&self) -> bool {
        for _ in 0..MOST_TURNS {
            if self.rows.made.load(Ordering::SeqCst) >= self.parts {
                return true;
            }
        }
        false
    }
}

impl Sink for Patient<'_> {
    ghost contents = { λ _. None };

    ghost is_flushed = { λ writer. writer.flushed };

    ghost failed = { λ writer. writer.failures };

    fn write(&mut self, bytes: &[u8]) -> Result<usize, Failed> {
        self.flushed = false;
        self.writes = self.writes.saturating_add(1);
        if !self.waited() {
            self.misses = self.misses.saturating_add(1);
        }
        if self.fails {
            self.failures += 1;
            return Err(Failed);
        }
        if bytes.is_empty() {
            return Ok(0);
        }
        Ok(bytes.len())
    }

    fn flush(&mut self) -> Result<(), Failed> {
        self.flushed = true;
        Ok(())
    }

    fn failures(&self) -> u64 {
        self.failures
    }
}

/// Whether `workers` workers write the rows, in parts of `most` rows, `large` bytes or more at a time except the last.
fn are_written<R: Sync + Threads>(
    rt: &R,
    alloc: Global,
    rows: &Bytes,
    workers: u32,
    most: usize,
    large: usize,
) -> bool
    requires some { 0 < workers }
    requires few { workers ≤ 256 }
    requires rows { 0 < most }
    requires large { 0 < large }
{
    let mut writer = Patient::new(rows, 0, false);
    let result = write_rows(rt, alloc, rows, workers, most, &mut writer);
    result.is_ok() && writer.writes <= rows.len() / large + 1
}

// A write has 64 KiB, or the bytes of a part of the longest rows if these are fewer.
#[test]
fn many_rows_go_in_large_writes(rt: HostRuntime) -> Result<(), Fail> {
    let rows = Bytes::new(rt.alloc(), 1_000_000)?;
    for workers in [1u32, 3, 16, 256] {
        for most in [256usize, 4_096, 30_000, 32_768, 65_535, 80_000, 1_000_000] {
            let large = (LONGEST * most).min(65_536);
            assert!(rt;
                are_written(&rt, rt.alloc(), &rows, workers, most, large),
                "{workers} workers, parts of {most}"
            );
        }
    }
    Ok(())
}

/// Whether two parts for each other worker are made while the first write waits, which fails or does not.
fn are_made<R: Sync + Threads>(rt: &R, alloc: Global, workers: u32, fails: bool) -> bool
    requires some { 0 < workers }
    requires few { workers ≤ 256 }
{
    // four parts for each worker, of four rows
    let Ok(rows) = Bytes::new(alloc, 16 * workers as usize) else {
        return false;
    };
    let mut writer = Patient::new(&rows, 2 * (workers as usize - 1), fails);
    let result = write_rows(rt, alloc, &rows, workers, 4, &mut writer);
    let wanted = if fails { Err(RowsError::Write) } else { Ok(()) };
    result == wanted && writer.misses == 0
}

#[test]
fn all_others_make_parts_while_a_write_waits(rt: HostRuntime) {
    for workers in [2u32, 3, 8, 64, 256] {
        let is_written = are_made(&rt, rt.alloc(), workers, false);
        assert!(rt;
            is_written && are_made(&rt, rt.alloc(), workers, true),
            "{workers} workers"
        );
    }
}
