//! Calls of `rds_tool`: flushes of writers of std, a reader without an end, and cuts at given places.
use rds_code::RdsError;
use rds_crew::Gate;
use rds_pieces::PieceRun;
use rds_tool::{Cuts, FromRead, Input, Job, Loss, Settings, ToWrite, transcribe, transcribe_gated};
use std::alloc::{AllocError, Global};
use std::io;
use std::io::{Read, Write};
use std::sync::atomic::{AtomicU64, Ordering};
use std::test::Fail;
use std::thread::Threads;

/// The group of four zero words, twice.
static GROUPS: [u8; 26] = [
    0x00, 0x00, 0x3F, 0x00, 0x00, 0x19, 0x80, 0x00, 0x05, 0xA0, 0x00, 0x01, 0xB4, 0x00, 0x00, 0x3F,
    0x00, 0x00, 0x19, 0x80, 0x00, 0x05, 0xA0, 0x00, 0x01, 0xB4,
];

/// All bits of packed bytes.
fn input(alloc: Global) -> Input {
    Input {
        hex: false,
        bits: None,
        gaps: Vec::new(alloc),
    }
}

/// A writer of std that hands on its bytes only when it is flushed, and counts both.
#[derive(Drop)]
struct Withholding {
    held: usize,
    handed_on: usize,
    fails: bool,
}

impl Write for Withholding {
    fn write(&mut self, bytes: &[u8]) -> io::Result<usize> {
        self.held = self.held.saturating_add(bytes.len());
        Ok(bytes.len())
    }

    fn flush(&mut self) -> io::Result<()> {
        if self.fails {
            return Err(io::Error::from(AllocError));
        }
        self.handed_on = self.held;
        Ok(())
    }
}

/// Whether a scan to such a writer gives the wanted answer, after it held and handed on these numbers of bytes.
fn is_withheld<R: Threads + Sync>(
    rt: &R,
    alloc: Global,
    bytes: &[u8],
    fails: bool,
    wanted: Result<(), RdsError>,
    held: usize,
    handed_on: usize,
) -> bool {
    let mut reader = FromRead::new(bytes);
    let mut writer = ToWrite::new(Withholding {
        held: 0,
        handed_on: 0,
        fails,
    });
    let job = Job::Scan(input(alloc), 4);
    let answer = transcribe(rt, alloc, &mut reader, &mut writer, &job);
    let under = writer.into_inner();
    answer == wanted && under.held == held && under.handed_on == handed_on
}

// No contract of std defines the effect of a flush, so none of ours can: a writer that waits for it tells.
#[test]
fn a_flush_reaches_the_writer_of_std(rt: HostRuntime) {
    let refused = Err(RdsError::Write);
    assert!(rt; is_withheld(&rt, rt.alloc(), GROUPS.as_slice(), false, Ok(()), 62, 62));
    assert!(rt; is_withheld(&rt, rt.alloc(), GROUPS.as_slice(), true, refused, 62, 0));
    assert!(rt; is_withheld(&rt, rt.alloc(), b"", true, refused, 0, 0));
}

/// A reader of std that gives a zero byte per read, for ever.
#[derive(Drop)]
struct Endless<'a> {
    reads: &'a AtomicU64,
}

impl Read for Endless<'_> {
    fn read(&mut self, buf: &mut [u8]) -> io::Result<usize> {
        self.reads.fetch_add(1, Ordering::SeqCst);
        match buf.first_mut() {
            Some(byte) => {
                *byte = 0;
                Ok(1)
            }
            None => Ok(0),
        }
    }
}

/// Whether a scan leaves such a reader after `reads` reads.
fn is_left<R: Threads + Sync>(rt: &R, alloc: Global, reads: u64) -> bool {
    let count = AtomicU64::new(0);
    let mut reader = FromRead::new(Endless { reads: &count });
    let mut writer = ToWrite::new(Vec::new(alloc));
    let job = Job::Scan(input(alloc), 4);
    let answer = transcribe(rt, alloc, &mut reader, &mut writer, &job);
    answer == Err(RdsError::TooManyTurns) && count.load(Ordering::SeqCst) == reads
}

// That it is left no earlier is a clause.
#[test]
fn a_reader_without_an_end_is_left(rt: HostRuntime) {
    assert!(rt; is_left(&rt, rt.alloc(), 16_777_216));
}

/// A gate that counts the pieces that are begun.
#[derive(Drop)]
struct Count {
    begun: AtomicU64,
}

impl Gate for Count {
    fn begin(&self, _j: u64) {
        self.begun.fetch_add(1, Ordering::SeqCst);
    }

    fn done(&self, _j: u64, _run: &PieceRun) {}
}

/// A list by `workers` threads at most, with a cut at each place from `first` to before `end`.
fn list_cut_at(alloc: Global, workers: u32, first: u64, end: u64) -> Result<Job, AllocError> {
    let mut places = Vec::new(alloc);
    for place in first..end {
        places.push(place)?;
    }
    let settings = Settings {
        burst: 2,
        reach: 3,
        loss: Loss::Run(10),
        workers,
        cuts: Cuts::At(places),
    };
    Ok(Job::List(input(alloc), settings))
}

/// How many pieces of the two groups are begun.
fn pieces_begun<R: Threads + Sync>(rt: &R, alloc: Global, list: &Job) -> Result<u64, RdsError> {
    let gate = Count {
        begun: AtomicU64::new(0),
    };
    let mut reader = FromRead::new(GROUPS.as_slice());
    let mut writer = ToWrite::new(Vec::new(alloc));
    match transcribe_gated(rt, alloc, &mut reader, &mut writer, list, &gate) {
        Ok(()) => Ok(gate.begun.load(Ordering::SeqCst)),
        Err(error) => Err(error),
    }
}

// No command cuts at given places.
#[test]
fn each_cut_makes_a_piece(rt: HostRuntime) -> Result<(), Fail> {
    for (first, end, pieces) in [(1, 1, 1), (190, 191, 2), (1, 208, 208)] {
        for workers in [1u32, 4] {
            let list = list_cut_at(rt.alloc(), workers, first, end)?;
            let begun = pieces_begun(&rt, rt.alloc(), &list)?;
            assert!(rt; begun == pieces, "{begun} pieces by {workers} workers");
        }
    }
    Ok(())
}
