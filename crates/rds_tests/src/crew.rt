//! The calls that a crew makes of gates and works. No contract says it: neither that workers run at the same
//! time, nor when a gate is called, nor whose runs make the report.
use rds_code::RdsError;
use rds_crew::{Gate, decode_crew};
use rds_pieces::{Cutting, PieceRun, RecordingWork, Work};
use rds_stream::Recording;
use rds_sync::{Report, Rules};
use std::alloc::Global;
use std::snapshot::Snapshot;
use std::sync::atomic::{AtomicU64, Ordering};
use std::sync::{Mutex, Wait};
use std::thread::Threads;

/// The turns after which a worker no longer waits for others.
const MOST_TURNS: u64 = 1_000_000_000;

/// The first place of a run, and the place after its last.
type Range = (u64, u64);

/// An event of a crew. Each guess and each join is made once, so a range tells which run it is.
#[derive(Clone, Copy, PartialEq, Eq)]
enum Event {
    Begun(u64),
    Guessed(u64),
    Done(u64, Range),
    /// A join is begun, by its level and its number there.
    JoinBegun(u32, u64),
    Joined(Range, Range),
    JoinDone(u32, u64, Range),
    Reported(Range),
}

/// The events of one worker, in order: five pieces of 104 bits, and three levels of joins. The last run of a level
/// without a neighbour goes up as it is.
static EVENTS: [Event; 28] = [
    Event::Begun(0),
    Event::Guessed(0),
    Event::Done(0, (0, 104)),
    Event::Begun(1),
    Event::Guessed(1),
    Event::Done(1, (104, 208)),
    Event::Begun(2),
    Event::Guessed(2),
    Event::Done(2, (208, 312)),
    Event::Begun(3),
    Event::Guessed(3),
    Event::Done(3, (312, 416)),
    Event::Begun(4),
    Event::Guessed(4),
    Event::Done(4, (416, 520)),
    Event::JoinBegun(1, 0),
    Event::Joined((0, 104), (104, 208)),
    Event::JoinDone(1, 0, (0, 208)),
    Event::JoinBegun(1, 1),
    Event::Joined((208, 312), (312, 416)),
    Event::JoinDone(1, 1, (208, 416)),
    Event::JoinBegun(2, 0),
    Event::Joined((0, 208), (208, 416)),
    Event::JoinDone(2, 0, (0, 416)),
    Event::JoinBegun(3, 0),
    Event::Joined((0, 416), (416, 520)),
    Event::JoinDone(3, 0, (0, 520)),
    Event::Reported((0, 520)),
];

/// Who waits at a gate, and for how many others.
#[derive(Clone, Copy)]
enum Hold {
    Nobody,
    /// Each piece, until this number is begun.
    Pieces(u64),
    /// Piece 0, until this number is done.
    First(u64),
    /// Join 0 of level 1, until this number of joins of that level is begun.
    Join(u64),
}

impl Hold {
    /// Whether an event is one of the others.
    fn counts(self, event: Event) -> bool {
        match (self, event) {
            (Hold::Pieces(_), Event::Begun(_)) => true,
            (Hold::First(_), Event::Done(_, _)) => true,
            (Hold::Join(_), Event::JoinBegun(1, _)) => true,
            _ => false,
        }
    }

    /// For how many others an event waits.
    fn wanted(self, event: Event) -> u64 {
        match (self, event) {
            (Hold::Pieces(others), Event::Begun(_)) => others,
            (Hold::First(others), Event::Begun(0)) => others,
            (Hold::Join(others), Event::JoinBegun(1, 0)) => others,
            _ => 0,
        }
    }
}

/// A gate that keeps the events, in order, and holds workers.
#[derive(Drop)]
struct Journal<'a, R> {
    rt: &'a R,
    hold: Hold,
    events: Mutex<Vec<Event>>,
    come: AtomicU64,
    misses: AtomicU64,
}

impl<'a, R: Wait> Journal<'a, R> {
    fn new(rt: &'a R, alloc: Global, hold: Hold) -> Journal<'a, R> {
        Journal {
            rt,
            hold,
            events: Mutex::new(Vec::new(alloc)),
            come: AtomicU64::new(0),
            misses: AtomicU64::new(0),
        }
    }

    /// Keeps the event, and holds its worker. One that there is no memory for is missing in the end.
    fn keep(&self, event: Event) {
        let _kept = self.events.lock(self.rt).push(event);
        if self.hold.counts(event) {
            self.come.fetch_add(1, Ordering::SeqCst);
        }
        self.wait(self.hold.wanted(event));
    }

    /// Turns until this number has come, and notes a miss at the limit.
    fn wait(&self, wanted: u64) {
        for _ in 0..MOST_TURNS {
            if self.come.load(Ordering::SeqCst) >= wanted {
                return;
            }
        }
        self.misses.fetch_add(1, Ordering::SeqCst);
    }

    /// Whether each event happened once, in order if they are of one worker, and nobody waited in vain.
    fn is_right(&self, workers: u32) -> bool {
        let events = self.events.lock(self.rt);
        self.misses.load(Ordering::SeqCst) == 0
            && if workers == 1 {
                events.as_slice() == EVENTS.as_slice()
            } else {
                has_each_once(events.as_slice())
            }
    }
}

fn has_each_once(events: &[Event]) -> bool {
    for event in &EVENTS {
        if !events.contains(event) {
            return false;
        }
    }
    events.len() == EVENTS.len()
}

fn range_of(run: &PieceRun) -> Range {
    (run.from(), run.to())
}

impl<R: Wait> Gate for Journal<'_, R> {
    fn begin(&self, j: u64) {
        self.keep(Event::Begun(j));
    }

    fn done(&self, j: u64, run: &PieceRun) {
        self.keep(Event::Done(j, range_of(run)));
    }

    fn join_begin(&self, level: u32, m: u64) {
        self.keep(Event::JoinBegun(level, m));
    }

    fn join_done(&self, level: u32, m: u64, run: &PieceRun) {
        self.keep(Event::JoinDone(level, m, range_of(run)));
    }
}

/// A work over a recording that keeps each call in a journal.
#[derive(Drop)]
struct Noted<'j, 'r, 'w, R> {
    journal: &'j Journal<'r, R>,
    inner: RecordingWork<'w>,
}

impl<R: Wait> Work for Noted<'_, '_, '_, R> {
    ghost recording = { λ w. w.inner.recording };

    ghost rule_set = { λ w. w.inner.rules };

    ghost places = { λ w. w.inner.places };

    fn source(&self) -> Snapshot<Recording> {
        self.inner.source()
    }

    fn rules(&self) -> &Rules {
        self.inner.rules()
    }

    fn cutting(&self) -> &Cutting {
        self.inner.cutting()
    }

    fn guess(&self, alloc: Global, j: u64) -> Result<PieceRun, RdsError> {
        self.journal.keep(Event::Guessed(j));
        self.inner.guess(alloc, j)
    }

    fn join(&self, alloc: Global, left: &PieceRun, right: &PieceRun) -> Result<PieceRun, RdsError> {
        self.journal
            .keep(Event::Joined(range_of(left), range_of(right)));
        self.inner.join(alloc, left, right)
    }

    fn report(&self, alloc: Global, runs: &[PieceRun]) -> Result<Report, RdsError> {
        for run in runs {
            self.journal.keep(Event::Reported(range_of(run)));
        }
        self.inner.report(alloc, runs)
    }
}

/// Whether this number of workers decodes 520 zero bits by these events, while they are held.
fn are_right<R: Sync + Threads + Wait>(rt: &R, alloc: Global, workers: u32, hold: Hold) -> bool {
    let journal = Journal::new(rt, alloc, hold);
    is_decoded(alloc, workers, &journal) == Some(()) && journal.is_right(workers)
}

fn is_decoded<R: Sync + Threads + Wait>(
    alloc: Global,
    workers: u32,
    journal: &Journal<'_, R>,
) -> Option<()> {
    let bytes = vec![in alloc; 0u8; 65].ok()?;
    let recording = Recording::from_bytes(bytes, 520).ok()?;
    let rules = Rules::new(alloc, 2, 3, 10).ok()?;
    let cutting = Cutting::even(alloc, recording.len(), 5).ok()?;
    let inner = RecordingWork::new(&recording, &rules, &cutting);
    let work = Noted { journal, inner };
    decode_crew(journal.rt, alloc, &work, workers, journal).ok()?;
    Some(())
}

// Fewer threads, or parts that are dealt before, would miss: a piece would wait until the one before it is done.
static CREWS: [(u32, Hold); 8] = [
    (1, Hold::Nobody),
    (2, Hold::First(4)),
    (2, Hold::Join(2)),
    (2, Hold::Pieces(2)),
    (3, Hold::Pieces(3)),
    (4, Hold::Pieces(4)),
    (5, Hold::Pieces(5)),
    (256, Hold::Pieces(5)),
];

#[test]
fn each_part_is_made_once_by_workers_that_run_at_the_same_time(rt: HostRuntime) {
    for (k, &(workers, hold)) in CREWS.iter().enumerate() {
        assert!(rt; are_right(&rt, rt.alloc(), workers, hold), "crew {k}");
    }
}
