//! How far a job is, on one line of standard error.
ghost use Rattle.std.specs.Prelude.{◌≡◌, None, false};
ghost use Rattle.rds.specs.Session.{asks_for_progress};

use rds_crew::Gate;
use rds_pieces::PieceRun;
use rds_tool::{Cuts, Failed, Job, Request, Sink, Source};
use std::rt::Clock;
use std::sync::atomic::{AtomicU64, Ordering};
use std::time::Instant;

/// The least time from one line to the next, in milliseconds, and the time before the first.
const PAUSE: u64 = 500;

const MEGABYTE: u64 = 1_000_000;

/// Erases a line.
const CLEAR: &str = "\r                                                            \r";

/// The clock and standard error that progress is shown by. Only this module can use them.
#[derive(Drop)]
pub struct Teller<T> {
    system: T,
}

impl<T> Teller<T> {
    pub fn new(system: T) -> Teller<T> {
        Teller { system }
    }
}

/// A clock and standard error, which several threads may use at once.
pub trait Console: Clock + Eprint + Sync {}

impl<T: Clock + Eprint + Sync> Console for T {}

/// The line shows how many pieces are decoded, and then how many of the bits have their rows written. The
/// workers, the reader and the writer count at once.
#[derive(Drop)]
pub struct Progress<'a, T> {
    system: &'a T,
    started: Instant,
    recording: Length,
    pieces: u64,
    /// When the first piece was begun, in milliseconds from the start.
    begun: AtomicU64,
    decoded: AtomicU64,
    /// How many bytes were read.
    read: AtomicU64,
    /// When the first write was begun.
    rows_begun: AtomicU64,
    written: AtomicU64,
    /// The place in the last row that was looked at; 0 if there was none.
    place: AtomicU64,
    /// When the last line was told, in milliseconds from the start; 0 before the first.
    told: AtomicU64,
}

impl<'a, T: Clock + Eprint> Progress<'a, T> {
    /// Begins now, if the request asks for progress and there is a clock.
    pub fn start(teller: &'a Teller<T>, request: &Request) -> Option<Progress<'a, T>>
        ensures { asks_for_progress request.now ≡ false → result ≡ None }
    {
        let Request::Job {
            job,
            progress: true,
        } = request
        else {
            return None;
        };
        Some(Progress {
            system: &teller.system,
            started: Instant::now(&teller.system).ok()?,
            recording: length_of(job),
            pieces: most_pieces(job),
            begun: AtomicU64::new(0),
            decoded: AtomicU64::new(0),
            read: AtomicU64::new(0),
            rows_begun: AtomicU64::new(0),
            written: AtomicU64::new(0),
            place: AtomicU64::new(0),
            told: AtomicU64::new(0),
        })
    }

    /// Takes the line away.
    pub fn end(&self) {
        if self.told.load(Ordering::SeqCst) > 0 {
            let _ = eprint!(self.system; "{CLEAR}");
        }
    }

    /// The time if a line is due, in milliseconds from the start. Of several threads that find it so, one is
    /// told.
    fn due(&self) -> Option<u64> {
        let now = self.milliseconds()?;
        let told = self.told.load(Ordering::SeqCst);
        if now < told.saturating_add(PAUSE) {
            return None;
        }
        self.told
            .compare_exchange(told, now, Ordering::SeqCst, Ordering::SeqCst)
            .ok()?;
        Some(now)
    }

    fn milliseconds(&self) -> Option<u64> {
        let spent = self.started.elapsed(self.system).ok()?;
        u64::try_from(spent.as_millis()).ok()
    }

    /// Notes the time if none was noted yet.
    fn note_time(&self, at: &AtomicU64) {
        if at.load(Ordering::SeqCst) == 0
            && let Some(now) = self.milliseconds()
        {
            at.store(now, Ordering::SeqCst);
        }
    }

    /// Tells the pieces, with the seconds that those left take at the pace so far.
    fn show_pieces(&self, now: u64) {
        let pieces = self.pieces;
        let decoded = self.decoded.load(Ordering::SeqCst).min(pieces);
        let spent = now.saturating_sub(self.begun.load(Ordering::SeqCst));
        let seconds = seconds_left(spent, decoded, pieces);
        let _ = eprint!(self.system;
            "{CLEAR}decoded {decoded} of {pieces} pieces, {seconds} s left"
        );
    }

    /// Tells the rows, which come by rising places: those up to a place are their share of all. A text that has none is told
    /// by its bytes.
    fn show_rows(&self, now: u64) {
        let megabytes = self.written.load(Ordering::SeqCst) / MEGABYTE;
        let bits = self.recording.bits(self.read.load(Ordering::SeqCst));
        let place = self.place.load(Ordering::SeqCst).min(bits);
        let _ = if place == 0 {
            eprint!(self.system; "{CLEAR}written {megabytes} MB")
        } else {
            let share = place.saturating_mul(100) / bits.max(1);
            let spent = now.saturating_sub(self.rows_begun.load(Ordering::SeqCst));
            let seconds = seconds_left(spent, place, bits);
            eprint!(self.system;
                "{CLEAR}written {megabytes} MB, rows of {share} % of the bits, {seconds} s left"
            )
        };
    }
}

/// The seconds that the rest of the work takes, if `done` of `all` took `spent` milliseconds.
fn seconds_left(spent: u64, done: u64, all: u64) -> u64 {
    spent.saturating_mul(all.saturating_sub(done)) / done.max(1) / 1000
}

/// How the number of bits of a recording is known.
#[derive(Clone, Copy)]
enum Length {
    /// This number of bits, which the job asks for.
    Asked(u64),
    /// This number of bits per byte that was read. Blanks in hexadecimal text count as digits here.
    Read(u64),
}

impl Length {
    fn bits(self, read: u64) -> u64 {
        match self {
            Length::Asked(bits) => bits,
            Length::Read(of_a_byte) => read.saturating_mul(of_a_byte),
        }
    }
}

impl<T: Clock + Eprint> Gate for Progress<'_, T> {
    /// The time is taken from the first piece, as all of the input is read before.
    fn begin(&self, _j: u64) {
        self.note_time(&self.begun);
    }

    fn done(&self, _j: u64, _run: &PieceRun) {
        self.decoded.fetch_add(1, Ordering::SeqCst);
        if let Some(now) = self.due() {
            self.show_pieces(now);
        }
    }
}

/// A reader or a writer whose bytes are counted.
#[derive(Drop)]
pub struct Reporting<'a, D, T> {
    device: D,
    progress: &'a Progress<'a, T>,
}

impl<'a, D, T> Reporting<'a, D, T> {
    pub fn new(device: D, progress: &'a Progress<'a, T>) -> Reporting<'a, D, T>
        ensures { result.device ≡ device }
    {
        Reporting { device, progress }
    }

    /// Only the device.
    pub fn into_inner(self) -> D
        ensures { result ≡ self.entry.device }
    {
        let Reporting {
            device,
            progress: _,
        } = self;
        device
    }
}

impl<S: Source, T> Source for Reporting<'_, S, T> {
    ghost remaining = { λ told. S.remaining told.device };

    ghost given = { λ told. S.given told.device };

    ghost has_ended = { λ told. S.has_ended told.device };

    ghost failed = { λ told. S.failed told.device };

    fn read(&mut self, buf: &mut [u8]) -> Result<usize, Failed> {
        let count = self.device.read(buf)?;
        self.progress.read.fetch_add(count as u64, Ordering::SeqCst);
        Ok(count)
    }

    fn failures(&self) -> u64 {
        self.device.failures()
    }
}

impl<K: Sink, T: Clock + Eprint> Sink for Reporting<'_, K, T> {
    ghost contents = { λ told. K.contents told.device };

    ghost is_flushed = { λ told. K.is_flushed told.device };

    ghost failed = { λ told. K.failed told.device };

    fn write(&mut self, bytes: &[u8]) -> Result<usize, Failed> {
        let progress = self.progress;
        progress.note_time(&progress.rows_begun);
        let count = self.device.write(bytes)?;
        progress.written.fetch_add(count as u64, Ordering::SeqCst);
        if let Some(now) = progress.due() {
            if let Some(place) = last_place(&bytes[..count]) {
                progress.place.store(place, Ordering::SeqCst);
            }
            progress.show_rows(now);
        }
        Ok(count)
    }

    fn flush(&mut self) -> Result<(), Failed> {
        self.device.flush()
    }

    fn failures(&self) -> u64 {
        self.device.failures()
    }
}

/// The place in the last whole row of these bytes: the first field of a window, and the second of an item.
fn last_place(bytes: &[u8]) -> Option<u64> {
    let text = str::from_utf8(bytes).ok()?;
    let (whole, _begun) = text.rsplit_once('\n')?;
    let (_before, row) = whole.rsplit_once('\n')?;
    let (first, rest) = row.split_once(',')?;
    if let Ok(place) = first.parse::<u64>() {
        return Some(place);
    }
    let (second, _) = rest.split_once(',')?;
    second.parse::<u64>().ok()
}

fn length_of(job: &Job) -> Length {
    match job {
        Job::Scan(input, _) | Job::List(input, _) | Job::Totals(input, _) => match input.bits {
            Some(bits) => Length::Asked(bits),
            None => Length::Read(if input.hex { 4 } else { 8 }),
        },
        Job::Soft { input, .. } => match input.bits {
            Some(bits) => Length::Asked(bits),
            None => Length::Read(1),
        },
        Job::Encode { .. } => Length::Read(0),
    }
}

/// How many pieces the recording is cut into at most; a scan has none.
fn most_pieces(job: &Job) -> u64 {
    match job {
        Job::List(_, settings) | Job::Totals(_, settings) => match &settings.cuts {
            Cuts::Even(pieces) => *pieces,
            Cuts::At(places) => (places.len() as u64).saturating_add(1),
        },
        Job::Scan(..) | Job::Soft { .. } | Job::Encode { .. } => 0,
    }
}
