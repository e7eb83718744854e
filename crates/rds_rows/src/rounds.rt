//! Rounds: parts are made by threads, and written while others are made. A round ends with the last part,
//! or once the caller had to make as many in a row as there are seats: the threads have ended then.
ghost use Rattle.std.specs.Prelude.{◌++◌, ◌<◌, ◌^◌, ◌≡◌, [], vec_len, true};
ghost use Rattle.rds_rows.specs.{Gathered.kept_in, Parts.IsNamed, Parts.first_parts, Rounds.IsPut, Rounds.IsRound, Rounds.done, Sheets.text_of};

use crate::gathered::Gathered;
use crate::handoff::Handoff;
use crate::owned_sink::OwnedSink;
use crate::rows::Rows;
use crate::sink::Failed;
use crate::slot::{PartSpec, Slot};
use std::sync::atomic::{AtomicUsize, Ordering};
use std::thread;
use std::thread::Threads;

/// How often a worker looks for a sheet or a part that is not there yet, before it goes on without.
const LOOKS: usize = 1000;

/// The caller's part of the rounds: two sheets, the gathered text, and the writer.
#[derive(Drop)]
pub(crate) struct Caller<J: PartSpec, W> {
    pub(crate) mine: Slot<J>,
    pub(crate) spare: Slot<J>,
    pub(crate) gathered: Gathered,
    pub(crate) out: W,
}

/// All that the workers share: the rows, a seat for each of some sheets, how many parts there are, and the number
/// of the next one to be drawn.
#[derive(Drop)]
pub(crate) struct Rounds<'a, J: PartSpec, T: Rows> {
    pub(crate) rows: &'a T,
    pub(crate) seats: Vec<Handoff<J>>,
    pub(crate) parts: usize,
    pub(crate) next: AtomicUsize,
    ghost named: { IsNamed (T.rows rows.now) (T.longest rows.now) J.size J.part },
    ghost some: { 0 < vec_len seats },
}

impl<J: PartSpec + Send + Sync, T: Rows + Sync> Rounds<'_, J, T> {
    /// The seat of part `k`.
    fn seat(&self, k: usize) -> &Handoff<J> {
        &self.seats[k % self.seats.len()]
    }

    /// Makes the part of each number that it draws, until there is none, or the writer is too slow.
    fn make_parts(&self, mine: &mut Slot<J>) {
        for _ in 0..self.parts {
            let k = self.next.fetch_add(1, Ordering::SeqCst);
            if k >= self.parts || !self.make_part(k, LOOKS, mine) {
                return;
            }
        }
    }

    /// Makes part `k` and hands it over. Answers whether its seat was free in time.
    fn make_part(&self, k: usize, looks: usize, mine: &mut Slot<J>) -> bool {
        mine.make(self.rows, k);
        self.seat(k).put(mine, looks)
    }

    /// The same by a thread for each sheet, as far as threads can be started.
    fn make_all<R: Threads + Sync>(&self, rt: &R, sheets: Vec<Slot<J>>) -> Vec<Slot<J>> {
        let mut sheets = sheets;
        let threads = sheets.len().max(1);
        thread::for_each_mut(
            rt,
            sheets.as_mut_slice(),
            threads,
            &|_: usize, mine: &mut Slot<J>| self.make_parts(mine),
        );
        sheets
    }

    /// Takes over part `k`. Until it is there, makes others that there are seats for.
    fn make_until_there(&self, k: usize, mine: &mut Slot<J>, spare: &mut Slot<J>) -> bool
        ensures { result ≡ true → text_of spare.new.sheet ≡ J.part k }
    {
        let after = k.saturating_add(self.seats.len());
        for _ in 0..self.seats.len() {
            if self.seat(k).take(k, after, spare, 1) {
                return true;
            }
            let j = match self.next.load(Ordering::SeqCst) < after {
                true => self.next.fetch_add(1, Ordering::SeqCst),
                false => self.parts,
            };
            if j >= self.parts || !self.make_part(j, 1, mine) {
                break;
            }
        }
        self.seat(k).take(k, after, spare, LOOKS)
    }

    /// Appends part `k` to the gathered text. Answers whether it was made in time, else it is made here.
    fn write_part<W: OwnedSink + Drop>(
        &self,
        k: usize,
        caller: &mut Caller<J, W>,
    ) -> Result<bool, Failed>
        requires { W.failed caller.old.out < 2 ^ 63 }
        ensures { IsPut W.OwnedSink (kept_in caller.old.gathered ++ J.part k) (kept_in caller.new.gathered)
            caller.old.out caller.new.out (done result) }
    {
        let Caller {
            mine,
            spare,
            gathered,
            out,
        } = caller;
        let is_there = self.make_until_there(k, mine, spare);
        if !is_there {
            self.seat(k).go_on_with(k.saturating_add(self.seats.len()));
            spare.make(self.rows, k);
        }
        match gathered.put(spare.as_slice(), out) {
            Ok(()) => Ok(is_there),
            Err(Failed) => Err(Failed),
        }
    }

    /// Appends the parts of a round, from `first` on, to the gathered text. Answers the number of the next one.
    /// The caller is handed in and back.
    fn gather<W: OwnedSink + Drop>(
        &self,
        first: usize,
        caller: Caller<J, W>,
    ) -> (Caller<J, W>, Result<usize, Failed>)
        requires order { first < self.now.parts }
        requires count { W.failed caller.out < 2 ^ 63 }
        ensures { IsRound W.OwnedSink J.part first self.now.parts (kept_in caller.gathered)
            (kept_in result.0.gathered) caller.out result.0.out result.1 }
    {
        let mut caller = caller;
        let mut alone = 0usize;
        for k in first..self.parts {
            let Ok(is_there) = self.write_part(k, &mut caller) else {
                return (caller, Err(Failed));
            };
            alone = if is_there { 0 } else { alone.saturating_add(1) };
            if alone >= self.seats.len() {
                return (caller, Ok(k + 1));
            }
        }
        (caller, Ok(self.parts))
    }

    /// One round, from part `first` on. If there are no other workers, no thread is started.
    fn round<R: Threads + Sync, W: OwnedSink + Drop>(
        &self,
        rt: &R,
        first: usize,
        sheets: Vec<Slot<J>>,
        caller: Caller<J, W>,
    ) -> (Vec<Slot<J>>, (Caller<J, W>, Result<usize, Failed>))
        requires order { first < self.now.parts }
        requires count { W.failed caller.out < 2 ^ 63 }
        ensures { IsRound W.OwnedSink J.part first self.now.parts (kept_in caller.gathered)
            (kept_in result.1.0.gathered) caller.out result.1.0.out result.1.1 }
    {
        self.begin_all(first);
        self.next.store(first, Ordering::SeqCst);
        if sheets.is_empty() {
            return (sheets, self.gather(first, caller));
        }
        thread::join(
            rt,
            move || -> Vec<Slot<J>> { self.make_all(rt, sheets) },
            move || -> (Caller<J, W>, Result<usize, Failed>)
                requires { (first < self.now.parts) × (W.failed caller.out < 2 ^ 63) }
                ensures { IsRound W.OwnedSink J.part first self.entry.now.parts
                    (kept_in caller.gathered) (kept_in result.0.gathered) caller.out result.0.out result.1 }
            {
                let gathered = self.gather(first, caller);
                self.next.store(self.parts, Ordering::SeqCst);
                gathered
            },
        )
    }

    /// The seats are for the parts from `first` on.
    fn begin_all(&self, first: usize) {
        for i in 0..self.seats.len() {
            let k = first.saturating_add(i);
            self.seat(k).go_on_with(k);
        }
    }

    /// All parts, made by a thread for each sheet and by the caller, and written in order to a writer that is
    /// handed in and back. Nobody waits for another: a part that is not there in time is made by the caller.
    pub(crate) fn write<R: Threads + Sync, W: OwnedSink + Drop>(
        &self,
        rt: &R,
        sheets: Vec<Slot<J>>,
        caller: Caller<J, W>,
    ) -> (W, Result<(), Failed>)
        requires none { kept_in caller.gathered ≡ [] }
        requires count { W.failed caller.out < 2 ^ 63 }
        ensures { IsPut W.OwnedSink (first_parts J.part self.now.parts) [] caller.out result.0 result.1 }
    {
        let mut sheets = sheets;
        let mut caller = caller;
        let mut first = 0;
        'rounds: while first < self.parts {
            let (back, (mine, wrote)) = self.round(rt, first, sheets, caller);
            sheets = back;
            caller = mine;
            match wrote {
                Ok(to) => first = to,
                Err(Failed) => return (caller.out, Err(Failed)),
            }
        }
        let mut gathered = caller.gathered;
        let mut out = caller.out;
        let wrote = gathered.write_out(&mut out);
        (out, wrote)
    }
}
