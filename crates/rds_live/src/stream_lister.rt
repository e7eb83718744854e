//! A stream that is listed by several workers.
ghost use Rattle.std.specs.Prelude.{◌≡◌, ◌≤◌, ◌<◌, ◌↔◌, ◌+◌, ◌*◌, ◌^◌, ◌++◌, ◌⊎◌, List, ℕ, length, IfErr, IfOk, IsErrOf, OnOk};
ghost use Rattle.std.specs.List.{flat_map};
ghost use Rattle.rds_sync.specs.{Counting.IsAtMost, Ranges.IsInRange, declared.item.Item.Item};
ghost use Rattle.rds_live.specs.{StreamDecoder.HasHeard, StreamDecoder.IsStreamDecoder, StreamDecoder.complete, StreamDecoder.most_counted, Listing.IsListed, Listing.lister_next, Listing.lister_of, Next.IsWithin, Next.guessed, Next.live_next};

use crate::StreamDecoder;
use crate::item_rows::ItemRows;
use crate::laws::{next_is_heard, pieces_join};
use crate::listed_pieces::list_by;
use crate::room::AT_ONCE;
use crate::stream_decoder::MOST_ITEMS;
use rds_code::RdsError;
use rds_stream::MOST_BITS;
use rds_sync::{Item, State};
use std::alloc::{AllocError, Global};
use std::marker::Model;
use std::thread::Threads;

/// A decoder of a stream that makes the rows of its items, by several workers.
///
/// Contracts see the decoder and the rows so far.
#[derive(Drop)]
pub struct StreamLister<'r, T: ItemRows> {
    live: StreamDecoder<'r>,
    /// Room for the items that are complete at once.
    items: Vec<Item>,
    rows: T,
}

impl<'r, T: ItemRows> Model for StreamLister<'r, T> {
    ghost use Rattle.std.specs.Prelude.{◌≤◌, vec_capacity};
    ghost use Rattle.rds_live.specs.Listing.{ListerOf};

    ghost Value = { ListerOf };

    ghost view = { λ l. record { live = l.live; rows = T.rows l.rows } };

    ghost invariant = { λ l. 15360 ≤ vec_capacity l.items };
}

impl<'r, T: ItemRows> StreamLister<'r, T> {
    /// Goes on from this decoder and these rows. Fails only if memory is refused.
    pub fn new(
        alloc: Global,
        live: StreamDecoder<'r>,
        rows: T,
    ) -> Result<StreamLister<'r, T>, AllocError>
        ensures live { IfOk result (λ lister. lister.live ≡ live.entry) }
        ensures rows { IfOk result (λ lister. lister.rows ≡ T.rows rows) }
    {
        let items = Vec::with_capacity(alloc, MOST_ITEMS)?;
        Ok(StreamLister { live, items, rows })
    }

    /// Takes all of these bytes, and appends the rows of the items that they complete, by up to this number of workers.
    ///
    /// Refuses more than 2^36 bits in all.
    ///
    /// Its cost: a thread for each 16 KiB, but no more than there are workers, or 256. Each but the first goes over 4 KiB more. Where a
    /// guess does not come into the state of the stream within 4 KiB, the calling thread goes over its bytes once more.
    pub fn list<R: Threads + Sync>(
        self,
        rt: &R,
        alloc: Global,
        bytes: &[u8],
        workers: u32,
    ) -> Result<StreamLister<'r, T>, RdsError>
        ensures heard { IfOk result (λ lister. (before : List ℕ) → HasHeard self.entry.live before
            → HasHeard lister.live (before ++ bytes.now)) }
        ensures terms { IfOk result (λ lister. lister.live.terms ≡ self.entry.live.terms) }
        ensures rows { IfOk result (λ lister. (before : List ℕ) → HasHeard self.entry.live before
            → (items : List Item) × (complete self.entry.live.terms (before ++ bytes.now)
            ≡ complete self.entry.live.terms before ++ items)
            × (lister.rows ≡ self.entry.rows ++ flat_map T.row_of items)) }
        ensures fits { OnOk result (self.entry.live.place + 8 * length bytes.now ≤ 2 ^ 36) }
        ensures too_long { IsErrOf result RdsError.TooLong
            ↔ (2 ^ 36 < self.entry.live.place + 8 * length bytes.now) }
        ensures only { IfErr result (λ e. (e ≡ RdsError.TooLong) ⊎ (e ≡ RdsError.OutOfMemory)) }

        // The same of numbers that are lawful and of no stream.
        ensures next { IfOk result (λ lister. lister ≡ lister_next T.row_of self.entry bytes.now) }
    {
        if bytes.len() as u64 > (MOST_BITS - self.live.place()) / 8 {
            return Err(RdsError::TooLong);
        }
        next_is_heard();
        self.is_known();
        match list_by(rt, alloc, self, bytes, workers) {
            Ok(lister) => Ok(lister),
            Err(_) => Err(RdsError::OutOfMemory),
        }
    }

    /// The rows so far.
    pub fn rows(&self) -> &T
        ensures { T.rows result.now ≡ self.now.rows }
    {
        &self.rows
    }

    /// Forgets the rows.
    pub fn clear_rows(&mut self)
        ensures { self.new ≡ lister_of self.old.live }
    {
        self.rows.clear();
    }

    /// How many bits were heard.
    pub fn place(&self) -> u64
        ensures value { result ≡ self.now.live.place }
        ensures limit { result ≤ 2 ^ 36 }
    {
        self.live.place()
    }

    /// The decoder.
    pub fn into_decoder(self) -> StreamDecoder<'r>
        ensures { result ≡ self.entry.live }
    {
        let StreamLister {
            live,
            items: _,
            rows: _,
        } = self;
        live
    }

    /// The state after all that was heard.
    pub(crate) fn state(&self) -> State
        ensures { result ≡ self.now.live.state }
    {
        self.live.state()
    }

    /// Its numbers are lawful, and its rules in their range.
    pub(crate) fn is_known(&self)
        ensures live { IsStreamDecoder self.now.live }
        ensures range { IsInRange self.now.live.terms.rules }
    {
        self.live.is_known();
    }

    /// Takes all of these bytes by one thread.
    pub(crate) fn list_alone(self, bytes: &[u8]) -> Result<StreamLister<'r, T>, AllocError>
        requires { self.live.place + 8 * length bytes.now ≤ 2 ^ 36 }
        ensures { IfOk result (IsListed T.row_of self.entry bytes.now) }
    {
        pieces_join();
        let StreamLister { live, items, rows } = self;
        let (mut live, mut items, mut rows) = (live, items, rows);
        let mut rest = bytes;
        while !rest.is_empty() {
            let (part, others) = rest.split_at(rest.len().min(AT_ONCE));
            live.is_known();
            live.take_part(part, &mut items);
            rows.push_items(&items)?;
            rest = others;
        }
        live.is_still();
        Ok(StreamLister { live, items, rows })
    }

    /// A lister that searched after the bytes of `front`, and then heard the seam: its state is a guess.
    pub(crate) fn guess_after(
        &self,
        alloc: Global,
        front: &[u8],
        seam: &[u8],
    ) -> Result<StreamLister<'r, T>, AllocError>
        requires long { 30 ≤ length front.now }
        requires fits { self.now.live.place + 8 * length front.now + 8 * length seam.now ≤ 2 ^ 36 }
        ensures { IfOk result (λ guess. guess ≡ lister_of
            (guessed (live_next (live_next self.now.live front.now) seam.now) guess.live.state)) }
    {
        let live = self.live.guess_after(alloc, front, seam)?;
        StreamLister::new(alloc, live, self.rows.another(alloc)?)
    }

    /// Goes over the seam, and takes over the rows of the rest from a guess, if that had this state after the seam. Else goes over the
    /// rest itself.
    pub(crate) fn sew(
        self,
        seam: &[u8],
        rest: &[u8],
        mark: State,
        guess: StreamLister<'r, T>,
    ) -> Result<StreamLister<'r, T>, AllocError>
        requires fits { self.live.place + 8 * length seam.now + 8 * length rest.now ≤ 2 ^ 36 }
        requires guess { guess ≡ lister_next T.row_of
            (lister_of (guessed (live_next self.live seam.now) mark)) rest.now }
        requires few { IsAtMost (most_counted (8 * length rest.now)) guess.live.totals }
        ensures next { IfOk result (λ lister. lister
            ≡ lister_next T.row_of (lister_next T.row_of self.entry seam.now) rest.now) }
        ensures small { IfOk result (λ lister. IsWithin (8 * length seam.now + 8 * length rest.now)
            self.entry.live.totals lister.live.totals) }
    {
        let lister = self.list_alone(seam)?;
        if lister.live.is_in(mark) {
            lister.take_over(rest, guess)
        } else {
            lister.list_alone(rest)
        }
    }

    /// Takes over these bytes from a guess that began in the same state.
    fn take_over(
        mut self,
        bytes: &[u8],
        guess: StreamLister<'r, T>,
    ) -> Result<StreamLister<'r, T>, AllocError>
        requires guess { guess ≡ lister_next T.row_of (lister_of (guessed self.live self.live.state)) bytes.now }
        requires few { IsAtMost (most_counted (8 * length bytes.now)) guess.live.totals }
        ensures { IfOk result (IsListed T.row_of self.entry bytes.now) }
    {
        let StreamLister {
            live,
            items: _,
            rows,
        } = guess;
        self.live.take_over(bytes, live);
        self.rows.append(rows)?;
        Ok(self)
    }
}
