//! A stream that is counted by several workers.
ghost use Rattle.std.specs.Prelude.{◌≡◌, ◌≤◌, ◌<◌, ◌↔◌, ◌+◌, ◌*◌, ◌^◌, ◌++◌, List, ℕ, length, vec_capacity, IfOk, IsErrOf, IsOkUnless, OnErr, OnOk};
ghost use Rattle.rds_live.specs.{StreamDecoder.HasHeard, Next.live_next};

use crate::StreamDecoder;
use crate::counted_pieces::count_by;
use crate::laws::{next_is_heard, pieces_join};
use rds_code::RdsError;
use rds_stream::MOST_BITS;
use std::alloc::{AllocError, Global};
use std::marker::Model;
use std::thread::Threads;

/// How many bytes are gathered for several workers.
const GATHERED: usize = 2_097_152;

/// A decoder of a stream whose items are only counted, by several workers: bytes are gathered until there is work for all.
///
/// Contracts see the decoder that has heard the gathered bytes too.
#[derive(Drop)]
pub struct StreamCounter<'r> {
    live: StreamDecoder<'r>,
    workers: u32,
    /// The bytes that the decoder has not heard yet: none for one worker.
    gathered: Vec<u8>,
}

impl<'r> Model for StreamCounter<'r> {
    ghost use Rattle.std.specs.Prelude.{◌+◌, ◌*◌, ◌^◌, ◌≤◌, length};
    ghost use Rattle.rds_live.specs.{StreamDecoder.LiveOf, Next.live_next};

    ghost Value = { LiveOf };

    ghost view = { λ c. live_next c.live c.gathered.items };

    ghost invariant = { λ c. c.live.place + 8 * length c.gathered.items ≤ 2 ^ 36 };
}

impl<'r> StreamCounter<'r> {
    /// Counts on from this decoder by up to this number of workers.
    ///
    /// Fails only if memory is refused: it takes room for 2 MiB, unless there is one worker.
    pub fn new(
        alloc: Global,
        live: StreamDecoder<'r>,
        workers: u32,
    ) -> Result<StreamCounter<'r>, AllocError>
        ensures { IfOk result (λ counter. counter ≡ live.entry) }
    {
        live.is_known();
        live.is_still();
        let room = if workers > 1 { GATHERED } else { 0 };
        let gathered = Vec::with_capacity(alloc, room)?;
        Ok(StreamCounter {
            live,
            workers,
            gathered,
        })
    }

    /// Counts the items that all of these bytes complete.
    ///
    /// Refuses more than 2^36 bits in all, and has then heard nothing.
    ///
    /// Its cost: each 2 MiB are counted by a thread for each 64 KiB, but by no more than there are workers, or 256. Each but the first goes
    /// over 4 KiB more, and takes memory for a decoder; if that is refused, the calling thread does the work. Where a guess does not come
    /// into the state of the stream within 4 KiB, the calling thread goes over its bytes once more.
    pub fn count<R: Threads + Sync>(
        &mut self,
        rt: &R,
        alloc: Global,
        bytes: &[u8],
    ) -> Result<(), RdsError>
        ensures heard { OnOk result ((before : List ℕ) → HasHeard self.old before
            → HasHeard self.new (before ++ bytes.now)) }
        ensures terms { self.new.terms ≡ self.old.terms }
        ensures refused { OnErr result (self.new ≡ self.old) }
        ensures too_long { IsErrOf result RdsError.TooLong ↔ (2 ^ 36 < self.old.place + 8 * length bytes.now) }
        ensures only { IsOkUnless result RdsError.TooLong }

        // The same of numbers that are lawful and of no stream.
        ensures next { OnOk result (self.new ≡ live_next self.old bytes.now) }
    {
        let here = self.live.place() + 8 * self.gathered.len() as u64;
        if bytes.len() as u64 > (MOST_BITS - here) / 8 {
            return Err(RdsError::TooLong);
        }
        pieces_join();
        next_is_heard();
        self.live.is_known();
        if bytes.len() <= self.gathered.capacity() - self.gathered.len() {
            append(&mut self.gathered, bytes);
            return Ok(());
        }
        let gathered = self.gathered.as_slice();
        count_by(rt, alloc, &mut self.live, gathered, self.workers);
        self.gathered.clear();
        if bytes.len() <= self.gathered.capacity() {
            append(&mut self.gathered, bytes);
            return Ok(());
        }
        count_by(rt, alloc, &mut self.live, bytes, self.workers);
        self.live.is_still();
        Ok(())
    }

    /// The decoder, which has heard all bytes.
    pub fn into_decoder<R: Threads + Sync>(self, rt: &R, alloc: Global) -> StreamDecoder<'r>
        ensures { result ≡ self.entry }
    {
        let StreamCounter {
            live,
            workers,
            gathered,
        } = self;
        let mut live = live;
        count_by(rt, alloc, &mut live, gathered.as_slice(), workers);
        live
    }
}

/// Appends bytes for which there is room.
fn append(gathered: &mut Vec<u8>, bytes: &[u8])
    requires { length gathered.old.items + length bytes.now ≤ vec_capacity gathered.old }
    ensures { gathered.new.items ≡ gathered.old.items ++ bytes.now }
{
    let Ok(()) = gathered.extend_from_slice(bytes) else {
        unreachable!()
    };
}
