//! Totals that are counted while the bytes of a recording come.
ghost use Rattle.std.specs.Prelude.{◌++◌, ◌-◌, ◌<◌, ◌^◌, ◌≡◌, ◌≤◌, [], IfErr, IfOk, IsOkUnless, Some, false, length, slice_index};
ghost use Rattle.rds_stream.specs.Recording.{AreGaps, Signal};
ghost use Rattle.rds_sync.specs.Report.{report_items};
ghost use Rattle.rds_sync.specs.Totals.{totals_of};
ghost use Rattle.rds_tool.specs.Input.{claimed, first_bits, recording_of};
ghost use Rattle.rds_code.specs.Refusals.{IsMemoryOrErrOf};
ghost use Rattle.rds_tool.specs.Inside.Counters.{claimed_by, whole};

use crate::Input;
use crate::following::end_after;
use crate::input::decode_digits;
use crate::listing::totals_rows;
use crate::taker::Taker;
use crate::task::Text;
use rds_code::RdsError;
use rds_live::{StreamCounter, StreamDecoder};
use rds_stream::{MOST_BITS, Trace};
use rds_sync::{Rules, Totals};
use std::alloc::{AllocError, Global};
use std::marker::Model;
use std::thread::Threads;

/// A decoder that counts over the first bits of a recording, whose bytes come chunk by chunk: `bits` of them, or all.
#[derive(Drop)]
struct Counter<'a> {
    live: StreamCounter<'a>,
    bits: Option<u64>,
    /// How many bytes came.
    count: u64,
    /// The byte in which the bits end, once it came, if they end inside one.
    last: u8,
    bytes: Trace,
}

impl<'a> Model for Counter<'a> {
    ghost use Rattle.rds_tool.specs.Inside.Counters.{CounterOf, IsCounter};

    ghost Value = { CounterOf };

    ghost view = { λ c. record { terms = c.live.terms; bits = c.bits; bytes = c.bytes.bytes } };

    ghost invariant = { λ c. IsCounter c.live c.bits c.count c.last c.bytes.bytes };
}

impl<'a> Counter<'a> {
    /// Nothing was heard yet. Up to this number of workers count.
    fn new(
        alloc: Global,
        rules: &'a Rules,
        gaps: &'a [(u64, u64)],
        bits: Option<u64>,
        workers: u32,
    ) -> Result<Counter<'a>, RdsError>
        requires { AreGaps (2 ^ 36) gaps.now }
        ensures new { IfOk result (λ counter. counter
            ≡ record { terms = record { rules = rules.now; gaps = gaps.now }; bits = bits; bytes = [] }) }
        ensures refused { IsOkUnless result RdsError.OutOfMemory }
    {
        let Ok(live) = StreamDecoder::with_gaps(alloc, rules, gaps) else {
            return Err(RdsError::OutOfMemory);
        };
        Ok(Counter {
            live: StreamCounter::new(alloc, live, workers)?,
            bits,
            count: 0,
            last: 0,
            bytes: Trace::new(),
        })
    }

    /// Hears these bytes too.
    fn hear<R: Threads + Sync>(&mut self, rt: &R, alloc: Global, bytes: &[u8])
        ensures { self.new ≡ record self.old { bytes = self.old.bytes ++ bytes.now } }
    {
        let whole = whole_bytes(self.bits);
        let room = whole.saturating_sub(self.count).min(bytes.len() as u64);
        match self.live.count(rt, alloc, &bytes[..room as usize]) {
            Ok(()) => {}
            Err(_) => unreachable!(),
        }
        self.last = byte_at(whole, self.count, self.last, bytes);
        self.count = self.count.saturating_add(bytes.len() as u64);
        self.bytes.note(bytes);
    }

    /// The totals of the recording, whose bytes have all come.
    fn finish<R: Threads + Sync>(self, rt: &R, alloc: Global) -> Result<Totals, RdsError>
        ensures totals { IfOk result (λ totals. (recording : Signal)
            × (first_bits (claimed self.entry.bits self.entry.bytes) self.entry.terms.gaps self.entry.bytes ≡ Ok recording)
            × (totals ≡ totals_of (report_items recording self.entry.terms.rules))) }
        ensures refused { IfErr result (IsMemoryOrErrOf
            (first_bits (claimed self.entry.bits self.entry.bytes) self.entry.terms.gaps self.entry.bytes)) }
    {
        let bits = claimed_bits(self.bits, self.count);
        if bits > MOST_BITS {
            return Err(RdsError::TooLong);
        }
        if self.count < bits.div_ceil(8) {
            return Err(RdsError::BitsPastBytes);
        }
        let live = self.live.into_decoder(rt, alloc);
        let left = bits - live.place();
        let ended = end_after(alloc, live, &[self.last], left)?;
        Ok(ended.1.totals)
    }
}

/// How many whole bytes the bits have that are counted.
fn whole_bytes(bits: Option<u64>) -> u64
    ensures value { result ≡ whole bits }
    ensures few { result ≤ 2 ^ 33 }
{
    bits.unwrap_or(MOST_BITS).min(MOST_BITS) / 8
}

/// How many bits are claimed of this number of bytes.
fn claimed_bits(bits: Option<u64>, count: u64) -> u64
    ensures { result ≡ claimed_by bits count }
{
    bits.unwrap_or(count.saturating_mul(8))
}

/// The byte at a place, when these bytes came after `count` others, of which `last` is it if the place is below `count`.
fn byte_at(place: u64, count: u64, last: u8, bytes: &[u8]) -> u8
    ensures kept { place < count → result ≡ last }
    ensures new { count ≤ place → place - count < length bytes.now
        → result ≡ slice_index bytes.now (place - count) }
{
    if count <= place && place - count < bytes.len() as u64 {
        bytes[(place - count) as usize]
    } else {
        last
    }
}

/// A counter of the recording that an input denotes, whose text or bytes come chunk by chunk.
#[derive(Drop)]
pub struct InputCounter<'a> {
    counter: Counter<'a>,
    hex: bool,
    /// The first digit of a byte whose second has not come.
    half: Option<u8>,
    /// Whether a byte came that is neither a digit nor a blank.
    strange: bool,
    text: Trace,
}

impl<'a> Model for InputCounter<'a> {
    ghost use Rattle.rds_tool.specs.Inside.Counters.{InputCounterOf, IsTextOf};

    ghost Value = { InputCounterOf };

    ghost view = { λ c. record {
      input = record { hex = c.hex; bits = c.counter.bits; gaps = c.counter.terms.gaps };
      rules = c.counter.terms.rules;
      text = c.text.bytes;
    } };

    ghost invariant = { λ c. IsTextOf c.hex c.half c.strange c.text.bytes c.counter.bytes };
}

impl<'a> InputCounter<'a> {
    /// Nothing came yet. Up to this number of workers count.
    pub fn new(
        alloc: Global,
        input: &'a Input,
        rules: &'a Rules,
        workers: u32,
    ) -> Result<InputCounter<'a>, RdsError>
        requires { AreGaps (2 ^ 36) input.now.gaps }
        ensures new { IfOk result (λ counter. counter
            ≡ record { input = input.now; rules = rules.now; text = [] }) }
        ensures refused { IsOkUnless result RdsError.OutOfMemory }
    {
        Ok(InputCounter {
            counter: Counter::new(alloc, rules, input.gaps.as_slice(), input.bits, workers)?,
            hex: input.hex,
            half: None,
            strange: false,
            text: Trace::new(),
        })
    }

    /// The totals of the recording, all of which has come.
    fn totals<R: Threads + Sync>(self, rt: &R, alloc: Global) -> Result<Totals, RdsError>
        ensures totals { IfOk result (λ totals. (recording : Signal)
            × (recording_of self.entry.input self.entry.text ≡ Ok recording)
            × (totals ≡ totals_of (report_items recording self.entry.rules))) }
        ensures refused { IfErr result (IsMemoryOrErrOf (recording_of self.entry.input self.entry.text)) }
    {
        if self.strange || self.half.is_some() {
            return Err(RdsError::HexText);
        }
        self.counter.finish(rt, alloc)
    }
}

impl<'t> Taker<'t> for InputCounter<'_> {
    ghost use Rattle.rds_tool.specs.Inside.Counters.{text_of_counted};

    ghost taken = { λ counter. counter.text };

    ghost text = { λ counter. text_of_counted counter.input counter.rules };

    fn take<R: Threads + Sync>(
        &mut self,
        rt: &R,
        alloc: Global,
        bytes: &mut [u8],
    ) -> Result<(), AllocError> {
        self.text.note(bytes);
        if !self.hex {
            self.counter.hear(rt, alloc, bytes);
            return Ok(());
        }
        if self.strange {
            return Ok(());
        }
        match decode_digits(bytes, self.half) {
            Ok((count, half)) => {
                self.counter.hear(rt, alloc, &bytes[..count]);
                self.half = half;
            }
            Err(_) => self.strange = true,
        }
        Ok(())
    }

    fn finish<R: Threads + Sync>(self, rt: &R, alloc: Global) -> Result<Text<'t>, RdsError> {
        let totals = self.totals(rt, alloc)?;
        Ok(Text::Whole(totals_rows(alloc, &totals)?))
    }
}
