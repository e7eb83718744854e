ghost use Rattle.std.specs.Prelude.{◌≡◌, ◌^◌, ◌<◌, ◌≤◌, bit_xor, IfOk, IsOkUnless};
ghost use Rattle.rds_code.specs.{Inside.Outcomes.AreEntries, Inside.Outcomes.IsEntry, Inside.Outcomes.IsOutcome, Inside.Outcomes.wanted_at, Outcomes.outcome_number, Outcomes.wanted_after, Offsets.word, declared.offset.Offset.TheVariants.B, declared.reading.Wanted.TheVariants.Either, Reading.reading, Remainder.rem};

use crate::block_number::BlockNumber;
use crate::burst_limit::BurstLimit;
use crate::burst_table::BurstTable;
use crate::error::RdsError;
use crate::offset::Offset;
use crate::reading::Wanted;
use crate::remainder::rem26;
use crate::thirds::third;
use std::alloc::{AllocError, Global};
use std::marker::Model;

/// How many remainders there are.
const REMAINDERS: u16 = 1024;

/// The unit of turns in an entry, whose outcome is below it.
const TURN: u8 = 16;

/// The outcomes of blocks, with bursts of up to a limit corrected: valid, lost, or corrected by a burst of some length
/// with a number of wrong bits. [`read_block`](crate::read_block) tells the information word too, and takes longer if
/// a block is damaged: this asks a table, with no branch that depends on damage. Contracts see the limit.
#[derive(Drop)]
pub struct Outcomes {
    /// By the sum of a remainder and an offset word: the outcome, and the turn in units of [`TURN`].
    entries: Vec<u8>,
    limit: BurstLimit,
}

impl Model for Outcomes {
    ghost use Rattle.std.specs.Prelude.{ℕ};
    ghost use Rattle.rds_code.specs.Inside.Outcomes.{AreEntries};

    ghost Value = { ℕ };

    ghost view = { λ k. k.limit };

    ghost invariant = { λ k. AreEntries k.limit k.entries.items };
}

impl Outcomes {
    /// The outcome of a valid block.
    pub const VALID: u8 = 1;

    /// The outcome of a lost block.
    pub const LOST: u8 = 2;

    /// The outcomes if bursts within `limit` are corrected. Takes 1,024 bytes, and fails only with
    /// `OutOfMemory`.
    pub fn new(alloc: Global, table: &BurstTable, limit: BurstLimit) -> Result<Outcomes, RdsError>
        ensures limit { IfOk result (λ outcomes. outcomes ≡ limit) }
        ensures only_memory { IsOkUnless result RdsError.OutOfMemory }
    {
        let entries = all_entries(alloc, table, limit)?;
        Ok(Outcomes { entries, limit })
    }

    /// The bursts that are corrected.
    #[inline(always)]
    pub fn limit(&self) -> BurstLimit
        ensures { result ≡ self.now }
    {
        self.limit
    }

    /// The outcome of the window `w`, a 26-bit word, read as block `number`: 1 if it is valid, 2 if it is lost,
    /// and 3 to 13 by the burst that is corrected.
    #[inline(always)]
    pub fn of_block(&self, w: u32, number: BlockNumber, wanted: Wanted) -> u8
        requires { w < 2 ^ 26 }
        ensures value { result ≡ outcome_number (reading w number wanted self.now) }
        ensures most { result ≤ 13 }
    {
        let remainder = rem26(w);
        match number.get() {
            1 => self.with(remainder, Offset::A),
            2 => self.with(remainder, Offset::B),
            3 => {
                let version_a = self.with(remainder, Offset::C);
                let version_b = self.with(remainder, Offset::Cx);
                third(version_a, version_b, wanted)
            }
            _ => self.with(remainder, Offset::D),
        }
    }

    /// The offsets that are tried for block 3 after the window `w`, a 26-bit word, as block 2.
    #[inline(always)]
    pub fn wanted_after(&self, w: u32) -> Wanted
        requires { w < 2 ^ 26 }
        ensures { result ≡ wanted_after (reading w 2 Either self.now) }
    {
        let turn = self.entry(rem26(w), Offset::B) / TURN;
        wanted_at(turn ^ (w >> 21 & 1) as u8)
    }

    /// The outcome of a window of this remainder, read with this offset.
    #[inline(always)]
    fn with(&self, remainder: u16, offset: Offset) -> u8
        requires { remainder < 1024 }
        ensures outcome { IsOutcome self.now (bit_xor remainder (word offset)) result }
        ensures most { result ≤ 13 }
        ensures few { self.now ≤ 5 }
    {
        self.entry(remainder, offset) % TURN
    }

    /// The entry of a window of this remainder, read with this offset.
    #[inline(always)]
    fn entry(&self, remainder: u16, offset: Offset) -> u8
        requires { remainder < 1024 }
        ensures entry { IsEntry self.now (bit_xor remainder (word offset)) result }
        ensures few { self.now ≤ 5 }
    {
        prove!(self.limit.bits() <= 5);
        self.entries[sum_with(remainder, offset) as usize]
    }
}

/// The sum of a remainder and an offset word.
#[inline(always)]
fn sum_with(remainder: u16, offset: Offset) -> u16
    requires { remainder < 1024 }
    ensures value { result ≡ bit_xor remainder (word offset) }
    ensures small { result < 1024 }
{
    remainder ^ offset.word()
}

/// The offsets that are tried for version 0, which is A, for version 1, which is B, and for none.
#[inline(always)]
fn wanted_at(version: u8) -> Wanted
    ensures { result ≡ wanted_at version }
{
    match version {
        0 => Wanted::OnlyC,
        1 => Wanted::OnlyCx,
        _ => Wanted::Either,
    }
}

/// The entries by all remainders.
fn all_entries(alloc: Global, table: &BurstTable, limit: BurstLimit) -> Result<Vec<u8>, AllocError>
    ensures { IfOk result (λ entries. AreEntries limit entries.items) }
{
    let mut entries = Vec::with_capacity(alloc, REMAINDERS as usize)?;
    for remainder in 0..REMAINDERS {
        entries.push_reserved(entry(table, remainder, limit));
    }
    Ok(entries)
}

/// The entry by one remainder: its outcome, and how the correction of a block 2 turns its version bit: 1 if it inverts
/// it, 0 if not, 2 if the block is lost.
fn entry(table: &BurstTable, remainder: u16, limit: BurstLimit) -> u8
    requires { remainder < 1024 }
    ensures { IsEntry limit remainder result }
{
    match table.find(remainder, limit) {
        Some(burst) => burst.outcome() + TURN * (burst.pattern() >> 21 & 1) as u8,
        None if remainder == 0 => Outcomes::VALID,
        None => Outcomes::LOST + 2 * TURN,
    }
}
