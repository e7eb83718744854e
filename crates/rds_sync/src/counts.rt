//! Counts of items that go into totals: those of blocks are added eight at a time.

ghost use Rattle.std.specs.{Prelude.◌≡◌, Prelude.◌≤◌, Prelude.◌<◌, Prelude.◌+◌, Prelude.◌*◌, Prelude.◌%◌, Prelude.◌^◌, Prelude.◌∷◌, Prelude.[], Prelude.All, Prelude.length, Prelude.sum_by, List.list_all};
ghost use Rattle.rds_sync.specs.{Counting.IsAtMost, Inside.Counts.acquired_count, Inside.Counts.count_of, Inside.Counts.group_count, Inside.Counts.in_lanes, Inside.Counts.joined, Inside.Counts.loss_count, Inside.Counts.no_count, Inside.Outcomes.bits_inverted, Inside.Outcomes.has_info, Inside.Outcomes.blocks_in, Inside.Outcomes.outcome_at};

use crate::item::Item;
use crate::totals::Totals;
use crate::words::{CLEAN, has_info, word_of_blocks};
use std::marker::Model;

/// How many items are counted at most before they are added to totals: a group adds 20 to a lane at most.
pub(crate) const MOST_ITEMS: u64 = 3004;

/// Counts of a few items: those of blocks in eight lanes of 16 bits, of groups of four valid blocks only how many there
/// are.
#[derive(Drop)]
pub(crate) struct Counts {
    blocks: u128,
    clean: u64,
    groups: u64,
    complete: u64,
    acquired: u64,
    losses: u64,
}

impl Model for Counts {
    ghost use Rattle.std.specs.Prelude.{◌≤◌, ◌+◌, ◌*◌};
    ghost use Rattle.rds_sync.specs.Inside.Counts.{AreLanes, CountOf, counted};

    ghost Value = { CountOf };

    ghost view = { λ c. counted c.blocks c.clean c.groups c.complete c.acquired c.losses };

    ghost invariant = { λ c. AreLanes c.blocks (20 * c.groups) × (c.complete ≤ c.groups)
        × (c.clean + c.groups + c.acquired + c.losses ≤ 3004) };
}

impl Counts {
    /// Nothing counted.
    pub fn none() -> Counts
        ensures { result ≡ no_count }
    {
        Counts {
            blocks: 0,
            clean: 0,
            groups: 0,
            complete: 0,
            acquired: 0,
            losses: 0,
        }
    }

    /// The counts of these items.
    pub fn of(items: &[Item]) -> Counts
        requires { length items.now ≤ 3004 }
        ensures { result ≡ count_of items.now }
    {
        let mut counts = Counts::none();
        for item in items {
            counts.add_item(item);
        }
        counts
    }

    /// How many items were counted.
    #[inline(always)]
    pub fn items(&self) -> u64
        ensures value { result ≡ self.now.items }
        ensures few { result ≤ 3004 }
    {
        self.clean + self.groups + self.acquired + self.losses
    }

    /// Counts an item.
    #[inline(always)]
    fn add_item(&mut self, item: &Item)
        requires { self.old.items < 3004 }
        ensures { self.new ≡ joined self.old (count_of (item.now ∷ [])) }
    {
        match item {
            Item::Acquired { .. } => self.add_acquired(),
            Item::Group(group) => self.add_group(word_of_blocks(&group.blocks)),
            Item::LostLock { .. } => self.add_loss(),
        }
    }

    /// Counts the group of a word.
    #[inline(always)]
    pub fn add_group(&mut self, word: u16)
        requires { self.old.items < 3004 }
        ensures { self.new ≡ joined self.old (group_count (blocks_in word)) }
    {
        if word == CLEAN {
            self.clean += 1;
        } else {
            self.add_damaged(word);
        }
    }

    /// Counts the group of a word, whatever it is.
    #[inline(always)]
    fn add_damaged(&mut self, word: u16)
        requires { self.old.items < 3004 }
        ensures { self.new ≡ joined self.old (group_count (blocks_in word)) }
    {
        self.blocks += lanes_of_word(word);
        self.groups += 1;
        self.complete += u64::from(is_complete(word));
    }

    /// Counts an acquisition.
    #[inline(always)]
    pub fn add_acquired(&mut self)
        requires { self.old.items < 3004 }
        ensures { self.new ≡ joined self.old acquired_count }
    {
        self.acquired += 1;
    }

    /// Counts a loss.
    #[inline(always)]
    pub fn add_loss(&mut self)
        requires { self.old.items < 3004 }
        ensures { self.new ≡ joined self.old loss_count }
    {
        self.losses += 1;
    }

    /// The totals of the items that were counted.
    pub fn totals(&self) -> Totals
        ensures value { result ≡ self.now.totals }
        ensures small { IsAtMost (2 ^ 10 * self.now.items) result }
    {
        Totals {
            valid: lowest(self.blocks) + 4 * self.clean,
            bursts: [
                lowest(self.blocks / (1 << 16)),
                lowest(self.blocks / (1 << 32)),
                lowest(self.blocks / (1 << 48)),
                lowest(self.blocks / (1 << 64)),
                lowest(self.blocks / (1 << 80)),
            ],
            lost: lowest(self.blocks / (1 << 96)),
            bits: lowest(self.blocks / (1 << 112)),
            groups: self.groups + self.clean,
            complete: self.complete + self.clean,
            acquired: self.acquired,
            losses: self.losses,
        }
    }
}

/// The lowest lane.
fn lowest(lanes: u128) -> u64
    ensures { result ≡ lanes % 65536 }
{
    (lanes % 65536) as u64
}

/// Whether each block of a word is valid or corrected.
#[inline(always)]
fn is_complete(word: u16) -> bool
    ensures { result ≡ list_all has_info (blocks_in word) }
{
    has_info(word % 16)
        && has_info(word / 16 % 16)
        && has_info(word / 256 % 16)
        && has_info(word / 4096)
}

/// The counts of the blocks of a word.
#[inline(always)]
fn lanes_of_word(word: u16) -> u128
    ensures value { result ≡ sum_by in_lanes (blocks_in word) }
    ensures few { All (λ o. bits_inverted o ≤ 5) (blocks_in word) }
    ensures small { result < 2 ^ 117 }
{
    lanes(word % 16) + lanes(word / 16 % 16) + lanes(word / 256 % 16) + lanes(word / 4096)
}

/// The counts of the block that came out as these four bits say: from a table, since no branch foresees damage.
#[inline(always)]
fn lanes(nibble: u16) -> u128
    requires { nibble < 16 }
    ensures value { result ≡ in_lanes (outcome_at nibble) }
    ensures bits { bits_inverted (outcome_at nibble) ≤ 5 }
    ensures small { result < 2 ^ 115 }
{
    BY_NIBBLE[nibble as usize]
}

/// Counts of a block, 16 bits each from the lowest on: valid, corrected by the span of its burst from 1 to 5, lost, and
/// the bits corrected.
static BY_NIBBLE: [u128; 16] = [
    0,
    1,
    1 << 96,
    1 << 112 | 1 << 16,
    2 << 112 | 1 << 32,
    2 << 112 | 1 << 48,
    3 << 112 | 1 << 48,
    2 << 112 | 1 << 64,
    3 << 112 | 1 << 64,
    4 << 112 | 1 << 64,
    2 << 112 | 1 << 80,
    3 << 112 | 1 << 80,
    4 << 112 | 1 << 80,
    5 << 112 | 1 << 80,
    0,
    0,
];
