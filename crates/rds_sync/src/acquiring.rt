//! How sync is acquired, and the items of an acquisition.

ghost use Rattle.std.specs.Prelude.{◌≡◌, ◌≤◌, ◌<◌, ◌+◌, ◌-◌, ◌*◌, ◌%◌, ◌^◌, ◌==◌, ◌∷◌, IfSome, Option, None, Some, false, option_map};
ghost use Rattle.std.specs.List.{list_any, range_with_len};
ghost use Rattle.rds_code.specs.declared.offset.Offset.{Offset};
ghost use Rattle.rds_stream.specs.Recording.{Signal, length_of, heard, offset_at};
ghost use Rattle.rds_sync.specs.{Acquiring.acquired, Acquiring.has_partner, Acquiring.is_in_step, Advance.items_in, Groups.group, Inside.Searches.FindsFirst, Step.lock_after, Step.completed_group, declared.item.Item.TheVariants.Acquired};

use crate::item::{Block, Group, Item};
use crate::lock::{BLOCK_PLACES, Lock};
use crate::loss::NONE_BAD;
use crate::rules::Rules;
use rds_code::{BlockNumber, Offset, Wanted};
use rds_stream::{FIRST_WINDOW, Recording, Tape, ValidWindows, offset_heard};

/// A block that acquires: the place at which it ends, its number, and the window heard there.
#[derive(Clone, Copy)]
pub(crate) struct Acquisition {
    pub place: u64,
    pub number: BlockNumber,
    pub heard: Option<u32>,
}

impl Acquisition {
    /// The lock that begins with it.
    pub fn lock(&self) -> Lock
        requires { self.now.place < 2 ^ 36 }
        ensures { result ≡ lock_after self.now.place self.now.number 0 self.now.number }
    {
        let number = self.number.get();
        Lock::after_block(self.place, number, NONE_BAD, number)
    }

    /// The items of its bit: itself, and as block 4 the group that it closes as its only block.
    #[tactic(auto, using(crate::proofs::Lemmas::acquired_items))]
    pub fn items(&self, rules: &Rules) -> [Option<Item>; 2]
        requires block { (25 ≤ self.now.place) × IfSome self.now.heard (λ window. window < 2 ^ 26) }
        ensures { (b : Signal) → self.now.heard ≡ heard b self.now.place → items_in result
            ≡ Acquired self.now.place self.now.number
            ∷ completed_group b rules.now self.now.number self.now.number self.now.place }
    {
        let number = self.number.get();
        let acquired = Item::Acquired {
            place: self.place,
            number,
        };
        if number == 4 {
            [Some(acquired), Some(Item::Group(self.group(rules)))]
        } else {
            [Some(acquired), None]
        }
    }

    /// The group with only this block, as its block 4.
    fn group(&self, rules: &Rules) -> Group
        requires block { (25 ≤ self.now.place) × IfSome self.now.heard (λ window. window < 2 ^ 26) }
        ensures { (b : Signal) → self.now.heard ≡ heard b self.now.place
            → result ≡ group b rules.now 4 4 self.now.place }
    {
        let last = Block::Read(rules.read(self.heard, BlockNumber::FOUR, Wanted::Either));
        let blocks = [Block::Missing, Block::Missing, Block::Missing, last];
        Group::of_blocks(self.place - FIRST_WINDOW, blocks)
    }
}

/// Whether an offset, `distance` blocks before a block of this number, is in step with it.
fn is_in_step(offset: Option<Offset>, number: BlockNumber, distance: u32) -> bool
    requires { distance ≤ 8 }
    ensures { result ≡ is_in_step offset number distance }
{
    match offset {
        Some(offset) => {
            (u32::from(offset.number().get()) - 1 + distance) % 4 + 1 == u32::from(number.get())
        }
        None => false,
    }
}

/// Whether and how a place acquires: as a valid block with a partner.
#[tactic(auto, using(crate::proofs::Lemmas::acquiring))]
pub(crate) fn acquire<T: Tape>(tape: &mut T, rules: &Rules, place: u64) -> Option<Acquisition>
    requires within { place < length_of (T.signal tape.old) }
    requires counted { T.reads_made tape.old + 16 ≤ 2 ^ 63 }
    ensures number { option_map (λ found. found.number) result
        ≡ acquired (T.signal tape.old) rules.now place }
    ensures place { IfSome result (λ found. found.place ≡ place) }
    ensures heard { IfSome result (λ found. found.heard ≡ heard (T.signal tape.old) place) }
    ensures block { IfSome result (λ found. (25 ≤ place) × IfSome found.heard (λ window. window < 2 ^ 26)) }
    ensures same { T.signal tape.new ≡ T.signal tape.old }
    ensures reads { T.reads_made tape.new ≤ T.reads_made tape.old + (rules.now.reach + 1) }
{
    if place < FIRST_WINDOW {
        return None;
    }
    let heard = tape.window(place);
    let Some(offset) = offset_heard(heard) else {
        return None;
    };
    let number = offset.number();
    if has_partner(tape, rules, place, number) {
        Some(Acquisition {
            place,
            number,
            heard,
        })
    } else {
        None
    }
}

/// Whether a block of this number at a place has a partner within reach.
#[tactic(auto, using(crate::proofs::Lemmas::partners))]
fn has_partner<T: Tape>(tape: &mut T, rules: &Rules, place: u64, number: BlockNumber) -> bool
    requires within { place < length_of (T.signal tape.old) }
    requires counted { T.reads_made tape.old + 8 ≤ 2 ^ 63 }
    ensures value { result
        ≡ list_any (has_partner (T.signal tape.old) place number) (range_with_len 1 rules.now.reach) }
    ensures same { T.signal tape.new ≡ T.signal tape.old }
    ensures reads { T.reads_made tape.new ≤ T.reads_made tape.old + rules.now.reach }
    ensures few { T.reads_made tape.new ≤ T.reads_made tape.old + 8 }
{
    for distance in 1..rules.reach() + 1 {
        if is_partner(tape, place, number, distance) {
            return true;
        }
    }
    false
}

/// Whether the window `distance` blocks back is valid, with the number that a block there has.
fn is_partner<T: Tape>(tape: &mut T, place: u64, number: BlockNumber, distance: u32) -> bool
    requires distance { distance ≤ 8 }
    requires within { place < length_of (T.signal tape.old) }
    requires counted { T.reads_made tape.old < 2 ^ 63 }
    ensures value { result ≡ has_partner (T.signal tape.old) place number distance }
    ensures same { T.signal tape.new ≡ T.signal tape.old }
    ensures reads { T.reads_made tape.new ≤ T.reads_made tape.old + 1 }
{
    let before = place.saturating_sub(BLOCK_PLACES * u64::from(distance));
    is_in_step(offset_at(tape, before), number, distance)
}

/// The offset of the window at a place, if it is valid; there is no window before place 25.
#[tactic(auto, using(crate::proofs::Lemmas::offset_there))]
fn offset_at<T: Tape>(tape: &mut T, place: u64) -> Option<Offset>
    requires within { place < length_of (T.signal tape.old) }
    requires counted { T.reads_made tape.old < 2 ^ 63 }
    ensures value { result ≡ offset_at (T.signal tape.old) place }
    ensures same { T.signal tape.new ≡ T.signal tape.old }
    ensures reads { T.reads_made tape.new ≤ T.reads_made tape.old + 1 }
{
    if place < FIRST_WINDOW {
        None
    } else {
        offset_heard(tape.window(place))
    }
}

/// The next valid window that acquires, with its place and its offset.
#[inline(always)]
pub(crate) fn next_acquiring(
    windows: &mut ValidWindows<'_>,
    rec: &Recording,
    rules: &Rules,
) -> Option<(u64, Offset)>
    requires source { windows.old.signal ≡ rec.now }
    requires end { windows.old.end ≤ length_of rec.now }
    ensures { FindsFirst rules.now windows.old result windows.new }
{
    while let Some((here, offset)) = windows.next() {
        // A window is valid by chance at one place in two hundred: so its partners are looked up in
        // the recording, and the search keeps none of the windows after it.
        if has_partner_in(rec, rules, here, offset.number()) {
            return Some((here, offset));
        }
    }
    None
}

/// Whether a block of this number at a place of a recording has a partner within reach.
#[tactic(auto, using(crate::proofs::Lemmas::partners))]
fn has_partner_in(rec: &Recording, rules: &Rules, place: u64, number: BlockNumber) -> bool
    requires { place < length_of rec.now }
    ensures { result ≡ list_any (has_partner rec.now place number) (range_with_len 1 rules.now.reach) }
{
    for distance in 1..rules.reach() + 1 {
        if is_partner_in(rec, place, number, distance) {
            return true;
        }
    }
    false
}

/// Whether the window `distance` blocks back is valid, with the number that a block there has.
#[tactic(auto, using(crate::proofs::Lemmas::is_partner_in))]
fn is_partner_in(rec: &Recording, place: u64, number: BlockNumber, distance: u32) -> bool
    requires distance { distance ≤ 8 }
    requires within { place < length_of rec.now }
    ensures { result ≡ has_partner rec.now place number distance }
{
    let before = place.saturating_sub(BLOCK_PLACES * u64::from(distance));
    before >= FIRST_WINDOW && is_in_step(rec.offset(before), number, distance)
}
