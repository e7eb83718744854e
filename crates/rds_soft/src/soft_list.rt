//! Items that were read again, in little room.
ghost use Rattle.std.specs.Prelude.{◌≡◌, ◌<◌, ◌==◌, ◌++◌, ◌∷◌, ◌+◌, ◌^◌, ℕ, List, [], IfSome, None, OnErr, OnOk, length, slice_index_or};
ghost use Rattle.rds_soft.specs.{SoftLists.item_of, SoftLists.valid_group, declared.soft_item.SoftItem.SoftItem as AnItem, declared.soft_item.SoftItem.TheVariants.Group as InSoft, declared.soft_list.ValidGroup.ValidGroup as AGroup};
ghost use Rattle.rds_soft.specs.declared.soft_list.Listed.TheVariants as AListed;

use crate::soft_item::SoftItem;
use std::alloc::{AllocError, Global};
use std::marker::Model;

/// A group whose four blocks are valid, and whose block 3 has the offset of the version that block 2 names, as most groups are.
#[derive(Clone, Copy)]
pub struct ValidGroup {
    /// The place of the first bit of block 1.
    pub place: u64,
    /// The information words of blocks 1 to 4.
    pub words: [u16; 4],
}

/// An item of a list.
#[derive(Clone, Copy)]
pub enum Listed {
    Valid(ValidGroup),
    /// An acquisition, a loss or a group.
    Other(SoftItem),
}

/// No group is at this place or at a later one: an entry there names an item by its number among the others.
const NO_PLACE: u64 = 1 << 63;

/// Items that were read again, in order. A valid group takes 16 bytes, and any other item 16 more than a [`SoftItem`]. Contracts see
/// the items.
#[derive(Drop)]
pub struct SoftList {
    /// The valid groups, and in place of each other item one that names it.
    entries: Vec<ValidGroup>,
    others: Vec<SoftItem>,
}

impl Model for SoftList {
    ghost use Rattle.std.specs.Prelude.{List, All, length};
    ghost use Rattle.rds_soft.specs.declared.soft_item.SoftItem.{SoftItem};
    ghost use Rattle.rds_soft.specs.Inside.Lists.{IsAmong, items_at};

    ghost Value = { List SoftItem };

    ghost view = { λ s. items_at s.others.items s.entries.items };

    ghost invariant = { λ s. All (IsAmong (length s.others.items)) s.entries.items };
}

impl SoftList {
    /// No items. Takes no memory.
    pub fn new(alloc: Global) -> SoftList
        ensures { result ≡ [] }
    {
        SoftList {
            entries: Vec::new(alloc),
            others: Vec::new(alloc),
        }
    }

    /// How many items there are.
    pub fn len(&self) -> usize
        ensures { result ≡ length self.now }
    {
        self.entries.len()
    }

    /// Whether there is none.
    pub fn is_empty(&self) -> bool
        ensures { result ≡ (length self.now == 0) }
    {
        self.entries.is_empty()
    }

    /// Item number `i`, the first of which is 0.
    #[inline(always)]
    pub fn get(&self, i: usize) -> Listed
        requires { i < length self.now }
        ensures value { (other : AnItem) → item_of result ≡ slice_index_or self.now i other }
        ensures early { (group : AGroup) → result ≡ AListed.Valid group → group.place < 2 ^ 63 }
    {
        let entry = self.entries[i];
        if entry.place < NO_PLACE {
            Listed::Valid(entry)
        } else {
            Listed::Other(self.others[(entry.place - NO_PLACE) as usize])
        }
    }

    /// Appends a group of four valid blocks.
    #[inline(always)]
    pub(crate) fn push_valid(&mut self, group: ValidGroup) -> Result<(), AllocError>
        requires { group.place < 2 ^ 63 }
        ensures { OnOk result (self.new ≡ self.old ++ InSoft (valid_group group) ∷ []) }
    {
        Ok(self.entries.push(group)?)
    }

    /// Appends any item. Refused memory, it leaves the list as it was.
    #[tactic(auto, using(crate::proofs::ListLemmas::items_stay))]
    pub fn push(&mut self, item: SoftItem) -> Result<(), AllocError>
        ensures appended { OnOk result (self.new ≡ self.old ++ item ∷ []) }
        ensures refused { OnErr result (self.new ≡ self.old) }
    {
        let place = NO_PLACE + self.others.len() as u64;
        self.others.push(item)?;
        Ok(
            self.entries.push(ValidGroup {
                place,
                words: [0; 4],
            })?,
        )
    }

    /// Appends the items of another list. Fails only if memory is refused: the first of them may then be appended.
    #[tactic(auto, using(crate::proofs::ListLemmas::one_appended))]
    pub fn append(&mut self, more: &SoftList) -> Result<(), AllocError>
        ensures { OnOk result (self.new ≡ self.old ++ more.now) }
    {
        for i in 0..more.len() {
            match more.get(i) {
                Listed::Valid(group) => self.push_valid(group)?,
                Listed::Other(item) => self.push(item)?,
            }
        }
        Ok(())
    }
}
