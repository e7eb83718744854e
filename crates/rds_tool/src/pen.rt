//! The rows of groups and windows, stored eight bytes at a time.
ghost use Rattle.std.specs.Prelude.{◌+◌, ◌++◌, ◌≡◌, ◌≤◌, ◌∷◌, length};
ghost use Rattle.csv.specs.Writing.{default_writer, row_text};
ghost use Rattle.rds_code.specs.Offsets.{name};
ghost use Rattle.rds_sync.specs.declared.item.Item.TheVariants as AnItem;
ghost use Rattle.rds_soft.specs.SoftLists.{third_offset, valid_group};
ghost use Rattle.rds_sync.specs.Groups.{version_of_bit};
ghost use Rattle.rds_soft.specs.declared.soft_item.SoftItem.TheVariants as ASoftItem;
ghost use Rattle.rds_tool.specs.{Soft.soft_block_text, Soft.soft_row, Listing.block_text, Listing.hex_digits, Listing.item_fields, Listing.item_row, Listing.kind_text, Listing.version_text, Listing.window_row, Listing.word_text, Inside.RowWriter.IsPlain};

use crate::digits::{mask_digits, word_digits};
use crate::page::Page;
use rds_code::{Offset, Reading};
use rds_soft::{SoftBlock, SoftGroup, SoftReading, ValidGroup, mask_of};
use rds_sync::{Block, Group, Version};

impl Page {
    /// Appends the row of a group, which is the record that `csv` writes of its fields.
    #[inline(always)]
    pub fn push_group(&mut self, group: &Group)
        requires { length self.old + 168 ≤ 8192 }
        ensures text { self.new ≡ self.old ++ item_row (AnItem.Group group.now) }
        ensures record { self.new ≡ self.old
            ++ row_text default_writer (item_fields (AnItem.Group group.now)) }
        ensures short { length self.new ≤ length self.old + 168 }
    {
        self.put(*b"group,\0\0", 6);
        self.put_number(group.place);
        self.put_kind(group.kind);
        self.put_version(group.version, group.conflict);
        let [one, two, three, four] = &group.blocks;
        self.put_block(one);
        self.put_block(two);
        self.put_block(three);
        self.put_block(four);
        self.put_byte(b'\n');
    }

    /// Appends the row of a group that was read again.
    pub fn push_soft_group(&mut self, group: &SoftGroup)
        requires { length self.old + 168 ≤ 8192 }
        ensures text { self.new ≡ self.old ++ soft_row (ASoftItem.Group group.now) }
        ensures short { length self.new ≤ length self.old + 168 }
    {
        count_four(&group.blocks);
        self.put(*b"group,\0\0", 6);
        self.put_number(group.place);
        self.put_kind(group.kind);
        self.put_version(group.version, group.conflict);
        let [one, two, three, four] = &group.blocks;
        self.put_soft_block(one);
        self.put_soft_block(two);
        self.put_soft_block(three);
        self.put_soft_block(four);
        self.put_byte(b'\n');
    }

    /// Appends the row of a group of four valid blocks.
    #[inline(always)]
    pub fn push_valid_group(&mut self, group: &ValidGroup)
        requires { length self.old + 168 ≤ 8192 }
        ensures text { self.new ≡ self.old ++ soft_row (ASoftItem.Group (valid_group group.now)) }
        ensures short { length self.new ≤ length self.old + 168 }
    {
        let [one, two, three, four] = group.words;
        let (version, third) = version_and_third(two);
        self.put(*b"group,\0\0", 6);
        self.put_number(group.place);
        self.put_kind(Some((two >> 12) as u8));
        self.put_version(version, false);
        self.put_word(Offset::A, one);
        self.put_word(Offset::B, two);
        self.put_word(third, three);
        self.put_word(Offset::D, four);
        self.put_byte(b'\n');
    }

    /// Appends the row of a valid window.
    #[inline(always)]
    pub fn push_window(&mut self, place: u64, offset: Offset)
        requires { length self.old + 168 ≤ 8192 }
        ensures text { self.new ≡ self.old ++ window_row (place, offset) }
        ensures short { length self.new ≤ length self.old + 32 }
    {
        self.put_number(place);
        self.put_name(offset);
        self.put_byte(b'\n');
    }

    /// Appends a comma and the name of an offset.
    #[inline(always)]
    fn put_name(&mut self, offset: Offset)
        requires { length self.old + 8 ≤ 8192 }
        ensures text { self.new ≡ self.old ++ 44 ∷ name offset }
        ensures short { length self.new ≤ length self.old + 3 }
    {
        match offset {
            Offset::A => self.put(*b",A\0\0\0\0\0\0", 2),
            Offset::B => self.put(*b",B\0\0\0\0\0\0", 2),
            Offset::C => self.put(*b",C\0\0\0\0\0\0", 2),
            Offset::Cx => self.put(*b",Cx\0\0\0\0\0", 3),
            Offset::D => self.put(*b",D\0\0\0\0\0\0", 2),
        }
    }

    /// Appends a comma and a group's type, if it is known.
    #[inline(always)]
    #[tactic(auto, using(crate::proofs::RowText::field_steps))]
    fn put_kind(&mut self, kind: Option<u8>)
        requires { length self.old + 8 ≤ 8192 }
        ensures text { self.new ≡ self.old ++ 44 ∷ kind_text kind }
        ensures plain { IsPlain (kind_text kind) }
        ensures short { length self.new ≤ length self.old + 4 }
    {
        match kind {
            None => self.put(*b",-\0\0\0\0\0\0", 2),
            Some(kind) => {
                let ones = b'0' + kind % 10;
                let tens = b'0' + kind / 10 % 10;
                if kind < 10 {
                    self.put([b',', ones, 0, 0, 0, 0, 0, 0], 2)
                } else if kind < 100 {
                    self.put([b',', tens, ones, 0, 0, 0, 0, 0], 3)
                } else {
                    let hundreds = b'0' + kind / 10 / 10 % 10;
                    self.put([b',', hundreds, tens, ones, 0, 0, 0, 0], 4)
                }
            }
        }
    }

    /// Appends a comma and a group's version.
    #[inline(always)]
    fn put_version(&mut self, version: Version, conflict: bool)
        requires { length self.old + 8 ≤ 8192 }
        ensures text { self.new ≡ self.old ++ 44 ∷ version_text version conflict }
        ensures short { length self.new ≤ length self.old + 3 }
    {
        match (version, conflict) {
            (Version::A, false) => self.put(*b",A\0\0\0\0\0\0", 2),
            (Version::A, true) => self.put(*b",A!\0\0\0\0\0", 3),
            (Version::B, false) => self.put(*b",B\0\0\0\0\0\0", 2),
            (Version::B, true) => self.put(*b",B!\0\0\0\0\0", 3),
            (Version::Unknown, _) => self.put(*b",?\0\0\0\0\0\0", 2),
        }
    }

    /// Appends a comma and the field of a block.
    #[inline(always)]
    fn put_block(&mut self, block: &Block)
        requires { length self.old + 16 ≤ 8192 }
        ensures text { self.new ≡ self.old ++ 44 ∷ block_text block.now }
        ensures short { length self.new ≤ length self.old + 16 }
    {
        match *block {
            Block::Missing => self.put(*b",none\0\0\0", 5),
            Block::Read(Reading::Lost) => self.put(*b",lost\0\0\0", 5),
            Block::Read(Reading::Valid { offset, info }) => self.put_word(offset, info),
            Block::Read(
                Reading::Corrected {
                    offset,
                    info,
                    burst,
                },
            ) => {
                self.put_word(offset, info);
                self.put_mask(burst.pattern());
            }
        }
    }

    /// Appends a comma and the field of a block that was read again.
    fn put_soft_block(&mut self, block: &SoftBlock)
        requires { length self.old + 16 ≤ 8192 }
        ensures text { self.new ≡ self.old ++ 44 ∷ soft_block_text block.now }
        ensures short { length self.new ≤ length self.old + 16 }
    {
        match *block {
            SoftBlock::Missing => self.put(*b",none\0\0\0", 5),
            SoftBlock::Read(SoftReading::Lost) => self.put(*b",lost\0\0\0", 5),
            SoftBlock::Read(SoftReading::Valid { offset, info }) => self.put_word(offset, info),
            SoftBlock::Read(
                SoftReading::Corrected {
                    offset,
                    info,
                    flips,
                },
            ) => {
                self.put_word(offset, info);
                self.put_mask(mask_of(flips));
            }
        }
    }

    /// Appends a tilde and an error mask.
    #[inline(always)]
    fn put_mask(&mut self, mask: u32)
        requires { length self.old + 8 ≤ 8192 }
        ensures text { self.new ≡ self.old ++ 126 ∷ hex_digits 7 mask }
        ensures short { length self.new ≤ length self.old + 8 }
    {
        let [a, b, c, d, e, f, g] = mask_digits(mask);
        self.put([b'~', a, b, c, d, e, f, g], 8)
    }

    /// Appends a comma, an offset and an information word.
    #[inline(always)]
    fn put_word(&mut self, offset: Offset, info: u16)
        requires { length self.old + 8 ≤ 8192 }
        ensures text { self.new ≡ self.old ++ 44 ∷ word_text offset info }
        ensures short { length self.new ≤ length self.old + 8 }
    {
        let [one, two, three, four] = word_digits(info);
        match offset.name().as_bytes() {
            [letter] => self.put([b',', *letter, b':', one, two, three, four, 0], 7),
            [letter, mark] => self.put([b',', *letter, *mark, b':', one, two, three, four], 8),
            _ => unreachable!(),
        }
    }
}

/// The version that the information word of block 2 names, and the offset of block 3 in it.
#[inline(always)]
fn version_and_third(second: u16) -> (Version, Offset)
    ensures version { result.0 ≡ version_of_bit second }
    ensures third { result.1 ≡ third_offset second }
{
    if (second >> 11) & 1 == 0 {
        (Version::A, Offset::C)
    } else {
        (Version::B, Offset::Cx)
    }
}

/// Tells clauses that there are four blocks.
#[inline(always)]
fn count_four(blocks: &[SoftBlock; 4])
    ensures { length blocks.now ≡ 4 }
{
    let _ = blocks;
}
