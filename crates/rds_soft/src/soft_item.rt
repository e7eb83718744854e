//! The items of a report whose groups are read again from symbols.
ghost use Rattle.std.specs.Prelude.{◌≡◌};
ghost use Rattle.rds_sync.specs.Groups.{differ as the_differ, version_of_offset as the_version_of_offset};
ghost use Rattle.rds_soft.specs.SoftGroups.{info_of, version_by_bit, version, in_conflict, wanted_beside, group_of};

use crate::soft_reading::SoftReading;
use rds_code::{Offset, Wanted};
use rds_sync::Version;

/// One entry of a report that was read again from its symbols, in the order of the report.
#[derive(Clone, Copy, Debug, PartialEq, Eq)]
pub enum SoftItem {
    /// Sync was acquired by the block that ends at `place`, read as block `number` (1 to 4).
    Acquired { place: u64, number: u8 },
    /// A group was closed: by its block 4, by a loss or by the end of the recording.
    Group(SoftGroup),
    /// Sync was lost at the block that ends at `place`.
    LostLock { place: u64 },
}

/// A group of four blocks (EN 50067:1998, 2.1), as far as it was read; its type, version and conflict as those of
/// [`rds_sync::Group`].
#[derive(Clone, Copy, Debug, PartialEq, Eq)]
pub struct SoftGroup {
    /// The place of the first bit of its first read block.
    pub place: u64,
    /// Blocks 1 to 4.
    pub blocks: [SoftBlock; 4],
    /// The group type (EN 50067:1998, 3.1.2), 0 to 15, if block 2 was valid or corrected.
    pub kind: Option<u8>,
    /// The version: by the offset of a valid block 3, else by bit B0 of block 2, else by the offset of a corrected block 3.
    pub version: Version,
    /// Whether block 3 is valid and block 2, valid or corrected, names the other version.
    pub conflict: bool,
}

impl SoftGroup {
    /// The group of four blocks whose first read bit is at `place`.
    pub(crate) fn of_blocks(place: u64, blocks: [SoftBlock; 4]) -> SoftGroup
        ensures { result ≡ group_of place blocks }
    {
        let [_, second, third, _] = blocks;
        SoftGroup {
            place,
            blocks,
            kind: match second.info() {
                Some(info) => Some((info >> 12) as u8),
                None => None,
            },
            version: version_of(second, third),
            conflict: is_in_conflict(second, third),
        }
    }
}

/// A block of a group (EN 50067:1998, 2.1).
#[derive(Clone, Copy, Debug, PartialEq, Eq)]
pub enum SoftBlock {
    /// It comes before the acquiring block, or after a loss, or was not reached.
    Missing,
    /// It was read: valid, corrected or lost.
    Read(SoftReading),
}

impl SoftBlock {
    /// The information word, if the block is valid or corrected.
    pub fn info(&self) -> Option<u16>
        ensures { result ≡ info_of self.now }
    {
        match *self {
            SoftBlock::Read(SoftReading::Valid { info, .. }) => Some(info),
            SoftBlock::Read(SoftReading::Corrected { info, .. }) => Some(info),
            _ => None,
        }
    }

    /// The version by the version bit, this being a block 2.
    fn version_by_bit(&self) -> Version
        ensures { result ≡ version_by_bit self.now }
    {
        match self.info() {
            None => Version::Unknown,
            Some(info) if (info >> 11) & 1 == 0 => Version::A,
            Some(_) => Version::B,
        }
    }

    /// The offsets that are tried for block 3, this being the block 2 before it.
    pub(crate) fn wanted_beside(&self) -> Wanted
        ensures { result ≡ wanted_beside self.now }
    {
        match self.version_by_bit() {
            Version::A => Wanted::OnlyC,
            Version::B => Wanted::OnlyCx,
            Version::Unknown => Wanted::Either,
        }
    }
}

/// The version that blocks 2 and 3 of a group give it.
fn version_of(second: SoftBlock, third: SoftBlock) -> Version
    ensures { result ≡ version second third }
{
    let by_bit = second.version_by_bit();
    match third {
        SoftBlock::Read(SoftReading::Valid { offset, .. }) => version_of_offset(offset),
        SoftBlock::Read(SoftReading::Corrected { offset, .. }) => match by_bit {
            Version::Unknown => version_of_offset(offset),
            known => known,
        },
        _ => by_bit,
    }
}

/// Whether a valid block 3 and block 2 name different versions.
fn is_in_conflict(second: SoftBlock, third: SoftBlock) -> bool
    ensures { result ≡ in_conflict second third }
{
    match third {
        SoftBlock::Read(SoftReading::Valid { offset, .. }) => {
            differ(second.version_by_bit(), version_of_offset(offset))
        }
        _ => false,
    }
}

/// The version that a block 3 with this offset names.
fn version_of_offset(offset: Offset) -> Version
    ensures { result ≡ the_version_of_offset offset }
{
    match offset {
        Offset::C => Version::A,
        Offset::Cx => Version::B,
        _ => Version::Unknown,
    }
}

/// Whether one of the two is A and the other B.
fn differ(one: Version, other: Version) -> bool
    ensures { result ≡ the_differ one other }
{
    match (one, other) {
        (Version::A, Version::B) => true,
        (Version::B, Version::A) => true,
        _ => false,
    }
}
