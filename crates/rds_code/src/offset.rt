ghost use Rattle.std.specs.Prelude.{◌≡◌};
ghost use Rattle.rds_code.specs.Offsets.{offset_of as the_offset_of};

use crate::block_number::BlockNumber;

/// The offset word that was added to a block's checkword, which tells the blocks of a group apart.
///
/// EN 50067:1998, section 2.3 and Annex A. `Cx` means C'.
#[derive(Clone, Copy, Debug, PartialEq, Eq)]
pub enum Offset {
    /// Block 1.
    A,
    /// Block 2.
    B,
    /// Block 3 of a group of version A.
    C,
    /// Block 3 of a group of version B: C'.
    Cx,
    /// Block 4.
    D,
}

impl Offset {
    ghost use Rattle.rds_code.specs.Offsets.{word, number, name};

    /// The ten bits that are added to the checkword, and so the remainder of an undamaged block.
    pub fn word(self) -> u16
        ensures { result ≡ word self }
    {
        match self {
            Offset::A => 0x0FC,
            Offset::B => 0x198,
            Offset::C => 0x168,
            Offset::Cx => 0x350,
            Offset::D => 0x1B4,
        }
    }

    /// The number of the block in its group.
    pub fn number(self) -> BlockNumber
        ensures { result ≡ number self }
    {
        match self {
            Offset::A => BlockNumber::ONE,
            Offset::B => BlockNumber::TWO,
            Offset::C | Offset::Cx => BlockNumber::THREE,
            Offset::D => BlockNumber::FOUR,
        }
    }

    /// The offset as this project prints it: `A`, `B`, `C`, `Cx` or `D`.
    pub fn name(self) -> &'static str
        ensures { result.now ≡ name self }
    {
        match self {
            Offset::A => "A",
            Offset::B => "B",
            Offset::C => "C",
            Offset::Cx => "Cx",
            Offset::D => "D",
        }
    }
}

/// No offset word, since it has more than ten bits.
const NO_WORD: u16 = 0xFFFF;

/// The offset words by their bits 2 to 4, in which no two of them are alike.
static CANDIDATES: [u16; 8] = [NO_WORD, NO_WORD, 0x168, NO_WORD, 0x350, 0x1B4, 0x198, 0x0FC];

/// The offset whose word is `remainder`, or none (EN 50067:1998, 2.3 and Annex A).
///
/// Nearly all remainders are no offset word. One comparison tells, so that the processor foresees the branch.
pub fn offset_of(remainder: u16) -> Option<Offset>
    ensures { result ≡ the_offset_of remainder }
{
    let candidate = CANDIDATES[(remainder >> 2 & 7) as usize];
    if candidate != remainder {
        return None;
    }
    match remainder {
        0x0FC => Some(Offset::A),
        0x198 => Some(Offset::B),
        0x168 => Some(Offset::C),
        0x350 => Some(Offset::Cx),
        0x1B4 => Some(Offset::D),
        _ => None,
    }
}
