//! How the blocks of a group came out, as a 16-bit word: four bits per block, block 1 lowest.

ghost use Rattle.std.specs.Prelude.{◌≡◌, ◌≤◌, ◌<◌, map};
ghost use Rattle.rds_sync.specs.Inside.Outcomes.{outcome_of, was_valid, has_info, IsShort, blocks_in, nibble, word_of_blocks, outcome_at};

use crate::item::Block;
use rds_code::Reading;
use rds_code::laws::bursts_are_listed;

/// The word of a group of four valid blocks.
pub(crate) const CLEAN: u16 = 0x1111;

/// The four bits of a block.
#[inline(always)]
#[tactic(auto, using(crate::proofs::Lemmas::nibble))]
pub(crate) fn nibble(block: &Block) -> u16
    ensures value { result ≡ nibble (outcome_of block.now) }
    ensures few { result ≤ 13 }
    ensures short { IsShort (outcome_of block.now) }
{
    // Each burst is in the list of those that have four bits.
    bursts_are_listed();
    match block {
        Block::Missing => 0,
        Block::Read(Reading::Valid { .. }) => 1,
        Block::Read(Reading::Lost) => 2,
        Block::Read(Reading::Corrected { burst, .. }) => {
            prove!(burst.pattern() > 0);
            u16::from(burst.outcome())
        }
    }
}

/// The word of the group of these blocks.
#[inline(always)]
pub(crate) fn word_of_blocks(blocks: &[Block; 4]) -> u16
    ensures word { result ≡ word_of_blocks (map outcome_of blocks.now) }
    ensures blocks { blocks_in result ≡ map outcome_of blocks.now }
{
    let [one, two, three, four] = blocks;
    nibble(one) + 16 * (nibble(two) + 16 * (nibble(three) + 16 * nibble(four)))
}

/// Whether these four bits are of a valid block.
#[inline(always)]
pub(crate) fn was_valid(nibble: u16) -> bool
    requires { nibble < 16 }
    ensures { result ≡ was_valid (outcome_at nibble) }
{
    nibble == 1
}

/// Whether these four bits are of a block that is valid or corrected.
#[inline(always)]
pub(crate) fn has_info(nibble: u16) -> bool
    requires { nibble < 16 }
    ensures { result ≡ has_info (outcome_at nibble) }
{
    nibble == 1 || 3 <= nibble && nibble <= 13
}
