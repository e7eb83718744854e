//! Items of a report, read again from the symbols of its recording.
ghost use Rattle.std.specs.Prelude.{◌≡◌, ◌+◌, ◌*◌, ◌≤◌, ℕ, ℤ, IfSome, List, Option};
ghost use Rattle.rds_code.specs.declared.reading.Wanted.{Wanted as AWanted};
ghost use Rattle.rds_stream.specs.Recording.{Signal};
ghost use Rattle.rds_soft.specs.{Inside.Packed.chunk_of, ReadAgain.block_again as the_block_again, ReadAgain.group_again as the_group_again, ReadAgain.symbols_heard as the_symbols_heard, ReadAgain.symbols_of, ReadAgain.was_read as the_was_read, SoftGroups.group_of};

use crate::lightest::SYMBOLS;
use crate::margin::Margin;
use crate::nearest::Search;
use crate::soft_item::{SoftBlock, SoftGroup, SoftItem};
use crate::soft_reading::SoftReading;
use rds_code::{BlockNumber, Reading, Wanted};
use rds_stream::{FIRST_WINDOW, Recording};
use rds_sync::{Block, Item};

impl Search {
    ghost use Rattle.rds_soft.specs.ReadAgain.{item_again};

    /// An item of a report, read again from the symbols of its recording: the bytes of `symbols` are signed, and bit i of the
    /// recording is that between symbols i and i + 1. In a group each block that was read is read again, unless it is valid. A block that
    /// touches a gap, or ends past the symbols, is lost. Acquisitions and losses stay as they are.
    #[tactic(auto, unfolding(crate::specs::ReadAgain::item_again))]
    pub fn read_again(
        &mut self,
        recording: &Recording,
        symbols: &[u8],
        margin: Margin,
        item: &Item,
    ) -> SoftItem
        ensures { result ≡ item_again recording.now (symbols_of symbols.now) margin item.now }
    {
        match *item {
            Item::Acquired { place, number } => SoftItem::Acquired { place, number },
            Item::LostLock { place } => SoftItem::LostLock { place },
            Item::Group(group) => {
                let source = Source {
                    recording,
                    symbols,
                    place: group.place,
                    margin,
                };
                SoftItem::Group(group_again(self, &source, &group.blocks))
            }
        }
    }
}

/// Where the blocks of a group are read again from, and by which margin.
#[derive(Clone, Copy)]
struct Source<'a> {
    recording: &'a Recording,
    symbols: &'a [u8],
    /// The place of the first bit of the first block that was read.
    place: u64,
    margin: Margin,
}

/// The group of these blocks, read again. If all four are valid, as in most groups, they stay as they are.
fn group_again(search: &mut Search, source: &Source<'_>, blocks: &[Block; 4]) -> SoftGroup
    ensures { result ≡ the_group_again source.now.recording.now (symbols_of source.now.symbols.now) source.now.margin source.now.place blocks.now }
{
    match valid_blocks(blocks) {
        Some(valid) => SoftGroup::of_blocks(source.place, valid),
        None => searched_group(search, source, blocks),
    }
}

/// The same of any blocks, of which those that are not valid are searched.
fn searched_group(search: &mut Search, source: &Source<'_>, blocks: &[Block; 4]) -> SoftGroup
    ensures { result ≡ the_group_again source.now.recording.now (symbols_of source.now.symbols.now) source.now.margin source.now.place blocks.now }
{
    let [one, two, three, four] = blocks;
    let either = Wanted::Either;
    let after_one = was_read(one);
    let after_two = after_one + was_read(two);
    let after_three = after_two + was_read(three);
    let first = block_again(search, source, one, 0, BlockNumber::ONE, either);
    let second = block_again(search, source, two, after_one, BlockNumber::TWO, either);
    let wanted = second.wanted_beside();
    let third = block_again(search, source, three, after_two, BlockNumber::THREE, wanted);
    let fourth = block_again(search, source, four, after_three, BlockNumber::FOUR, either);
    SoftGroup::of_blocks(source.place, [first, second, third, fourth])
}

/// The blocks as they are, if all four are valid: they stay so, whatever was heard.
#[inline(always)]
fn valid_blocks(blocks: &[Block; 4]) -> Option<[SoftBlock; 4]>
    ensures { IfSome result (λ valid. (b : Signal) (symbols : List ℤ) (margin place : ℕ)
        → group_of place valid ≡ the_group_again b symbols margin place blocks.now) }
{
    let [one, two, three, four] = blocks;
    Some([
        valid_block(one)?,
        valid_block(two)?,
        valid_block(three)?,
        valid_block(four)?,
    ])
}

/// The block as it is, if it is valid.
#[inline(always)]
fn valid_block(block: &Block) -> Option<SoftBlock>
    ensures { IfSome result (λ valid. (heard : Option (List ℤ)) (x : ℕ) (wanted : AWanted) (margin : ℕ)
        → valid ≡ the_block_again heard x wanted margin block.now) }
{
    match *block {
        Block::Read(Reading::Valid { offset, info }) => {
            Some(SoftBlock::Read(SoftReading::Valid { offset, info }))
        }
        _ => None,
    }
}

/// 1 if the block was read.
#[inline(always)]
fn was_read(block: &Block) -> u64
    ensures value { result ≡ the_was_read block.now }
    ensures most { result ≤ 1 }
{
    match *block {
        Block::Missing => 0,
        Block::Read(_) => 1,
    }
}

/// A block of a group, read again. `before` blocks of the group were read before it.
fn block_again(
    search: &mut Search,
    source: &Source<'_>,
    block: &Block,
    before: u64,
    number: BlockNumber,
    wanted: Wanted,
) -> SoftBlock
    requires { before ≤ 3 }
    ensures { let heard = the_symbols_heard source.now.recording.now (symbols_of source.now.symbols.now) (source.now.place + 26 * before) in
        result ≡ the_block_again heard number wanted source.now.margin block.now }
{
    match *block {
        Block::Missing => SoftBlock::Missing,
        Block::Read(Reading::Valid { offset, info }) => SoftBlock::Read(SoftReading::Valid {
            offset,
            info,
        }),
        Block::Read(_) => SoftBlock::Read(match symbols_heard(source, before) {
            Some(symbols) => search.read(&symbols, number, wanted, source.margin),
            None => SoftReading::Lost,
        }),
    }
}

/// The symbols of a block, if all are there and none of its bits is in a gap.
fn symbols_heard(source: &Source<'_>, before: u64) -> Option<[i8; 27]>
    requires { before ≤ 3 }
    ensures { result ≡ the_symbols_heard source.now.recording.now (symbols_of source.now.symbols.now) (source.now.place + 26 * before) }
{
    let bits = source.recording.len();
    if source.place >= bits {
        return None;
    }
    let first = source.place + 26 * before;
    let last = first + FIRST_WINDOW;
    if last >= bits || source.recording.touches(last) {
        return None;
    }
    chunk_at(source.symbols, first as usize)
}

/// The 27 symbols from a place on, if they are there.
fn chunk_at(symbols: &[u8], first: usize) -> Option<[i8; 27]>
    ensures { result ≡ chunk_of symbols.now first }
{
    match symbols.get(first..)?.first_chunk() {
        Some(chunk) => Some(signed(chunk)),
        None => None,
    }
}

/// 27 bytes as symbols.
fn signed(bytes: &[u8; 27]) -> [i8; 27]
    ensures { result ≡ symbols_of bytes.now }
{
    let mut symbols = [0i8; 27];
    for i in 0..SYMBOLS {
        symbols[i] = bytes[i].cast_signed();
    }
    symbols
}
