//! How a place that was heard is read: a window, or nothing.
ghost use Rattle.std.specs.Prelude.{◌≡◌, ◌<◌, ◌≤◌, ◌^◌, IfSome};
ghost use Rattle.rds_stream.specs.Recording.{offset_heard, reading_heard};

use rds_code::{
    BlockNumber, BurstLimit, BurstTable, Offset, Reading, Wanted, offset_of, read_block, rem26,
};

/// The offset of a window that was heard, a word of 26 bits: the one whose word is its remainder (EN 50067:1998, 2.3
/// and annex A), or none. Nothing has no offset: this project's rule.
#[inline(always)]
pub fn offset_heard(heard: Option<u32>) -> Option<Offset>
    requires { IfSome heard (λ window. window < 2 ^ 26) }
    ensures { result ≡ offset_heard heard }
{
    offset_of(rem26(heard?))
}

/// A window that was heard, a word of 26 bits, read as block `number`, with bursts within `limit` corrected, by
/// [`read_block`]. Nothing is read as a lost block, whatever bits were stored: this project's rule.
#[inline(always)]
pub fn read_heard(
    table: &BurstTable,
    heard: Option<u32>,
    number: BlockNumber,
    wanted: Wanted,
    limit: BurstLimit,
) -> Reading
    requires { IfSome heard (λ window. window < 2 ^ 26) }
    ensures { result ≡ reading_heard heard number wanted limit }
{
    match heard {
        Some(window) => read_block(table, window, number, wanted, limit),
        None => Reading::Lost,
    }
}
