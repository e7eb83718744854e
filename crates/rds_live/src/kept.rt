//! The numbers that a decoder of a stream is kept as, and whether numbers are such.

ghost use Rattle.std.specs.Prelude.{◌≡◌, ◌↔◌, ◌≤◌, ◌*◌, ◌/◌, ◌^◌, ℕ, List, length, min, true};
ghost use Rattle.rds_stream.specs.Recording.{AreGaps};
ghost use Rattle.rds_sync.specs.Counting.{IsAtMost};
ghost use Rattle.rds_live.specs.StreamDecoder.{IsStreamDecoder, live_with, most_kept};

use rds_stream::MOST_BITS;
use rds_sync::{Rules, State, Totals};

/// How many of the last bytes of a stream are kept. A run may hear 233 bits before one: those of a partner's
/// window, eight blocks back.
pub(crate) const MOST_KEPT: usize = 30;

/// No count of the totals rises by more than this with a bit.
const MOST_COUNTED: u64 = 1 << 11;

/// A decoder's knowledge of a stream, without its terms.
#[derive(Clone, Copy)]
pub(crate) struct Kept {
    pub tail: [u8; MOST_KEPT],
    /// How many bytes the tail has.
    pub count: usize,
    pub place: u64,
    pub state: State,
    pub totals: Totals,
}

/// Where the run over the next bytes begins: how many bits come before the bytes that are kept, how many these have, and the state
/// by their places.
#[derive(Clone, Copy)]
pub(crate) struct Start {
    pub before: u64,
    pub from: u64,
    pub state: State,
}

/// Whether a decoder of a stream can have these numbers, by these rules and whichever gaps: whole bytes were heard, no more
/// than a recording may hold, the tail has as many of them as are kept, the state is lawful, and the totals are small.
pub(crate) fn can_be_live(
    rules: &Rules,
    tail: &[u8],
    place: u64,
    state: State,
    totals: &Totals,
) -> bool
    ensures { (gaps : List (ℕ × ℕ)) → AreGaps (2 ^ 36) gaps
        → ((result ≡ true) ↔ IsStreamDecoder (live_with rules.now gaps tail.now place state totals.now)) }
{
    is_heard_to(tail, place)
        && state.is_lawful(rules, place)
        && are_at_most(totals, MOST_COUNTED * place)
}

/// Whether this can be the tail at this place: whole bytes were heard, and it has as many of them as are kept.
fn is_heard_to(tail: &[u8], place: u64) -> bool
    ensures { (result ≡ true) ↔ (place ≡ 8 * (place / 8)) × (place ≤ 2 ^ 36)
        × (length tail.now ≡ min most_kept (place / 8)) }
{
    place % 8 == 0 && place <= MOST_BITS && tail.len() as u64 == (place / 8).min(MOST_KEPT as u64)
}

/// Whether no count is above `most`.
fn are_at_most(totals: &Totals, most: u64) -> bool
    ensures { (result ≡ true) ↔ IsAtMost most totals.now }
{
    let [one, two, three, four, five] = totals.bursts;
    totals.valid <= most
        && one <= most
        && two <= most
        && three <= most
        && four <= most
        && five <= most
        && totals.lost <= most
        && totals.bits <= most
        && totals.groups <= most
        && totals.complete <= most
        && totals.acquired <= most
        && totals.losses <= most
}
