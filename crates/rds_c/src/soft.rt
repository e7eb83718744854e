//! A stream of symbols.

ghost use Rattle.std.specs.Prelude.{◌≡◌, ◌≢◌, ◌≤◌, ◌*◌, length};
ghost use Rattle.rds_abi.specs.{Asked.RefusedBy, Stream.GoesOn, Stream.IsFollowed, Stream.IsLaid, Stream.terms_of, Soft.AreReadAgain, Soft.HearsOnSoft, Soft.IsPushed, Soft.RefusesTakenSoft, Soft.byte_count, Soft.bytes_taken, Refusals.number_of, declared.refusal.Refusal.TheVariants.SmallRoom};

use rds_abi::{RdsGap, RdsItem, RdsRules, RdsSoft, push_soft};
use std::alloc::Global;

/// Takes as many of the next symbols of a stream as surely have room for the items that their bits complete, eight for each byte of
/// bits. It writes these items, each group read again from its symbols, to the beginning of `room`, how many they are to `count`, how
/// many symbols it took to `taken`, and the stream after them to `soft`. It returns 0, or the number of a refusal. After that of
/// `SmallRoom`, if the items of the first byte do not fit, only `count` was written.
#[unsafe(no_mangle)]
pub extern "C" fn rds_push_soft(
    alloc: Global,
    symbols: &[i8],
    gaps: &[RdsGap],
    rules: &RdsRules,
    margin: u8,
    soft: &mut RdsSoft,
    room: &mut [RdsItem],
    taken: &mut u64,
    count: &mut u64,
) -> u8
    ensures heard { result ≡ 0 → HearsOnSoft (terms_of rules.now gaps.now) soft.old soft.new symbols.now taken.new }
    ensures items { result ≡ 0
        → AreReadAgain (terms_of rules.now gaps.now) margin soft.old symbols.now taken.new room.old room.new count.new }
    ensures taken { result ≡ 0 → taken.new ≡ 8 * byte_count symbols.now (length room.old) }
    ensures laid { result ≡ 0 → IsLaid (terms_of rules.now gaps.now) soft.new.stream }
    ensures next { result ≡ 0 → IsFollowed rules.now gaps.now soft.new.stream }
    ensures lawful { result ≡ 0
        → IsPushed rules.now gaps.now margin soft.old (bytes_taken symbols.now (length room.old)) }
    ensures refused { result ≢ 0 → RefusedBy
        (RefusesTakenSoft rules.now gaps.now margin soft.old symbols.now (length room.old) count.old count.new) result }
    ensures roomy { 16 ≤ length room.old → result ≢ number_of SmallRoom }
    ensures untouched { result ≢ 0 → (room.new ≡ room.old) × (soft.new ≡ soft.old) × (taken.new ≡ taken.old) }

    // The same of numbers that are lawful and of no stream.
    ensures after { result ≡ 0
        → GoesOn (terms_of rules.now gaps.now) soft.old.stream soft.new.stream (bytes_taken symbols.now (length room.old)) }
{
    match push_soft(
        alloc, symbols, gaps, *rules, margin, soft, room, taken, count,
    ) {
        Ok(()) => 0,
        Err(refusal) => refusal.number(),
    }
}
