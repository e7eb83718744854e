//! Groups to bytes.

ghost use Rattle.std.specs.Prelude.{◌≡◌, ◌++◌, ◌<◌, ◌≤◌, IfErr, OnErr, OnOk, drop, length, map};
ghost use Rattle.rds_abi.specs.{Blocks.packed as the_packed, declared.refusal.Refusal.TheVariants.SmallRoom};

use crate::layout::{RdsPacked, RdsWords};
use crate::refusal::Refusal;
use rds_code::encode_group;

/// Writes the groups as they are sent to the beginning of `room`, 13 bytes each, or nothing if there is too little room. Block 3 has C' if
/// bit 11 of the second word, the version bit, is set, and else C (EN 50067:1998, 2.1 and 3.1.2).
///
/// Refuses only `SmallRoom`.
pub fn encode(groups: &[RdsWords], room: &mut [RdsPacked]) -> Result<(), Refusal>
    ensures packed { OnOk result (room.new ≡ map the_packed groups.now ++ drop (length groups.now) room.old) }
    ensures lawful { OnOk result (length groups.now ≤ length room.old) }
    ensures refused { IfErr result (λ refusal. (refusal ≡ SmallRoom) × (length room.old < length groups.now)) }
    ensures untouched { OnErr result (room.new ≡ room.old) }
{
    if room.len() < groups.len() {
        return Err(Refusal::SmallRoom);
    }
    encode_all(groups, room);
    Ok(())
}

/// Writes the groups to the beginning of the room.
fn encode_all(groups: &[RdsWords], room: &mut [RdsPacked])
    requires { length groups.now ≤ length room.old }
    ensures { room.new ≡ map the_packed groups.now ++ drop (length groups.now) room.old }
{
    for i in 0..groups.len() {
        room[i] = pack_group(groups[i]);
    }
}

/// A group as it is sent.
fn pack_group(group: RdsWords) -> RdsPacked
    ensures { result ≡ the_packed group }
{
    const BLOCK: u128 = 1 << 26;
    let [one, two, three, four] = encode_group(group.words);
    let bits = ((u128::from(one) * BLOCK + u128::from(two)) * BLOCK + u128::from(three)) * BLOCK
        + u128::from(four);
    let mut bytes = [0; 13];
    bytes.copy_from_slice(&bits.to_be_bytes()[3..]);
    RdsPacked { bytes }
}
