//! Texts for C: names and the version.

ghost use Rattle.std.specs.Prelude.{◌≡◌, ◌≤◌, IfErr, OnErr, OnOk, length};
ghost use Rattle.rds_abi.specs.{Names.IsNamed, Names.IsSpelled, Names.RefusesName, declared.refusal.Refusal.TheVariants.SmallRoom};

use crate::refusal::Refusal;

/// The version of the library: 65536 times the first number, 256 times the second, and the third.
pub const VERSION: u32 = 2 * 256;

/// Writes the name of the refusal of this number, followed by a 0, to the beginning of `room`: 16 bytes are enough for any.
///
/// Refuses `NoRefusal` if there is none of this number, and then `SmallRoom`.
pub fn refusal_name(number: u8, room: &mut [u8]) -> Result<(), Refusal>
    ensures named { OnOk result (IsNamed number room.old room.new) }
    ensures refused { IfErr result (RefusesName number room.old) }
    ensures untouched { OnErr result (room.new ≡ room.old) }
{
    match Refusal::of_number(number) {
        Some(refusal) => spell(refusal.name().as_bytes(), room),
        None => Err(Refusal::NoRefusal),
    }
}

/// Writes a text and a 0 to the beginning of the room.
fn spell(text: &[u8], room: &mut [u8]) -> Result<(), Refusal>
    ensures spelled { OnOk result (IsSpelled text.now room.old room.new) }
    ensures refused { IfErr result (λ refusal. (refusal ≡ SmallRoom) × (length room.old ≤ length text.now)) }
    ensures untouched { OnErr result (room.new ≡ room.old) }
{
    if room.len() <= text.len() {
        return Err(Refusal::SmallRoom);
    }
    room[..text.len()].copy_from_slice(text);
    room[text.len()] = 0;
    Ok(())
}
