ghost use Rattle.std.specs.Prelude.{◌≡◌};
ghost use Rattle.rds_code.specs.Encoding.{IsBlockOf, IsGroupOf, third_offset as the_third_offset, encoded, encoded_group};

use crate::offset::Offset;
use crate::remainder::rem26;

/// The block that carries the information word `info` with the offset `o`.
///
/// EN 50067:1998, section 2.3.
pub fn encode_block(info: u16, o: Offset) -> u32
    ensures value { result ≡ encoded info o }
    ensures block { IsBlockOf result info o }
{
    let message = (info as u32) << 10;
    let checkword = rem26(message) ^ o.word();
    message | checkword as u32
}

/// The four blocks of a group, from its information words. Block 3 has C' if bit 11 of the second word, the
/// version bit, is set, and else C.
///
/// EN 50067:1998, sections 2.1 and 3.1.2.
pub fn encode_group(words: [u16; 4]) -> [u32; 4]
    ensures value { result ≡ encoded_group words }
    ensures group { IsGroupOf result words }
{
    let [first, second, third, fourth] = words;
    [
        encode_block(first, Offset::A),
        encode_block(second, Offset::B),
        encode_block(third, third_offset(second)),
        encode_block(fourth, Offset::D),
    ]
}

/// The offset of block 3, by the second word of the group.
fn third_offset(second: u16) -> Offset
    ensures { result ≡ the_third_offset second }
{
    if (second >> 11) & 1 == 1 {
        Offset::Cx
    } else {
        Offset::C
    }
}
