//! The remainder bit by bit: the one from tables is compared with it.
ghost use Rattle.std.specs.Prelude.{◌≡◌, ◌^◌, ◌<◌};
ghost use Rattle.rds_code.specs.Remainder.{rem, IsRemainder};

/// The remainder of the block `w`, a word of 26 bits, by the generator, by long division: below 1024.
///
/// EN 50067:1998, section 2.3 and Annex B.
pub fn rem26(w: u32) -> u16
    requires { w < 2 ^ 26 }
    ensures value { result ≡ rem w }
    ensures remainder { IsRemainder w result }
{
    let mut left = w;
    for done in 0..16u32 {
        let shift = 15 - done;
        if (left >> (shift + 10)) & 1 == 1 {
            left ^= 0x5B9 << shift;
        }
    }
    left as u16
}
