//! Remainders by the generator, from tables.
//!
//! Remainders are linear: that of a sum of words is the sum of theirs. A block is the sum of its lowest ten bits,
//! which are their own remainder, and of the two bytes above them, whose remainders are in tables.
ghost use Rattle.std.specs.Prelude.{◌≡◌, ◌^◌, ◌<◌};
ghost use Rattle.rds_code.specs.Remainder.{rem, IsRemainder};

use crate::byte_remainders::{of_high, of_middle};

/// The remainder of the block `w`, a word of 26 bits, by the generator: below 1024.
///
/// EN 50067:1998, section 2.3 and Annex B.
pub fn rem26(w: u32) -> u16
    requires { w < 2 ^ 26 }
    ensures value { result ≡ rem w }
    ensures remainder { IsRemainder w result }
{
    let low = (w % 1024) as u16;
    let middle = ((w >> 10) % 256) as u8;
    let high = (w >> 18) as u8;
    low ^ of_middle(middle) ^ of_high(high)
}
