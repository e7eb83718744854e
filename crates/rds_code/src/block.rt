ghost use Rattle.std.specs.Prelude.{◌<◌, ◌^◌, ◌↔◌, IsTrue};

/// The bits of a block: sixteen of information, and ten of checkword (EN 50067:1998, 2.1).
pub const BLOCK_BITS: u32 = 26;

/// Whether `w` is a word of 26 bits, as a block is, the information above the checkword (EN 50067:1998, 2.1).
pub fn is_block(w: u32) -> bool
    ensures { IsTrue result ↔ (w < 2 ^ 26) }
{
    w >> BLOCK_BITS == 0
}
