use rds_code::Offset;

/// The correction of a window: the flips of its symbols, and the offset of the block that they make of it.
#[derive(Clone, Copy, Debug, PartialEq, Eq)]
pub struct Correction {
    /// The offset of the block.
    pub offset: Offset,
    /// The symbols that are flipped, a word of 27 bits, the first symbol highest.
    pub flips: u32,
}
