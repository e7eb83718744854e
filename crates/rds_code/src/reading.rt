use crate::burst::Burst;
use crate::offset::Offset;

/// The offsets allowed for block 3 when it is corrected: this project's rule. They matter only for block 3.
#[derive(Clone, Copy, Debug, PartialEq, Eq)]
pub enum Wanted {
    /// C, as block 2 of the same group names version A.
    OnlyC,
    /// C', as block 2 of the same group names version B.
    OnlyCx,
    /// Both, as block 2 is missing or lost.
    Either,
}

/// How a window is read as a block: this project's rule.
#[derive(Clone, Copy, Debug, PartialEq, Eq)]
pub enum Reading {
    /// The window is a block with this offset; `info` is its information word.
    Valid {
        offset: Offset,
        info: u16,
    },
    /// The window is a block with this offset once `burst` is corrected; `info` is the information word then.
    Corrected {
        offset: Offset,
        info: u16,
        burst: Burst,
    },
    /// No pair of a wanted offset and a burst fits, or more than one does.
    Lost,
}
