//! The effect of a block on the lock that it was due in.

use crate::lock::Lock;

/// The effect of a block on the lock that it was due in.
#[derive(Clone, Copy)]
pub(crate) enum Due {
    /// Its group continues with the block that is due next.
    Inside(Lock),
    /// It closed its group, as block 4, and the lock continues with a new one.
    Closed(Lock),
    /// It lost the lock, and closed its group.
    Lost,
}
