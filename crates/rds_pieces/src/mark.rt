//! A place where another run may meet a run.
use rds_sync::State;

/// A place of a run where another run may meet it: its first place, or the place after a bit that gave an item.
#[derive(Clone, Copy)]
pub struct Mark {
    /// The place of the next bit.
    pub place: u64,
    /// The state before that bit.
    pub state: State,
    /// How many of the run's items come before that bit.
    pub items: u64,
}
