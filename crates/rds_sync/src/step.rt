//! A step of a run.

use crate::item::Item;
use crate::state::State;

/// Where a run is after a step, and the items that the step found.
#[derive(Clone, Copy)]
pub struct Step {
    /// The place of the next bit.
    pub place: u64,
    /// The state before that bit.
    pub state: State,
    /// The items found, in order.
    pub items: [Option<Item>; 2],
}
