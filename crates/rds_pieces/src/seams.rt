//! The results of a piece, once the state before it is known.
use rds_sync::{Items, State, Totals};

/// The items, totals and end state of a piece, from the state that was handed in.
#[derive(Drop)]
pub struct Seam {
    /// The items that the bits of the piece give, in order: those before the meeting, and the guess's own from
    /// there on.
    pub items: Items,
    /// The totals of these items.
    pub totals: Totals,
    /// The state after the piece's last bit.
    pub end_state: State,
    /// The least place where the run met the piece's guess, the piece's end included, if they met.
    pub met_at: Option<u64>,
}
