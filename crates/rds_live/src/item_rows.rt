//! Where the rows of a stream go.
ghost use Rattle.std.specs.{Prelude.◌++◌, Prelude.◌≡◌, Prelude.ℕ, Prelude.[], Prelude.IfOk, Prelude.List, Prelude.OnOk, List.flat_map};
ghost use Rattle.rds_sync.specs.declared.item.Item.{Item};

use rds_sync::Item;
use std::alloc::{AllocError, Global};

/// Rows of items, which threads make.
pub trait ItemRows: Send + Drop {
    /// The row of an item.
    ghost row_of: { Item → List ℕ };

    /// The rows so far.
    ghost rows: { Self → List ℕ };

    /// Appends the rows of these items.
    fn push_items(&mut self, items: &[Item]) -> Result<(), AllocError>
        ensures { OnOk result (rows self.new ≡ rows self.old ++ flat_map row_of items.now) };

    /// No rows, for another thread.
    fn another(&self, alloc: Global) -> Result<Self, AllocError>
        ensures { IfOk result (λ other. rows other ≡ []) };

    /// Appends the rows of another thread.
    fn append(&mut self, other: Self) -> Result<(), AllocError>
        ensures { OnOk result (rows self.new ≡ rows self.old ++ rows other) };

    /// Forgets the rows.
    fn clear(&mut self)
        ensures { rows self.new ≡ [] };
}
