// A new tile table.
ghost use Rattle.std.specs.Prelude.{◌≡◌, IfOk};
ghost use Rattle.policy.specs.Views.{new_view};
ghost use Rattle.tile_table.specs.Tables.{view_of};

use super::table::TileTable;
use super::window::Window;
use grid::junction::Junction;
use ledger::ledger::Ledger;
use marks::marks::Marks;
use std::alloc::{AllocError, Global};

impl TileTable {
    // Nothing stands, and no tile has a mark. Only this allocates.
    pub fn new(heap: Global, junction: Junction) -> Result<TileTable, AllocError>
        ensures fresh { IfOk result (λ s. view_of s ≡ new_view junction) }
    {
        let ledger = Ledger::new(heap)?;
        Ok(TileTable {
            window: Window { junction, clock: 0 },
            ledger,
            marks: Marks::new(),
        })
    }
}
