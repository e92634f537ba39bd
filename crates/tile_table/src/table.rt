// The state of a tile table.
ghost use Rattle.ledger.specs.Entries.{entries};
ghost use Rattle.ledger.specs.Standings.{requests};
ghost use Rattle.tile_table.specs.Holding.{Agree, Ahead, Apart, Ending, Ranged};

use super::window::Window;
use ledger::ledger::Ledger;
use marks::marks::Marks;

// Not a `Book<ByCell>` with marks beside it: this searches for who is in the way only where marks are met. A book's steps
// without that search would ask their caller for what it found, and no public call has a `requires`.
#[derive(Drop)]
pub struct TileTable {
    pub(crate) window: Window,
    pub(crate) ledger: Ledger,
    pub(crate) marks: Marks,
    ghost ranged: { Ranged window.junction (requests (entries ledger)) },
    ghost ending: { Ending window.junction (entries ledger) },
    // what stands is not over, and ends within the 128 ticks
    ghost ahead: { Ahead window.junction window.clock (requests (entries ledger)) },
    ghost apart: { Apart window.junction (requests (entries ledger)) },
    // each stored mark is the one that the ledger gives
    ghost agree: { Agree window.junction window.clock (requests (entries ledger)) marks },
}
