// The marks of one tick: for each tile the number of a vehicle, or 0.
ghost use Rattle.std.specs.Prelude.{◌≡◌, ℕ, ◌<◌, not, ◌&&◌, length, if◌then◌else◌, ◌==◌, slice_index};
ghost use Rattle.grid.specs.Sets.{bit, has_tile};
ghost use Rattle.grid.specs.Some.{some};
ghost use Rattle.marks.specs.Rows.{Agree, is_other};

use super::bits::{Ones, marked_after};
use grid::tiles::TileSet;

#[derive(Clone, Copy)]
pub(crate) struct Row {
    marks: [u16; 64],
    // the tiles that have a mark other than 0
    taken: u64,
    ghost long: { length marks ≡ 64 },
    ghost agree: { Agree marks taken },
}

// Gives the tiles of the word the mark `vehicle`. By itself, since a row's marks and tiles do not agree before the loop ends.
fn write(marks: &mut [u16; 64], word: u64, vehicle: u16)
    ensures long { length marks.new ≡ 64 }
    ensures marks { (tile : ℕ) → tile < 64 → slice_index marks.new tile ≡ (if bit word tile then vehicle else slice_index marks.old tile) }
{
    for tile in (Ones { rest: word }) {
        marks[tile as usize] = vehicle;
    }
}

impl Row {
    // No tile has a mark.
    pub(crate) fn blank() -> Row
        ensures { (tile : ℕ) → tile < 64 → slice_index result.marks tile ≡ 0 }
    {
        Row {
            marks: [0; 64],
            taken: 0,
        }
    }

    // The mark of the tile, or 0 where there is no such tile.
    pub(crate) fn mark(&self, tile: u32) -> u16
        ensures { result ≡ slice_index self.now.marks tile }
    {
        self.marks.get(tile as usize).copied().unwrap_or(0)
    }

    // The tiles that have a mark.
    pub(crate) fn tiles(&self) -> TileSet
        ensures { (tile : ℕ) → tile < 64 → has_tile result tile ≡ not (slice_index self.now.marks tile == 0) }
    {
        TileSet { bits: self.taken }
    }

    // Whether some tile of the set has the mark of another vehicle than this one. Mostly no tile of the set has a mark,
    // and then no mark is read.
    pub(crate) fn other_than(&self, tiles: TileSet, vehicle: u16) -> bool
        ensures { result ≡ some 64 (λ tile. has_tile tiles tile && is_other vehicle (slice_index self.now.marks tile)) }
    {
        Ones {
            rest: tiles.bits & self.taken,
        }
        .any(|tile| self.marks[tile as usize] != vehicle)
    }

    // Gives each tile of the set the mark `vehicle`; 0 takes its mark away.
    pub(crate) fn put(&mut self, tiles: TileSet, vehicle: u16)
        ensures { (tile : ℕ) → tile < 64 → slice_index self.new.marks tile ≡ (if has_tile tiles tile then vehicle else slice_index self.old.marks tile) }
    {
        write(&mut self.marks, tiles.bits, vehicle);
        self.taken = marked_after(self.taken, tiles.bits, vehicle);
    }
}
