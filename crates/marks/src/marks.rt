// The marks: for each tile and each tick the number of a vehicle, or 0.
ghost use Rattle.std.specs.Prelude.{◌≡◌, length};

use super::row::Row;
use grid::tiles::TileSet;

// The ticks lie in a ring of 128, so that a tick has the row of the one 128 ticks before it.
#[derive(Drop)]
pub struct Marks {
    rows: [Row; 128],
    ghost wide: { length rows ≡ 128 },
}

impl Marks {
    ghost use Rattle.std.specs.Prelude.{ℕ, ◌%◌, ◌<◌, not, ◌&&◌, if◌then◌else◌, ◌==◌, ◌≢◌, nat_lt, slice_index};
    ghost use Rattle.grid.specs.Some.{some};
    ghost use Rattle.grid.specs.Sets.{has_tile};
    ghost use Rattle.marks.specs.Marked.{mark, marks_in, other_mark};

    // Each tick has the row. By itself, so that `new` needs no proof file: an edit of `new` is then refused at its clause.
    fn filled(row: Row) -> Marks
        ensures { (tile tick : ℕ) → mark result tile tick ≡ slice_index row.marks tile }
    {
        Marks { rows: [row; 128] }
    }

    // No tile has a mark.
    pub fn new() -> Marks
        ensures answer { (tile tick : ℕ) → tile < 64 → mark result tile tick ≡ 0 }
    {
        Marks::filled(Row::blank())
    }

    // The row of the tick.
    fn row(&self, tick: u32) -> &Row
        ensures { result.now.marks ≡ marks_in self.now.rows (tick % 128) }
    {
        &self.rows[(tick % 128) as usize]
    }

    // The mark of the tile at the tick: a vehicle's number, or 0.
    pub fn at(&self, tile: u32, tick: u32) -> u16
        ensures answer { result ≡ (if nat_lt tile 64 then mark self.now tile tick else 0) }
    {
        self.row(tick).mark(tile)
    }

    // Whether some tile of the set has at the tick the mark of another vehicle than this one.
    pub fn other_than(&self, tick: u32, tiles: TileSet, vehicle: u16) -> bool
        ensures answer { result ≡ some 64 (λ tile. has_tile tiles tile && other_mark self.now vehicle tile tick) }
    {
        self.row(tick).other_than(tiles, vehicle)
    }

    // The tiles that have a mark at the tick.
    pub fn tiles_marked(&self, tick: u32) -> TileSet
        ensures answer { (tile : ℕ) → tile < 64 → has_tile result tile ≡ not (mark self.now tile tick == 0) }
    {
        self.row(tick).tiles()
    }

    // Gives each tile of the set the mark `vehicle` at the tick; 0 takes its mark away.
    #[tactic(auto, using(std::proofs::lemmas::Grind::common_steps, crate::proofs::Rings::written_row, crate::proofs::Rings::other_row))]
    pub fn put(&mut self, tick: u32, tiles: TileSet, vehicle: u16)
        ensures here { (tile : ℕ) → tile < 64 → mark self.new tile tick ≡ (if has_tile tiles tile then vehicle else mark self.old tile tick) }
        ensures others { (tile u : ℕ) → tile < 64 → (u % 128 ≢ tick % 128) → mark self.new tile u ≡ mark self.old tile u }
    {
        // a local, since the checker builds no call at `self.rows[i]` beside a ghost field
        let rows = &mut self.rows;
        rows[(tick % 128) as usize].put(tiles, vehicle);
    }

    // Takes all marks of the tick away.
    #[tactic(auto, using(std::proofs::lemmas::Grind::common_steps, crate::proofs::Rings::written_row, crate::proofs::Rings::other_row))]
    pub fn clear(&mut self, tick: u32)
        ensures here { (tile : ℕ) → tile < 64 → mark self.new tile tick ≡ 0 }
        ensures others { (tile u : ℕ) → tile < 64 → (u % 128 ≢ tick % 128) → mark self.new tile u ≡ mark self.old tile u }
    {
        self.rows[(tick % 128) as usize] = Row::blank();
    }
}
