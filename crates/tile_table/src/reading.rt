// What a tile table tells of its marks.
ghost use Rattle.std.specs.Prelude.{◌≡◌, ◌+◌, ◌&&◌, if◌then◌else◌, Some, None, nat_le, nat_lt};
ghost use Rattle.marks.specs.Marked.{mark};
ghost use Rattle.tile_table.specs.Tables.{view_of};

use super::table::TileTable;

impl TileTable {
    // The mark of a tile at one of the 128 ticks from the clock on: the vehicle that has it, or 0.
    pub fn mark(&self, tile: u32, tick: u32) -> Option<u16>
        ensures answer { result ≡ (if nat_lt tile 64 && nat_le (view_of self.now).clock tick && nat_lt tick ((view_of self.now).clock + 128) then Some (mark self.now.marks tile tick) else None) }
    {
        if tile >= 64 || tick < self.window.clock || tick - self.window.clock >= 128 {
            return None;
        }
        Some(self.marks.at(tile, tick))
    }
}
