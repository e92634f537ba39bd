// The table of the paths, read: the tiles that are touched from some points of a path.
ghost use Rattle.std.specs.Prelude.{◌≡◌, ◌+◌, ◌*◌, ◌<◌, ◌≤◌, true, slice_index};
ghost use Rattle.grid.specs.Bodies.{fits};
ghost use Rattle.grid.specs.Sets.{Exactly};
ghost use Rattle.grid.specs.Steps.{path_touches, points_touch};
ghost use Rattle.grid.specs.Tables.{down_table, up_table};

use super::course::Course;
use super::junction::Junction;
use super::kinds::Body;
use super::table::{DOWN, UP};
use super::tiles::TileSet;

// A row of the table has this many points, and no path has more.
const POINTS: usize = 48;

// The word of a table for point `i` of a row.
fn word(table: &[u64; 1344], row: usize, i: usize) -> u64
    requires row { row < 28 }
    requires point { i < 48 }
    ensures { result ≡ slice_index table.now (48 * row + i) }
{
    table[POINTS * row + i]
}

impl Course {
    // The course of a body that fits.
    pub(crate) fn new(junction: Junction, body: Body) -> Course
        requires { fits junction.lanes body ≡ true }
        ensures junction { result.junction ≡ junction }
        ensures body { result.body ≡ body }
    {
        let lanes = junction.lanes as usize;
        let row = 12 * (lanes - 1)
            + (2 + lanes) * body.approach as usize
            + body.movement as usize
            + body.lane as usize;
        Course {
            junction,
            body,
            row,
        }
    }

    // The tiles that the body touches from the points `first` to `last` of its path. Each tile is touched from
    // consecutive points, so these are the tiles touched up to `last` and from `first` on.
    pub(crate) fn points_tiles(&self, first: u32, last: u32) -> TileSet
        requires order { first ≤ last }
        requires within { last < 48 }
        ensures { Exactly result (points_touch self.now.junction.lanes self.now.body first last) }
    {
        TileSet {
            bits: word(&UP, self.row, last as usize) & word(&DOWN, self.row, first as usize),
        }
    }
}
