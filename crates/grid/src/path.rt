// The path of a body that fits its junction, with what is worked out of it once.
ghost use Rattle.std.specs.Prelude.{◌≡◌, true};
ghost use Rattle.grid.specs.Bodies.{fits};
ghost use Rattle.grid.specs.Paths.{last_point_of};
ghost use Rattle.grid.specs.Sets.{Exactly};
ghost use Rattle.grid.specs.Steps.{duration_of, path_touches};
ghost use Rattle.grid.specs.Tables.{row_of};

use super::course::Course;
use super::junction::Junction;
use super::kinds::Body;
use super::tiles::TileSet;

#[derive(Clone, Copy)]
pub struct Path {
    pub junction: Junction,
    pub body: Body,
    // the number of the last point; the first is 0
    pub last_point: u32,
    // the ticks that the crossing takes
    pub duration: u32,
    // the tiles of the whole path
    pub tiles: TileSet,
    // the path's row in the table
    pub(crate) row: usize,
    ghost fitting: { fits junction.lanes body ≡ true },
    ghost ends: { last_point ≡ last_point_of junction.lanes body },
    ghost lasts: { duration ≡ duration_of junction.lanes body },
    ghost crosses: { Exactly tiles (path_touches junction.lanes body) },
    ghost stands: { row ≡ row_of junction.lanes body },
}

impl Path {
    // Its body and its row, which stand in the path itself, where callers read the body.
    pub(crate) fn course(&self) -> Course
        ensures junction { result.junction ≡ self.now.junction }
        ensures body { result.body ≡ self.now.body }
    {
        Course {
            junction: self.junction,
            body: self.body,
            row: self.row,
        }
    }
}
