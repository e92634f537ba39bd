// A body that fits its junction, with its path's row in the table.
ghost use Rattle.std.specs.Prelude.{◌≡◌, true};
ghost use Rattle.grid.specs.Bodies.{fits};
ghost use Rattle.grid.specs.Tables.{row_of};

use super::junction::Junction;
use super::kinds::Body;

#[derive(Clone, Copy)]
pub(crate) struct Course {
    pub(crate) junction: Junction,
    pub(crate) body: Body,
    pub(crate) row: usize,
    ghost fitting: { fits junction.lanes body ≡ true },
    ghost stands: { row ≡ row_of junction.lanes body },
}
