// A request in range, worked out once: its duration, and its tiles at each tick of its span.
ghost use Rattle.std.specs.Prelude.{◌≡◌, true, length};
ghost use Rattle.grid.specs.Sets.{Exactly};
ghost use Rattle.grid.specs.Steps.{duration_of, path_touches};
ghost use Rattle.reservation.specs.Footprints.{Swept};
ghost use Rattle.reservation.specs.Requests.{in_range};

use super::request::Request;
use grid::junction::Junction;
use grid::tiles::TileSet;

#[derive(Clone, Copy)]
pub struct Footprint {
    pub junction: Junction,
    pub request: Request,
    // the ticks that the crossing takes
    pub duration: u32,
    // the tiles of the whole path
    pub whole: TileSet,
    // the tiles at each tick of the span: at most 39 ticks of crossing and two buffers of 4
    pub(crate) words: [u64; 47],
    ghost ranged: { in_range junction request ≡ true },
    ghost lasts: { duration ≡ duration_of junction.lanes request.body },
    ghost crosses: { Exactly whole (path_touches junction.lanes request.body) },
    ghost swept: { Swept junction request.body words },
    ghost full: { length words ≡ 47 },
}
