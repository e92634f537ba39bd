// The tiles and the ticks of a request, without which tile at which tick: all that a lock knows.
ghost use Rattle.std.specs.Prelude.{◌≡◌, ◌&&◌, true, nat_le};
ghost use Rattle.grid.specs.Sets.{Exactly};
ghost use Rattle.grid.specs.Steps.{path_touches};
ghost use Rattle.reservation.specs.Cells.{is_same_junction};
ghost use Rattle.reservation.specs.Meetings.{Locks};
ghost use Rattle.reservation.specs.Requests.{first_tick_of, last_tick_of};

use super::request::Request;
use grid::junction::Junction;
use grid::tiles::TileSet;

#[derive(Clone, Copy)]
pub(crate) struct Passage {
    pub(crate) junction: Junction,
    pub(crate) request: Request,
    pub(crate) tiles: TileSet,
    pub(crate) first: u32,
    pub(crate) last: u32,
    ghost crosses: { Exactly tiles (path_touches junction.lanes request.body) },
    ghost begins: { first ≡ first_tick_of junction request },
    ghost ends: { last ≡ last_tick_of junction request },
}

impl Passage {
    // Whether the two have a tick in common.
    fn overlaps(&self, other: &Passage) -> bool
        ensures { result ≡ (nat_le self.now.first other.now.last && nat_le other.now.first self.now.last) }
    {
        self.first <= other.last && other.first <= self.last
    }

    // Whether the two touch a common tile, and have a tick in common.
    pub(crate) fn locks(&self, other: &Passage) -> bool
        requires { is_same_junction self.now.junction other.now.junction ≡ true }
        ensures { Locks self.now.junction self.now.request other.now.request result }
    {
        self.tiles.meets(other.tiles) && self.overlaps(other)
    }
}
