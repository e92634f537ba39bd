// How two requests meet.
ghost use Rattle.std.specs.Prelude.{◌≡◌, true};
ghost use Rattle.grid.specs.Some.{some};
ghost use Rattle.reservation.specs.Cells.{both_at, is_same_junction};
ghost use Rattle.reservation.specs.Meetings.{Locks, OfOne, Shares};

use super::footprint::Footprint;

impl Footprint {
    // Whether the two requests have a cell of one tile at the tick, each at its junction.
    fn share_at(&self, other: &Footprint, tick: u32) -> bool
        ensures { result ≡ some 64 (both_at self.now.junction self.now.request other.now.junction other.now.request tick) }
    {
        self.tiles_at(tick).meets(other.tiles_at(tick))
    }

    // Whether they share a cell at some tick.
    fn share_any(&self, other: &Footprint) -> bool
        requires { is_same_junction self.now.junction other.now.junction ≡ true }
        ensures { Shares self.now.junction self.now.request other.now.request result }
    {
        let later = self.request.entry.max(other.request.entry);
        let first = later.saturating_sub(self.junction.buffer);
        let last = self.last_tick().min(other.last_tick());
        let mut common = first..last + 1;
        common.any(|tick| self.share_at(other, tick))
    }

    // Whether the two requests share a cell; nothing where they are not of one junction.
    pub fn shares_cell(&self, other: &Footprint) -> Option<bool>
        ensures { OfOne self.now.junction other.now.junction (Shares self.now.junction self.now.request other.now.request) result }
    {
        if self.junction != other.junction {
            return None;
        }
        Some(self.share_any(other))
    }

    // Whether their paths touch a common tile and their spans overlap; nothing where they are not of one
    // junction.
    pub fn locks(&self, other: &Footprint) -> Option<bool>
        ensures { OfOne self.now.junction other.now.junction (Locks self.now.junction self.now.request other.now.request) result }
    {
        if self.junction != other.junction {
            return None;
        }
        Some(self.passage().locks(&other.passage()))
    }
}
