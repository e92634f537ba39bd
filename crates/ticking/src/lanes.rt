// The lanes, as the vehicles in them stood before the tick.
ghost use Rattle.std.specs.Prelude.{◌≡◌, ℕ, length, Some, None, slice_index_or, slice_set};
ghost use Rattle.grid.specs.Bodies.{lane_number_of};
ghost use Rattle.ticking.specs.Turning.{noted};

use lent::places::place_behind;
use vehicle::rows::VehicleRow;

// The place behind the last vehicle that was seen in each lane, by lane number: four approaches have at most two lanes each.
#[derive(Clone, Copy)]
pub(crate) struct Lanes {
    behind: [Option<u64>; 8],
    ghost full: { length behind ≡ 8 },
}

impl Lanes {
    // No vehicle was seen yet.
    pub(crate) fn new() -> Lanes
        ensures { (lane : ℕ) → slice_index_or result.behind lane None ≡ None }
    {
        Lanes { behind: [None; 8] }
    }

    // Not by `get_mut`: of what it lends, no proof knows the lanes afterwards.
    fn put(&mut self, lane: u64, place: u64)
        ensures { self.new.behind ≡ slice_set self.old.behind lane (Some place) }
    {
        if lane < 8 {
            self.behind[lane as usize] = Some(place);
        }
    }

    // The place behind the next vehicle ahead of this one, if there is one.
    pub(crate) fn place_ahead(&self, row: &VehicleRow) -> Option<u64>
        ensures { result ≡ slice_index_or self.now.behind (lane_number_of row.now.body) None }
    {
        let lane = row.body.lane_number() as usize;
        self.behind.get(lane).copied().flatten()
    }

    // Notes this vehicle's place, if it is in lane.
    pub(crate) fn see(&mut self, row: &VehicleRow)
        ensures { self.new.behind ≡ noted self.old.behind row.now }
    {
        if row.state.in_lane() {
            self.put(row.body.lane_number(), place_behind(row));
        }
    }
}
