// Distance: a layer that refuses who asks from too far away, by a limit for each lane that it learns from the answers
// below.
ghost use Rattle.std.specs.Prelude.{◌≡◌, if◌then◌else◌, Some, None, nat_lt, slice_index};
ghost use Rattle.layers.specs.Gates.{first_limits};

use super::lane_table::LaneTable;
use super::layer::Layer;

pub type Distance<P> = Layer<LaneTable, P>;

impl<P> Layer<LaneTable, P> {
    // The layer with all limits at first.
    pub fn over(below: P) -> Distance<P>
        ensures below { result.below ≡ below }
        ensures limits { result.own.limits ≡ first_limits }
    {
        Layer::new(LaneTable { limits: [2000; 8] }, below)
    }

    // The limit of a lane, or nothing for a number that no lane has.
    pub fn limit(&self, lane: u32) -> Option<u32>
        ensures answer { result ≡ (if nat_lt lane 8 then Some (slice_index self.now.own.limits lane) else None) }
    {
        self.own.limits.get(lane as usize).copied()
    }
}
