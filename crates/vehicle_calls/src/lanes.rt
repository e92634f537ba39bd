// Who is in lane.
ghost use Rattle.std.specs.Prelude.{◌≡◌, None, Decides};
ghost use Rattle.grid.specs.Bodies.{lane_number_of};
ghost use Rattle.run.specs.Worlds.{is_of_lane, last_of_lane};

use grid::kinds::Body;
use vehicle::rows::VehicleRow;

// Whether the vehicle is in lane, in the lane of that number.
fn is_in(lane: u64, row: &VehicleRow) -> bool
    ensures { result ≡ is_of_lane lane row.now }
{
    row.state.in_lane() && row.body.lane_number() == lane
}

// The last of the rows that is in that lane. It is looked for from the end, where those that still wait are.
pub(crate) fn last_in(lane: u64, rows: &[VehicleRow]) -> Option<VehicleRow>
    ensures { result ≡ last_of_lane lane rows.now }
{
    rows.iter().rev().find(|row| is_in(lane, row)).copied()
}

// Whether a vehicle is the first in its lane, where these rows are those of lower numbers.
pub(crate) fn is_lead(lower: &[VehicleRow], body: Body) -> bool
    ensures { Decides result (last_of_lane (lane_number_of body) lower.now ≡ None) }
{
    last_in(body.lane_number(), lower).is_none()
}
