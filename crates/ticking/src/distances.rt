// How far vehicles are from the stop line.
ghost use Rattle.std.specs.Prelude.{◌≡◌, if◌then◌else◌};
ghost use Rattle.vehicle.specs.States.{is_in_lane};
ghost use Rattle.run.specs.Ticks.{closer};

use vehicle::rows::VehicleRow;

// How far the vehicle is from the line after the tick.
fn closer_by(row: &VehicleRow, place: Option<u64>) -> u32
    ensures { result ≡ closer row.now place }
{
    let on = row.distance.saturating_sub(row.body.speed);
    (row.distance as u64).min((on as u64).max(place.unwrap_or(0))) as u32
}

// The same, for any vehicle: who is not in lane keeps its distance.
pub(crate) fn distance_after(row: &VehicleRow, place: Option<u64>) -> u32
    ensures { result ≡ (if is_in_lane row.now.state then closer row.now place else row.now.distance) }
{
    if row.state.in_lane() {
        closer_by(row, place)
    } else {
        row.distance
    }
}
