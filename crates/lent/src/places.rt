// Where a vehicle may stand behind another.
ghost use Rattle.std.specs.Prelude.{◌≡◌};
ghost use Rattle.run.specs.Worlds.{place_behind_of};

use vehicle::rows::VehicleRow;

// The least distance of a vehicle behind this one, whose rear it stays two units clear of.
pub fn place_behind(row: &VehicleRow) -> u64
    ensures answer { result ≡ place_behind_of row.now }
{
    row.distance as u64 + row.body.length as u64 + 2
}
