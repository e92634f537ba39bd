// The record of a vehicle: a row that passed the check, at its junction.
ghost use Rattle.std.specs.Prelude.{◌≡◌, true};
ghost use Rattle.vehicle.specs.Rows.{good_row};

use super::rows::VehicleRow;
use grid::junction::Junction;

#[derive(Clone, Copy)]
pub struct Vehicle {
    pub junction: Junction,
    pub row: VehicleRow,
    ghost ok: { good_row junction row ≡ true },
}
