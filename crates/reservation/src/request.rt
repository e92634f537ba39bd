// What a vehicle asks for.
ghost use Rattle.std.specs.Prelude.{◌≡◌};
ghost use Rattle.reservation.specs.Requests.{name_of};

use grid::kinds::Body;
use refusal::kinds::Name;

// To cross from the tick `entry` on. Any numbers may stand here: `Footprint::of` checks them.
#[derive(Clone, Copy)]
pub struct Request {
    pub vehicle: u32,
    // the vehicle's own number of this request
    pub number: u32,
    pub body: Body,
    // from the stop line, in units
    pub distance: u32,
    pub entry: u32,
}

impl Request {
    pub fn name(&self) -> Name
        ensures answer { result ≡ name_of self.now }
    {
        Name {
            vehicle: self.vehicle,
            number: self.number,
        }
    }
}
