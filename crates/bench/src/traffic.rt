// The requests that the calls are timed on.
use super::dice::Dice;
use grid::kinds::{Approach, Body, Movement};
use policy::policy::Policy;
use reservation::request::Request;
use std::alloc::AllocError;

const APPROACHES: [Approach; 4] = [
    Approach::North,
    Approach::East,
    Approach::South,
    Approach::West,
];

// The ways across a junction with two lanes to an approach, each with its lane.
const WAYS: [(Movement, u32); 4] = [
    (Movement::Left, 0),
    (Movement::Through, 0),
    (Movement::Through, 1),
    (Movement::Right, 1),
];

// A body of 4 to 32 units that fits a junction with two lanes to an approach, always the same for a vehicle.
fn body_of(vehicle: u32) -> Body {
    let (movement, lane) = WAYS[vehicle as usize / 4 % 4];
    Body {
        approach: APPROACHES[vehicle as usize % 4],
        movement,
        lane,
        length: 4 + vehicle % 29,
        speed: 2 + vehicle % 7,
    }
}

// A request of a vehicle at the line to enter at the tick.
pub(crate) fn request(vehicle: u32, number: u32, entry: u32) -> Request {
    Request {
        vehicle,
        number,
        body: body_of(vehicle),
        distance: 0,
        entry,
    }
}

// Asks a new policy for one request after the other, to enter at the tick `nearest` or up to 100 later, and notes those
// that were granted. The vehicles are few: requests of one vehicle do not clash, so that 64 come to stand.
pub(crate) fn fill<P: Policy>(
    policy: &mut P,
    nearest: u32,
    granted: &mut Vec<Request>,
) -> Result<(), AllocError> {
    let mut dice = Dice::new();
    for number in 1..1000u32 {
        let vehicle = 1 + dice.roll(16);
        let one = request(vehicle, number, nearest.saturating_add(dice.roll(100)));
        if policy.ask(&one).is_ok() {
            granted.push(one)?;
        }
    }
    Ok(())
}
