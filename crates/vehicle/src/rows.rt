// What the memory of vehicles holds. Any numbers may stand in a row: `Vehicle::of` checks them.
use grid::kinds::Body;

// A vehicle's own number of a request, with the tick of its entry.
#[derive(Clone, Copy)]
pub struct Claim {
    pub number: u32,
    pub entry: u32,
}

#[derive(Clone, Copy)]
pub enum State {
    // has no reservation and awaits no answer
    Idle,
    // awaits the answer to a request
    Asking(Claim),
    // has been told of a reservation
    Holding(Claim),
    // has a reservation and awaits the answer to a change
    Changing { held: Claim, awaited: Claim },
    // is on its way across, by so many ticks later than planned, and was nudged last at that tick: 0 is never, since none is
    // nudged at tick 0
    Crossing { held: Claim, lag: i32, nudged: u32 },
    // has crossed, at that tick
    Done { tick: u32 },
}

#[derive(Clone, Copy)]
pub struct VehicleRow {
    pub body: Body,
    // from the stop line, in units: now, and when it arrived
    pub distance: u32,
    pub first_distance: u32,
    // the tick of its arrival
    pub arrival: u32,
    // the highest request number that the vehicle has used, and that the manager has taken from it
    pub used: u32,
    pub heard: u32,
    pub state: State,
}
