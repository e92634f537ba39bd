// The sides of a junction, the ways across it, and the body of a vehicle.

// The side that a vehicle comes from, numbered 0 to 3 in this order.
#[derive(Clone, Copy)]
pub enum Approach {
    North,
    East,
    South,
    West,
}

#[derive(Clone, Copy)]
pub enum Movement {
    Left,
    Through,
    Right,
}

// What the paths know of a vehicle. Any numbers may stand here: `Path::of` checks them.
#[derive(Clone, Copy)]
pub struct Body {
    pub approach: Approach,
    pub movement: Movement,
    // 0 at the middle of the road, one less than the junction's lanes at the kerb
    pub lane: u32,
    // in units
    pub length: u32,
    // in units a tick
    pub speed: u32,
}

// A point of a path, in units eastward and southward. Both are counted from 4 units outside the
// square's north-west corner, so that none is below 0.
#[derive(Clone, Copy)]
pub struct Point {
    pub x: u32,
    pub y: u32,
}
