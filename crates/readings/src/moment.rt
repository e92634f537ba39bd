// How far a run is.

#[derive(Clone, Copy)]
pub struct Moment {
    pub clock: u32,
    // how many have arrived
    pub vehicles: usize,
    // how many messages are under way
    pub mail: usize,
}
