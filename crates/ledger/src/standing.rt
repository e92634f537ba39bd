// A request that stands.
use reservation::request::Request;

// Its last tick stands beside it, so that nothing has to work it out again.
#[derive(Clone, Copy)]
pub struct Standing {
    pub request: Request,
    pub last_tick: u32,
}

// 64 stand, so that no other can.
#[derive(Clone, Copy)]
pub struct Full;
