// The run calls by name, and their answers.
use grid::kinds::Body;
use refusal::kinds::CallFault;

// A call with its arguments, which may be any. Vehicles and messages are numbered from 1.
#[derive(Clone, Copy)]
pub enum Call {
    Open,
    Arrive { body: Body, distance: u32 },
    Ask { vehicle: u32, entry: u32 },
    Change { vehicle: u32, entry: u32 },
    Cancel { vehicle: u32 },
    Nudge { vehicle: u32, by: i32 },
    Deliver { message: u32 },
    Lose { message: u32 },
    Repeat { message: u32 },
    Tick,
}

// What a call answers: an accepted one the number of the vehicle that arrived or of the request that was sent, or none.
pub type Answer = Result<Option<u32>, CallFault>;
