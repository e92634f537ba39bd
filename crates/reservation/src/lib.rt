// Requests for a reservation, and the cells that each takes: tiles at ticks.
#![tactic(auto)]

pub mod asking;
pub mod cells;
pub mod entries;
pub mod footprint;
pub mod making;
mod passage;
pub mod request;
pub mod spans;
