// The run calls by which vehicles arrive, ask for reservations, change and cancel them, and cross early or late. Each
// begins with its refusals, and alters nothing where it is refused.
#![tactic(auto)]

pub mod arriving;
pub mod asking;
pub mod holding;
mod lanes;
pub mod nudging;
mod sending;
