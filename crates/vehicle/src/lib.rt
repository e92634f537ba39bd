// Vehicles: their rows in memory and the records made of them, where they stand, how late they were, and what they
// make of a message.
#![tactic(auto)]

pub mod agent;
pub mod check;
pub mod delays;
pub mod now;
pub mod rows;
pub mod standing;
pub mod states;
pub mod vehicle;
