// What a tick makes of the vehicles: their distances, their entries and their ends.
#![tactic(auto)]

mod distances;
mod lanes;
mod states;
pub mod turning;
