// The six messages between the vehicles and the manager: their rows, their ranges and their fields.
#![tactic(auto)]

pub mod fields;
pub mod kinds;
pub mod making;
pub mod message;
pub mod ranges;
pub mod row;
