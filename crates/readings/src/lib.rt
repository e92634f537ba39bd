// What a run tells of its clock, its counts and its vehicles. Nothing here alters anything.
#![tactic(auto)]

pub mod moment;
pub mod reading;
