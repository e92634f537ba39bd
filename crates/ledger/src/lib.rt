// The requests that stand at a junction, in the order granted.
#![tactic(auto)]

pub mod editing;
pub mod ledger;
pub mod reading;
mod scan;
pub mod standing;
