// Messages as lines of text: read, and written.
#![tactic(auto)]

pub mod faults;
mod fields_in;
mod keywords;
mod numbers;
pub mod reading;
pub mod round;
pub mod writing;
