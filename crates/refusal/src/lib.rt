// Every refusal of the engine: an enum for each place that refuses, and the number of each case.
#![tactic(auto)]

mod conversions;
pub mod kinds;
pub mod numbers;
