// What a run is: its counts and clock, the calls that can be made on it, and what each of them means.
#![tactic(auto)]

pub mod call;
pub mod run;
