// A bureau's own policy, a junction that lets one vehicle through at a time, and its own layer, a limit on length.
#![tactic(auto)]

pub mod by_span;
pub mod length_limit;
pub mod one_at_a_time;
