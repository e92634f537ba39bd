// Layers: policies that hold another policy and a gate of their own, which a request has to pass before that is asked.
#![tactic(auto)]

pub mod distance;
pub mod gate;
pub mod lane_table;
pub mod layer;
pub mod stop_line;
