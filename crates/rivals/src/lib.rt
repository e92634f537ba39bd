// The standing requests that are in the way of a request.
#![tactic(auto)]

pub mod clashes;
pub mod rivals;
pub mod screening;
