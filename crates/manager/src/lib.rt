// The manager: what is done with a message that is delivered.
#![tactic(auto)]

pub mod act;
mod clear;
mod judge;
