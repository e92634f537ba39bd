// The run calls that are no vehicle's own: a run is opened, a message is delivered, lost or repeated, and a tick passes. Each
// begins with its refusals, and alters nothing where it is refused.
#![tactic(auto)]

pub mod delivering;
pub mod leaving;
pub mod opening;
pub mod repeating;
pub mod time;
