// The memories that a caller lends to a run: what every call checks of them, how mail moves there, and where a vehicle may
// stand behind another.
#![tactic(auto)]

pub mod mail;
pub mod places;
pub mod scene;
