// Lists of run calls, and what holds after every one of them.
#![tactic(auto)]

pub mod apply;
pub mod played;
pub mod replay;
