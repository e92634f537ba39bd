// The tile table: a policy that stores, for each tile and each of the 128 ticks from the clock on, who has it.
#![tactic(auto)]

mod changes;
mod judging;
pub mod making;
mod meeting;
mod painting;
pub mod policy_of;
pub mod reading;
pub mod table;
mod window;
