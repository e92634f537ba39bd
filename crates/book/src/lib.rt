// A policy over a ledger, for any way in which two requests clash.
#![tactic(auto)]

pub mod book;
mod judging;
pub mod lock_book;
pub mod making;
pub mod policy_of;
