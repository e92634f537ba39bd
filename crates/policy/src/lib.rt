// What a policy is: the interface that every policy of a junction, ours or a client's, proves.
#![tactic(auto)]

pub mod both;
pub mod policy;
pub mod screen;
