// Fields of bytes parted by commas: cut out of a text, read as numbers, and written.
#![tactic(auto)]

pub mod cutting;
pub mod numbers;
pub mod writing;
