// The memory of a tile table: which vehicle has each tile, at each of 128 ticks.
#![tactic(auto)]

mod bits;
pub mod marks;
mod row;
