// The junction's grid: the paths over it, and the tiles that a vehicle touches on its way.
#![tactic(auto)]

pub mod bodies;
mod course;
pub mod junction;
pub mod kinds;
pub mod letters;
mod lookup;
pub mod making;
pub mod path;
pub mod points;
pub mod steps;
mod table;
pub mod tiles;
pub mod tracks;
