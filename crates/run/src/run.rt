// The state of a run beside its memories and its policy.
ghost use Rattle.std.specs.Prelude.{◌≤◌};

use grid::junction::Junction;

#[derive(Clone, Copy)]
pub struct Run {
    pub junction: Junction,
    pub clock: u32,
    // how many rows of the lent memories are vehicles, and how many are messages
    pub vehicles: usize,
    pub mail: usize,
    ghost early: { clock ≤ 1000000 },
}
