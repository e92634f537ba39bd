// The ticks that a tile table stores marks for.
ghost use Rattle.std.specs.Prelude.{◌≤◌};

use grid::junction::Junction;

// The 128 ticks from the clock on, at this junction.
#[derive(Clone, Copy)]
pub(crate) struct Window {
    pub(crate) junction: Junction,
    pub(crate) clock: u32,
    ghost early: { clock ≤ 1000000 },
}
