// A junction: how many lanes each approach has, and how many ticks a vehicle may be off its plan.
ghost use Rattle.std.specs.Prelude.{◌≤◌};

#[derive(Clone, Copy, PartialEq, Eq)]
pub struct Junction {
    pub lanes: u32,
    pub buffer: u32,
    ghost some: { 1 ≤ lanes },
    ghost few: { lanes ≤ 2 },
    ghost short: { buffer ≤ 4 },
}
