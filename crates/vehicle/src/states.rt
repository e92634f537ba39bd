// What a state tells of its vehicle.
ghost use Rattle.std.specs.Prelude.{◌≡◌};
ghost use Rattle.vehicle.specs.States.{awaited_of, held_of, is_in_lane};

use super::rows::{Claim, State};

impl State {
    // What the vehicle holds or crosses on.
    pub fn held(&self) -> Option<Claim>
        ensures answer { result ≡ held_of self.now }
    {
        match *self {
            State::Holding(held) | State::Changing { held, .. } | State::Crossing { held, .. } =>
                Some(held),
            _ => None,
        }
    }

    // What it awaits the answer to.
    pub fn awaited(&self) -> Option<Claim>
        ensures answer { result ≡ awaited_of self.now }
    {
        match *self {
            State::Asking(awaited) | State::Changing { awaited, .. } => Some(awaited),
            _ => None,
        }
    }

    // Whether the vehicle is still on its way to the stop line, or waits there.
    pub fn in_lane(&self) -> bool
        ensures answer { result ≡ is_in_lane self.now }
    {
        !matches!(self, State::Crossing { .. } | State::Done { .. })
    }
}
