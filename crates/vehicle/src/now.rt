// A moment at a junction, and how it lies to the first tick of a claim.
ghost use Rattle.std.specs.Prelude.{◌≡◌, ◌+◌, Decides};
ghost use Rattle.vehicle.specs.Hearing.{InTime};

use super::rows::Claim;
use grid::junction::Junction;

#[derive(Clone, Copy)]
pub struct Now {
    pub junction: Junction,
    pub clock: u32,
}

impl Now {
    // The entry of the claims whose first tick is this one.
    fn entry(self) -> u64
        ensures { result ≡ self.clock + self.junction.buffer }
    {
        self.clock as u64 + self.junction.buffer as u64
    }

    // Whether the first tick of the claim is still to come.
    pub fn is_before(self, claim: Claim) -> bool
        ensures answer { Decides result (InTime self.junction self.clock claim) }
    {
        claim.entry as u64 > self.entry()
    }

    // Whether this is the first tick of the claim.
    pub fn begins(self, claim: Claim) -> bool
        ensures answer { Decides result (claim.entry ≡ self.clock + self.junction.buffer) }
    {
        claim.entry as u64 == self.entry()
    }
}
