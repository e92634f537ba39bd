// How late a vehicle was.
ghost use Rattle.std.specs.Prelude.{◌≡◌};
ghost use Rattle.vehicle.specs.Delays.{delay_in, reach_of};

use super::rows::State;
use super::vehicle::Vehicle;

impl Vehicle {
    // How many ticks the vehicle takes to the stop line if it never waits.
    #[tactic(auto, using(crate::proofs::Reaches::moving, crate::proofs::Reaches::reach_is))]
    fn reach(&self) -> u32
        ensures { result ≡ reach_of self.now.row }
    {
        self.row.first_distance.div_ceil(self.row.body.speed)
    }

    // By how many ticks the vehicle was done later than if it had never waited; nothing before it is done.
    pub fn delay(&self) -> Option<u32>
        ensures answer { result ≡ delay_in self.now.junction self.now.row }
    {
        let State::Done { tick } = self.row.state else {
            return None;
        };
        let soonest = self.row.arrival + self.reach() + self.path().duration;
        Some(tick.saturating_sub(soonest))
    }
}
