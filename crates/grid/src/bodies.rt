// The ranges of a body, and its lane's number.
ghost use Rattle.std.specs.Prelude.{◌≡◌};
ghost use Rattle.grid.specs.Bodies.{fits, lane_number_of, lane_rule};

use super::junction::Junction;
use super::kinds::{Body, Movement};

// Whether vehicles of this movement start in this lane.
fn lane_suits(lanes: u32, lane: u32, movement: Movement) -> bool
    ensures { result ≡ lane_rule lanes lane movement }
{
    match movement {
        Movement::Left => lane == 0,
        Movement::Through => true,
        Movement::Right => lane as u64 + 1 == lanes as u64,
    }
}

impl Body {
    // Whether the body fits the junction: its numbers are in their ranges, and its lane suits its movement.
    #[tactic(auto, using(std::proofs::lemmas::Bool::Decides::nat_tests), unfolding(crate::specs::Bodies::fits))]
    pub fn fits(&self, junction: Junction) -> bool
        ensures answer { result ≡ fits junction.lanes self.now }
    {
        self.lane < junction.lanes
            && lane_suits(junction.lanes, self.lane, self.movement)
            && (4..=32).contains(&self.length)
            && (2..=8).contains(&self.speed)
    }

    // The number of the body's lane among all lanes of the junction.
    pub fn lane_number(&self) -> u64
        ensures answer { result ≡ lane_number_of self.now }
    {
        2 * self.approach as u64 + self.lane as u64
    }
}
