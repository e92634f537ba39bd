// Making a junction.
ghost use Rattle.grid.specs.Junctions.{Makes};

use super::junction::Junction;
use refusal::kinds::JunctionFault;

impl Junction {
    // A junction with that many lanes to an approach and a buffer of that many ticks.
    pub fn new(lanes: u32, buffer: u32) -> Result<Junction, JunctionFault>
        ensures answer { Makes lanes buffer result }
    {
        if lanes != 1 && lanes != 2 {
            return Err(JunctionFault::Lanes);
        }
        if buffer > 4 {
            return Err(JunctionFault::Buffer);
        }
        Ok(Junction { lanes, buffer })
    }
}
