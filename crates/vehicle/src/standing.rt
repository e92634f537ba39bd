// Where a vehicle stands.
ghost use Rattle.vehicle.specs.Standing.{OnStep, PathOf, Stands, StepAt};

use super::rows::State;
use super::vehicle::Vehicle;
use grid::path::Path;
use grid::tiles::TileSet;

// The step at which a crossing of this entry and lag is by now, if it is at one of the first 2^32.
fn step_at(clock: u32, entry: u32, lag: i32) -> Option<u32>
    ensures { StepAt clock entry lag result }
{
    let step = clock as i64 - entry as i64 - lag as i64;
    u32::try_from(step).ok()
}

// The tiles on which a vehicle of this path stands when it crosses with this entry and lag.
fn crossing_tiles(path: &Path, clock: u32, entry: u32, lag: i32) -> TileSet
    ensures { OnStep path.now clock entry lag result }
{
    let Some(step) = step_at(clock, entry, lag) else {
        return TileSet::default();
    };
    path.step_tiles(step).unwrap_or_default()
}

impl Vehicle {
    // The way across that the vehicle takes.
    #[tactic(auto, unfolding(crate::specs::Rows::good_row))]
    pub fn path(&self) -> Path
        ensures answer { PathOf self.now result }
    {
        Path::of(self.junction, self.row.body).unwrap()
    }

    // The tiles on which the vehicle stands at the tick: those of its step if it is crossing.
    pub fn tiles(&self, clock: u32) -> TileSet
        ensures answer { Stands self.now.junction clock self.now.row result }
    {
        match self.row.state {
            State::Crossing { held, lag, .. } => {
                let path = self.path();
                crossing_tiles(&path, clock, held.entry, lag)
            }
            _ => TileSet::default(),
        }
    }
}
