// The tiles that a vehicle touches from a point, and in the steps of its crossing.
ghost use Rattle.std.specs.Prelude.{◌≡◌, ◌+◌, ◌-◌, ◌*◌, ◌<◌, ◌≤◌, min};
ghost use Rattle.grid.specs.Paths.{point_touches};
ghost use Rattle.grid.specs.Sets.{Exactly};
ghost use Rattle.grid.specs.Steps.{step_touches, steps_touch};
ghost use Rattle.grid.specs.Tracks.{PointTiles, StepTiles};

use super::path::Path;
use super::tiles::TileSet;

// The first point that a vehicle of that length covers in a step.
fn rear_point(step: u32, speed: u32, length: u32) -> u32
    requires { step * speed < 100 }
    ensures { result ≡ step * speed - length }
{
    (step * speed).saturating_sub(length)
}

// The last point that a vehicle covers in a step, or the last one of the table.
fn front_point(step: u32, speed: u32) -> u32
    requires far { step * speed < 100 }
    requires moving { 1 ≤ speed }
    requires slow { speed ≤ 8 }
    ensures { result ≡ min (step * speed + speed - 1) 47 }
{
    (step * speed + speed - 1).min(47)
}

impl Path {
    // The tiles that the vehicle touches from a point of the path.
    fn tiles_from(&self, i: u32) -> TileSet
        requires { i ≤ self.now.last_point }
        ensures { Exactly result (point_touches self.now.junction.lanes self.now.body i) }
    {
        self.course().points_tiles(i, i)
    }

    // The tiles that it touches in the steps `first` to `last`, of which there are those up to `top`.
    fn tiles_during(&self, first: u32, last: u32, top: u32) -> TileSet
        requires { top ≡ min last (self.now.duration - 1) }
        ensures { Exactly result (steps_touch self.now.junction.lanes self.now.body first last) }
    {
        if first > top {
            return TileSet::default();
        }
        let speed = self.body.speed;
        let from = rear_point(first, speed, self.body.length);
        let to = front_point(top, speed);
        self.course().points_tiles(from, to)
    }

    // The tiles that it touches in a step.
    fn tiles_in(&self, s: u32) -> TileSet
        ensures { Exactly result (step_touches self.now.junction.lanes self.now.body s) }
    {
        self.steps_tiles(s, s)
    }

    // The tiles that the vehicle touches from point `i`, if there is such a point.
    pub fn point_tiles(&self, i: u32) -> Option<TileSet>
        ensures answer { PointTiles self.now i result }
    {
        if i > self.last_point {
            return None;
        }
        Some(self.tiles_from(i))
    }

    // The tiles that it touches in step `s`, if there is such a step.
    pub fn step_tiles(&self, s: u32) -> Option<TileSet>
        ensures answer { StepTiles self.now s result }
    {
        if s >= self.duration {
            return None;
        }
        Some(self.tiles_in(s))
    }

    // The tiles that it touches in the steps `first` to `last`, as far as there are such steps.
    pub fn steps_tiles(&self, first: u32, last: u32) -> TileSet
        ensures answer { Exactly result (steps_touch self.now.junction.lanes self.now.body first last) }
    {
        let top = last.min(self.duration - 1);
        self.tiles_during(first, last, top)
    }
}
