// From a body to its path.
ghost use Rattle.std.specs.Prelude.{◌≡◌, ◌+◌, ◌-◌, ◌/◌, ◌<◌, ◌≤◌, true};
ghost use Rattle.grid.specs.Bodies.{fits};
ghost use Rattle.grid.specs.Tracks.{PathOf};

use super::course::Course;
use super::junction::Junction;
use super::kinds::Body;
use super::path::Path;
use super::points::last_of;

// How many ticks a vehicle takes for a distance at a speed, rounded up. Apart from `work_out`, so that an edit of the
// rounding is refused at this clause.
#[tactic(auto, using(crate::proofs::Fitting::ceil_is))]
fn ticks_for(distance: u32, speed: u32) -> u32
    requires { 0 < speed }
    ensures { result ≡ (distance + speed - 1) / speed }
{
    distance.div_ceil(speed)
}

// The path of a body that fits.
fn work_out(junction: Junction, body: Body) -> Path
    requires { fits junction.lanes body ≡ true }
    ensures junction { result.junction ≡ junction }
    ensures body { result.body ≡ body }
{
    let last_point = last_of(junction, body.movement);
    let course = Course::new(junction, body);
    Path {
        junction,
        body,
        last_point,
        duration: ticks_for(last_point + body.length, body.speed),
        tiles: course.points_tiles(0, last_point),
        row: course.row,
    }
}

impl Path {
    // The path of the body, if the body fits the junction.
    pub fn of(junction: Junction, body: Body) -> Option<Path>
        ensures answer { PathOf junction body result }
    {
        if !body.fits(junction) {
            return None;
        }
        Some(work_out(junction, body))
    }
}
