// The points of a path.
ghost use Rattle.std.specs.Prelude.{◌≡◌, ◌+◌, ◌≤◌};
ghost use Rattle.grid.specs.Paths.{point_from_south, last_of, last_point_of, point_of_path, side, turn, turned};
ghost use Rattle.grid.specs.Tracks.{PointOf};

use super::junction::Junction;
use super::kinds::{Approach, Body, Movement, Point};
use super::path::Path;

// Where the square begins in both coordinates.
const RIM: u32 = 4;

// The number of a path's last point.
pub(crate) fn last_of(junction: Junction, movement: Movement) -> u32
    ensures value { result ≡ last_of junction.lanes movement }
    ensures bound { result ≤ 46 }
{
    let lanes = junction.lanes;
    match movement {
        Movement::Left => 16 * lanes + 14,
        Movement::Through => 16 * lanes + 6,
        Movement::Right => 14,
    }
}

// A point at most a tile outside the square of its junction.
#[derive(Clone, Copy)]
struct Spot {
    junction: Junction,
    point: Point,
    ghost x: { point.x ≤ side junction.lanes + 8 },
    ghost y: { point.y ≤ side junction.lanes + 8 },
}

// Point `i` of the path from the south in lane `lane`.
fn from_south(junction: Junction, lane: u32, movement: Movement, i: u32) -> Spot
    requires lane { lane + 1 ≤ junction.lanes }
    requires within { i ≤ last_of junction.lanes movement }
    ensures junction { result.junction ≡ junction }
    ensures point { result.point ≡ point_from_south junction.lanes lane movement i }
{
    let side = 16 * junction.lanes;
    let middle = 8 * junction.lanes;
    let x = RIM + middle + 4;
    let point = match movement {
        Movement::Through => Point {
            x: x + 8 * lane,
            y: RIM + side + 3 - i,
        },
        Movement::Right => {
            if i <= 7 {
                Point {
                    x: RIM + side - 4,
                    y: RIM + side + 3 - i,
                }
            } else {
                Point {
                    x: RIM + side + i - 11,
                    y: RIM + side - 4,
                }
            }
        }
        Movement::Left => {
            if i <= middle + 7 {
                Point {
                    x,
                    y: RIM + side + 3 - i,
                }
            } else {
                Point {
                    x: x + (middle + 7) - i,
                    y: RIM + middle - 4,
                }
            }
        }
    };
    Spot { junction, point }
}

impl Spot {
    // A quarter turn about the middle of the square.
    fn turned(self) -> Spot
        ensures junction { result.junction ≡ self.junction }
        ensures point { result.point ≡ turn self.junction.lanes self.point }
    {
        let Spot { junction, point } = self;
        let point = Point {
            x: RIM + 16 * junction.lanes + RIM - point.y,
            y: point.x,
        };
        Spot { junction, point }
    }

    // The point of the path from the south, as it lies for this approach.
    fn seen_from(self, approach: Approach) -> Point
        ensures { result ≡ turned self.junction.lanes approach self.point }
    {
        match approach {
            Approach::South => self.point,
            Approach::West => self.turned().point,
            Approach::North => self.turned().turned().point,
            Approach::East => self.turned().turned().turned().point,
        }
    }
}

impl Path {
    // Point `i` of the path.
    fn point_at(&self, i: u32) -> Point
        requires { i ≤ self.now.last_point }
        ensures { result ≡ point_of_path self.now.junction.lanes self.now.body i }
    {
        let Body {
            approach,
            movement,
            lane,
            ..
        } = self.body;
        from_south(self.junction, lane, movement, i).seen_from(approach)
    }

    // Point `i`, or nothing beyond the last.
    pub fn point(&self, i: u32) -> Option<Point>
        ensures answer { PointOf self.now i result }
    {
        if i > self.last_point {
            return None;
        }
        Some(self.point_at(i))
    }
}
