// From a request to its footprint.
ghost use Rattle.std.specs.Prelude.{◌≡◌, length};
ghost use Rattle.reservation.specs.Footprints.{Swept};
ghost use Rattle.reservation.specs.Made.{FootprintOf, RequestPath};
ghost use Rattle.reservation.specs.Requests.{numbers_in_range};

use super::footprint::Footprint;
use super::request::Request;
use grid::junction::Junction;
use grid::path::Path;

// Whether the numbers beside the body are in their ranges.
fn numbers_fit(r: &Request) -> bool
    ensures { result ≡ numbers_in_range r.now }
{
    (1..=1024).contains(&r.vehicle)
        && (1..=1000).contains(&r.number)
        && r.distance <= 2000
        && r.entry <= 1_000_127
}

// The tiles at each tick of the span.
fn sweep(path: &Path) -> [u64; 47]
    ensures swept { Swept path.now.junction path.now.body result }
    ensures full { length result ≡ 47 }
{
    let slack = 2 * path.junction.buffer;
    let mut words = [0; 47];
    // not all 47 words are written, and `k` is a tick of the span as well as a place: `iter_mut` would say both again
    for k in 0..path.duration + slack {
        let tiles = path.steps_tiles(k.saturating_sub(slack), k);
        words[k as usize] = tiles.bits;
    }
    words
}

impl Request {
    // The path of the request's body, if all numbers of the request are in their ranges.
    pub fn path(&self, junction: Junction) -> Option<Path>
        ensures answer { RequestPath junction self.now result }
    {
        if !numbers_fit(self) {
            return None;
        }
        Path::of(junction, self.body)
    }
}

impl Footprint {
    // The footprint of the request, if all its numbers are in their ranges.
    pub fn of(junction: Junction, request: &Request) -> Option<Footprint>
        ensures answer { FootprintOf junction request.now result }
    {
        let path = request.path(junction)?;
        Some(Footprint {
            junction,
            request: *request,
            duration: path.duration,
            whole: path.tiles,
            words: sweep(&path),
        })
    }
}
