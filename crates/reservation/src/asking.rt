// How a request meets one whose tiles at each tick are not worked out.
ghost use Rattle.std.specs.Prelude.{◌≡◌, true};
ghost use Rattle.reservation.specs.Meetings.{InRangeOf, Locks};
ghost use Rattle.reservation.specs.Requests.{in_range};

use super::footprint::Footprint;
use super::passage::Passage;
use super::request::Request;
use grid::path::Path;

impl Footprint {
    pub(crate) fn passage(&self) -> Passage
        ensures junction { result.junction ≡ self.now.junction }
        ensures request { result.request ≡ self.now.request }
    {
        Passage {
            junction: self.junction,
            request: self.request,
            tiles: self.whole,
            first: self.first_tick(),
            last: self.last_tick(),
        }
    }

    // Whether their paths touch a common tile and their spans overlap, at this footprint's junction; nothing where
    // the request is not in range. It costs far less than the request's footprint.
    pub fn locks_request(&self, request: &Request) -> Option<bool>
        ensures answer { InRangeOf self.now.junction request.now (Locks self.now.junction self.now.request request.now) result }
    {
        let path = request.path(self.junction)?;
        Some(self.passage().locks(&passage_on(&path, request)))
    }
}

// The passage of a request in range, on its body's path.
fn passage_on(path: &Path, request: &Request) -> Passage
    requires ranged { in_range path.now.junction request.now ≡ true }
    requires body { path.now.body ≡ request.now.body }
    ensures junction { result.junction ≡ path.now.junction }
    ensures request { result.request ≡ request.now }
{
    let buffer = path.junction.buffer;
    Passage {
        junction: path.junction,
        request: *request,
        tiles: path.tiles,
        first: request.entry.saturating_sub(buffer),
        last: request.entry + path.duration + buffer - 1,
    }
}
