// The cells of a request.
ghost use Rattle.std.specs.Prelude.{◌≡◌};
ghost use Rattle.reservation.specs.Meetings.{CellsAt};
ghost use Rattle.reservation.specs.Requests.{first_tick_of, last_tick_of};

use super::footprint::Footprint;
use grid::tiles::TileSet;

impl Footprint {
    // The word of the tiles at the tick. It stands apart, so that a must-fail edit of `tiles_at` is refused in src/.
    fn word_at(&self, tick: u32) -> u64
        ensures { CellsAt self.now.junction self.now.request tick result }
    {
        let shifted = tick as u64 + self.junction.buffer as u64;
        let entry = self.request.entry as u64;
        if shifted < entry {
            return 0;
        }
        let at = shifted - entry;
        if at >= self.duration as u64 + 2 * self.junction.buffer as u64 {
            return 0;
        }
        self.words[at as usize]
    }

    // The tiles whose cells at the tick the request has.
    pub fn tiles_at(&self, tick: u32) -> TileSet
        ensures { CellsAt self.now.junction self.now.request tick result.bits }
    {
        TileSet {
            bits: self.word_at(tick),
        }
    }

    // The first tick of the span.
    pub fn first_tick(&self) -> u32
        ensures answer { result ≡ first_tick_of self.now.junction self.now.request }
    {
        self.request.entry.saturating_sub(self.junction.buffer)
    }

    // The last tick of the span.
    pub fn last_tick(&self) -> u32
        ensures answer { result ≡ last_tick_of self.now.junction self.now.request }
    {
        self.request.entry + self.duration + self.junction.buffer - 1
    }
}
