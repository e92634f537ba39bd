// The bits of a word.
ghost use Rattle.std.specs.Prelude.{◌≡◌, ℕ, ◌<◌, true, not, ◌&&◌, if◌then◌else◌, ◌==◌};
ghost use Rattle.std.specs.Iterator.{at_most};
ghost use Rattle.grid.specs.Sets.{bit};
ghost use Rattle.marks.specs.Ones.{TakesOne};

// Turns the lowest bit that is 1 to 0, and says which it was.
pub(crate) fn take_lowest(word: &mut u64) -> u32
    requires { 0 < word.old }
    ensures within { result < 64 }
    ensures on { bit word.old result ≡ true }
    ensures bits { (j : ℕ) → bit word.new j ≡ (bit word.old j && not (j == result)) }
    ensures falls { word.new < word.old }
{
    let lowest = word.trailing_zeros();
    *word &= *word - 1;
    lowest
}

// The places of the bits of a word that are 1, from the lowest on.
#[derive(Drop)]
pub(crate) struct Ones {
    pub(crate) rest: u64,
}

impl Iterator for Ones {
    type Item = u32;

    ghost next_gives = { λ s k t. TakesOne s.rest k t.rest };

    ghost remaining = { λ s. at_most s.rest };

    fn next(&mut self) -> Option<u32> {
        if self.rest == 0 {
            return None;
        }
        Some(take_lowest(&mut self.rest))
    }
}

// The tiles that have a mark, once those of `tiles` are given the mark `vehicle`.
pub(crate) fn marked_after(taken: u64, tiles: u64, vehicle: u16) -> u64
    ensures { (j : ℕ) → bit result j ≡ (if bit tiles j then not (vehicle == 0) else bit taken j) }
{
    if vehicle == 0 {
        taken ^ (taken & tiles)
    } else {
        taken | tiles
    }
}
