// Sets of tiles. A tile's number is 8 × row + column, whatever the junction's lanes.
ghost use Rattle.std.specs.Prelude.{◌≡◌, ◌&&◌};
ghost use Rattle.grid.specs.Some.{some};
ghost use Rattle.grid.specs.Sets.{has_tile};

// The tiles whose bits are 1.
#[derive(Clone, Copy, Default)]
pub struct TileSet {
    pub bits: u64,
}

impl TileSet {
    // Whether the set has the tile.
    #[tactic(auto, using(crate::proofs::Digits::bit_shift, crate::proofs::Digits::no_bit))]
    pub fn has(self, tile: u32) -> bool
        ensures answer { result ≡ has_tile self tile }
    {
        tile < 64 && self.bits >> tile & 1 == 1
    }

    // Whether the two sets have a tile in common.
    #[tactic(auto, using(crate::proofs::Digits::meets))]
    pub fn meets(self, other: TileSet) -> bool
        ensures answer { result ≡ some 64 (λ tile. has_tile self tile && has_tile other tile) }
    {
        self.bits & other.bits != 0
    }
}
