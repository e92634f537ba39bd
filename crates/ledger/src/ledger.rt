// The list of the requests that stand: at most 64, with the memory of all reserved when it is made.
ghost use Rattle.std.specs.Prelude.{◌≤◌, vec_len, vec_capacity};
ghost use Rattle.ledger.specs.Standings.{Sooner};

use super::standing::Standing;

#[derive(Drop)]
pub struct Ledger {
    pub(crate) standing: Vec<Standing>,
    // no last tick is below it, so that a clock up to it has nothing to take out
    pub(crate) soonest: u32,
    ghost room: { 64 ≤ vec_capacity standing },
    ghost few: { vec_len standing ≤ 64 },
    ghost sooner: { Sooner soonest standing.items },
}
