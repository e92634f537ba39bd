// A search for who is in the way.
ghost use Rattle.std.specs.Prelude.{◌≡◌, true, Decides};
ghost use Rattle.reservation.specs.Requests.{in_range};
ghost use Rattle.ledger.specs.Standings.{requests};
ghost use Rattle.rivals.specs.Rivals.{Rival, Sought};

use super::clashes::Clashes;
use ledger::standing::Standing;
use refusal::kinds::Name;
use reservation::footprint::Footprint;
use reservation::request::Request;

// Whether the request, of the footprint's junction, is in range and clashes with the footprint's.
fn clashes_with<C: Clashes>(request: &Request, footprint: &Footprint) -> bool
    ensures { Decides result ((in_range footprint.now.junction request.now ≡ true) × C.clash footprint.now.junction request.now footprint.now.request) }
{
    Footprint::of(footprint.junction, request)
        .and_then(|other| C::clashes(&other, footprint))
        .unwrap_or(false)
}

// Whether the request is a rival of the footprint's.
fn is_rival<C: Clashes>(request: &Request, footprint: &Footprint) -> bool
    ensures { Decides result (Rival C.clash footprint.now.junction footprint.now.request request.now) }
{
    request.vehicle != footprint.request.vehicle && clashes_with::<C>(request, footprint)
}

// The name of the first standing request that is a rival.
fn first_rival<C: Clashes>(standing: &[Standing], footprint: &Footprint) -> Option<Name>
    ensures { Sought (Rival C.clash footprint.now.junction footprint.now.request) (requests standing.now) result }
{
    standing
        .iter()
        .find(|one| is_rival::<C>(&one.request, footprint))
        .map(|one| one.request.name())
}

// The name of the earliest standing request that is in the way of the footprint's. Apart from the search, so that an
// edit of what is searched is refused here and not in a proof.
pub fn earliest_rival<C: Clashes>(standing: &[Standing], footprint: &Footprint) -> Option<Name>
    ensures answer { Sought (Rival C.clash footprint.now.junction footprint.now.request) (requests standing.now) result }
{
    first_rival::<C>(standing, footprint)
}
