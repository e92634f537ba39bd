// Releases of what a vehicle asked for earlier.
ghost use Rattle.std.specs.Prelude.{Decides};
ghost use Rattle.run.specs.Manager.{Cleared, Stale};
ghost use Rattle.run.specs.Worlds.{conduct};

use policy::policy::Policy;
use reservation::request::Request;

// Whether the request is one of the vehicle's, and not its base.
fn is_stale(vehicle: u32, base: Option<u32>, request: &Request) -> bool
    ensures { Decides result (Stale vehicle base request.now) }
{
    request.vehicle == vehicle && base != Some(request.number)
}

// Releases the vehicle's standing requests but its base, in the order granted. The place is counted by hand, since a
// release moves the later requests up: the next one to look at then stands at the same place.
pub(crate) fn release_stale<P: Policy>(policy: &mut P, vehicle: u32, base: Option<u32>)
    ensures { Cleared (conduct P.view P.asks P.releases P.advances) vehicle base policy.old policy.new }
{
    let mut i = 1;
    while let Some(request) = policy.at(i) {
        if is_stale(vehicle, base, &request) {
            let _ = policy.release(request.name());
        } else {
            i += 1;
        }
    }
}
