// The rows of an answer that come before a clash.
ghost use Rattle.std.specs.Prelude.{None};
ghost use Rattle.policy.specs.Layers.{Stopped};
ghost use Rattle.rivals.specs.Screening.{Screens, told};

use grid::junction::Junction;
use ledger::ledger::Ledger;
use policy::screen::stop_rows;
use refusal::kinds::{Denial, Reason};
use reservation::footprint::Footprint;
use reservation::request::Request;

// Refuses the request whoever else stands: for its range or its time, or because its name stands. Apart from
// `screened`, so that an edit of what is asked is refused here and not in a proof.
fn stop(junction: Junction, clock: u32, ledger: &Ledger, request: &Request) -> Result<(), Reason>
    ensures { Stopped (told junction clock ledger.now) None request.now result }
{
    let standing = ledger.find(request.name());
    stop_rows(junction, clock, standing, request, None)
}

// The footprint of a request that is in range and in time, and whose name does not stand; else why it is refused. Inlined, so
// that a policy which looks at no cell, as a lock book, has none worked out.
#[inline(always)]
pub fn screened(
    junction: Junction,
    clock: u32,
    ledger: &Ledger,
    request: &Request,
) -> Result<Footprint, Denial>
    ensures answer { Screens (told junction clock ledger.now) request.now result }
{
    stop(junction, clock, ledger, request)?;
    Footprint::of(junction, request).ok_or(Denial::Because(Reason::Range))
}
