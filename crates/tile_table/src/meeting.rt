// A pass that looks for marks of others.
ghost use Rattle.std.specs.Prelude.{◌≡◌, Decides};
ghost use Rattle.tile_table.specs.Painting.{Foreign, ForeignAt};

use marks::marks::Marks;
use reservation::footprint::Footprint;

// The mark of the request's cells: a vehicle in range has a number that fits.
pub(crate) fn mark_of(footprint: &Footprint) -> u16
    ensures { result ≡ footprint.now.request.vehicle }
{
    footprint.request.vehicle as u16
}

// Whether some cell of the request at the tick has another vehicle's mark than `vehicle`.
fn meets_at(marks: &Marks, footprint: &Footprint, vehicle: u16, tick: u32) -> bool
    ensures { Decides result (ForeignAt marks.now footprint.now.junction footprint.now.request vehicle tick) }
{
    marks.other_than(tick, footprint.tiles_at(tick), vehicle)
}

// The same at any tick.
fn meets(marks: &Marks, footprint: &Footprint, vehicle: u16) -> bool
    ensures { Decides result (Foreign marks.now footprint.now.junction footprint.now.request vehicle) }
{
    let mut span = footprint.first_tick()..footprint.last_tick() + 1;
    span.any(|tick| meets_at(marks, footprint, vehicle, tick))
}

// Whether some cell of the request has another vehicle's mark.
pub(crate) fn meets_other(marks: &Marks, footprint: &Footprint) -> bool
    ensures { Decides result (Foreign marks.now footprint.now.junction footprint.now.request footprint.now.request.vehicle) }
{
    let own = mark_of(footprint);
    meets(marks, footprint, own)
}
