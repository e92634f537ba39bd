// When two requests clash at a junction that lets one vehicle through at a time.
ghost use Rattle.std.specs.Prelude.{◌≡◌, Decides, true};
ghost use Rattle.reservation.specs.Cells.{is_same_junction};
ghost use Rattle.bureau.specs.Spans.{SpanClash};
ghost use Rattle.std.proofs.Common.{arith, rules};
ghost use Rattle.reservation.proofs.Laws.{has_within, share_found};

use reservation::footprint::Footprint;
use rivals::clashes::{Clashes, LawfulClashes};

// Whether the two spans overlap.
fn spans_overlap(one: &Footprint, other: &Footprint) -> bool
    requires { is_same_junction one.now.junction other.now.junction ≡ true }
    ensures { Decides result (SpanClash one.now.junction one.now.request other.now.request) }
{
    one.first_tick() <= other.last_tick() && other.first_tick() <= one.last_tick()
}

// They clash where their spans overlap, whichever paths they take.
pub struct BySpan;

impl Clashes for BySpan {
    ghost clash = { SpanClash };

    fn clashes(one: &Footprint, other: &Footprint) -> Option<bool> {
        if one.junction != other.junction {
            return None;
        }
        Some(spans_overlap(one, other))
    }
}

impl LawfulClashes for BySpan {
    ghost symmetric = { Prim.search rules };

    // a cell that both have is at a tick of both spans
    ghost covers = { λ j x y e.
        let (tile, t, one, other) = share_found j x y e in
        let first = has_within j x tile t one in
        let second = has_within j y tile t other in
        (omega arith, omega arith) };
}
