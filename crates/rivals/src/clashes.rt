// The ways in which two requests can clash.
ghost use Rattle.std.specs.Prelude.{◌≡◌, true, Decides};
ghost use Rattle.grid.specs.declared.junction.Junction.{Junction};
ghost use Rattle.reservation.specs.declared.request.Request.{Request};
ghost use Rattle.reservation.specs.Cells.{share};
ghost use Rattle.reservation.specs.Meetings.{OfOne};
ghost use Rattle.rivals.specs.Rivals.{CellClash, PathClash};
ghost use Rattle.std.proofs.Common.{sym, ◌∙◌, rules};
ghost use Rattle.reservation.proofs.Laws.{locks_symmetric, share_locks, share_symmetric};

use reservation::footprint::Footprint;

// A way to clash.
pub trait Clashes {
    ghost clash: { Junction → Request → Request → Type 0 };

    // Whether the two clash; nothing where they are not of one junction.
    fn clashes(one: &Footprint, other: &Footprint) -> Option<bool>
        ensures { OfOne one.now.junction other.now.junction (λ b. Decides b (clash one.now.junction one.now.request other.now.request)) result };
}

// One that a policy may use, by two laws: who is named first does not matter, and requests that share a cell clash.
pub trait LawfulClashes: Clashes {
    ghost symmetric: { (j : Junction) (x y : Request) → Self.clash j x y → Self.clash j y x };

    ghost covers: { (j : Junction) (x y : Request) → share j x y ≡ true → Self.clash j x y };
}

// They clash where they share a cell.
pub struct ByCell;

// They clash where their paths touch a common tile and their spans overlap.
pub struct ByPath;

impl Clashes for ByCell {
    ghost clash = { CellClash };

    fn clashes(one: &Footprint, other: &Footprint) -> Option<bool> {
        one.shares_cell(other)
    }
}

impl Clashes for ByPath {
    ghost clash = { PathClash };

    fn clashes(one: &Footprint, other: &Footprint) -> Option<bool> {
        one.locks(other)
    }
}

impl LawfulClashes for ByCell {
    ghost symmetric = { λ j x y e. sym (share_symmetric j x y) ∙ e };

    ghost covers = { Prim.search rules };
}

impl LawfulClashes for ByPath {
    ghost symmetric = { λ j x y e. sym (locks_symmetric j x y) ∙ e };

    ghost covers = { λ j x y e. share_locks j x y e };
}
