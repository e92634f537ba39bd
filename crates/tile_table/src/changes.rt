// What alters a tile table.
ghost use Rattle.std.specs.Prelude.{◌≡◌, ℕ, ◌+◌, ◌%◌, ◌<◌, ◌≤◌, true, [], ◌∷◌, ◌++◌, length, is_some, filter, ◌≢◌};
ghost use Rattle.reservation.specs.Cells.{has};
ghost use Rattle.policy.specs.Views.{found, moved, released, with_ledger};
ghost use Rattle.marks.specs.Marked.{mark};
ghost use Rattle.ledger.specs.Entries.{entries};
ghost use Rattle.ledger.specs.Standings.{lasts};
ghost use Rattle.tile_table.specs.Painting.{Painted};
ghost use Rattle.tile_table.specs.Tables.{Free, standing_of, view_of};

use super::meeting::mark_of;
use super::table::TileTable;
use super::window::Window;
use ledger::ledger::Ledger;
use marks::marks::Marks;
use refusal::kinds::Name;
use reservation::footprint::Footprint;

// Writes the request down where there is room, and marks its cells.
fn enter(ledger: &mut Ledger, marks: &mut Marks, window: &Window, footprint: &Footprint)
    requires { length (entries ledger.old) < 64 }
    ensures entries { entries ledger.new ≡ entries ledger.old ++ standing_of footprint.now ∷ [] }
    ensures marks { Painted window.now.clock (has footprint.now.junction footprint.now.request) footprint.now.request.vehicle marks.old marks.new }
{
    let _ = ledger.push(footprint.request, footprint.last_tick());
    window.paint(marks, footprint, mark_of(footprint));
}

// Takes out what is over at the next tick, and the marks of this one.
fn pass_tick(ledger: &mut Ledger, marks: &mut Marks, clock: u32)
    requires { clock < 1000000 }
    ensures entries { entries ledger.new ≡ filter (lasts (clock + 1)) (entries ledger.old) }
    ensures here { (tile : ℕ) → tile < 64 → mark marks.new tile clock ≡ 0 }
    ensures others { (tile u : ℕ) → tile < 64 → (u % 128 ≢ clock % 128) → mark marks.new tile u ≡ mark marks.old tile u }
{
    ledger.expire(clock + 1);
    marks.clear(clock);
}

impl TileTable {
    // Writes a granted request down, and marks its cells.
    pub(crate) fn book(&mut self, footprint: &Footprint)
        requires { Free self.old footprint.now }
        ensures { view_of self.new ≡ with_ledger (view_of self.old) ((view_of self.old).ledger ++ footprint.now.request ∷ []) }
    {
        enter(&mut self.ledger, &mut self.marks, &self.window, footprint);
    }

    // Takes the requests of that name out, with their marks. A cell that the vehicle has by another request too
    // is given its mark again.
    pub(crate) fn take_out(&mut self, name: Name)
        requires { is_some (found name (view_of self.old).ledger) ≡ true }
        ensures { view_of self.new ≡ released (view_of self.old) name }
    {
        self.window
            .clear_named(&mut self.marks, self.ledger.as_slice(), name);
        let _ = self.ledger.remove(name);
        self.window
            .mark_vehicle(&mut self.marks, self.ledger.as_slice(), name.vehicle);
    }

    // Takes the clock on by one. The tick that has passed leaves its place to the last of the next 128.
    pub(crate) fn move_on(&mut self)
        requires { self.old.window.clock < 1000000 }
        ensures { view_of self.new ≡ moved (view_of self.old) }
    {
        pass_tick(&mut self.ledger, &mut self.marks, self.window.clock);
        self.window.clock += 1;
    }
}
