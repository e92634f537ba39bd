// Passes that mark the cells of requests.
ghost use Rattle.std.specs.Prelude.{◌≡◌, ◌+◌, ◌≤◌, Bool, max, min, ◌==◌};
ghost use Rattle.reservation.specs.declared.request.Request.{Request};
ghost use Rattle.reservation.specs.Cells.{has};
ghost use Rattle.reservation.specs.Requests.{first_tick_of, last_tick_of};
ghost use Rattle.policy.specs.Views.{named};
ghost use Rattle.ledger.specs.Standings.{requests};
ghost use Rattle.tile_table.specs.Painting.{Painted, covers, takes};

use super::window::Window;
use ledger::standing::Standing;
use marks::marks::Marks;
use refusal::kinds::Name;
use reservation::footprint::Footprint;
use reservation::request::Request;

impl Window {
    // The first tick of the request's span that is not past.
    fn first(&self, footprint: &Footprint) -> u32
        ensures { result ≡ max self.now.clock (first_tick_of footprint.now.junction footprint.now.request) }
    {
        self.clock.max(footprint.first_tick())
    }

    // The last tick of the request's span, or of the window.
    fn last(&self, footprint: &Footprint) -> u32
        ensures { result ≡ min (last_tick_of footprint.now.junction footprint.now.request) (self.now.clock + 127) }
    {
        footprint.last_tick().min(self.clock + 127)
    }

    // Gives the request's cells in the window the mark `vehicle`.
    pub(crate) fn paint(&self, marks: &mut Marks, footprint: &Footprint, vehicle: u16)
        ensures { Painted self.now.clock (has footprint.now.junction footprint.now.request) vehicle marks.old marks.new }
    {
        for tick in self.first(footprint)..self.last(footprint) + 1 {
            marks.put(tick, footprint.tiles_at(tick), vehicle);
        }
    }

    // The same for a request whose cells are not worked out, if it is in range.
    fn paint_request(&self, marks: &mut Marks, request: &Request, vehicle: u16)
        ensures { Painted self.now.clock (takes self.now.junction request.now) vehicle marks.old marks.new }
    {
        if let Some(footprint) = Footprint::of(self.junction, request) {
            self.paint(marks, &footprint, vehicle);
        }
    }

    // The same for all standing requests that are chosen.
    fn paint_chosen<F: Fn(&Request) -> bool>(
        &self,
        marks: &mut Marks,
        standing: &[Standing],
        vehicle: u16,
        is_chosen: F,
    )
        requires { F.IsAlwaysCallable is_chosen }
        ensures { (chosen : Request → Bool) → ((one : _) (b : Bool) → F.post is_chosen one b → b ≡ chosen one.now) → Painted self.now.clock (covers chosen self.now.junction (requests standing.now)) vehicle marks.old marks.new }
    {
        for one in standing {
            if is_chosen(&one.request) {
                self.paint_request(marks, &one.request, vehicle);
            }
        }
    }

    // Takes the marks of all requests of that name away.
    pub(crate) fn clear_named(&self, marks: &mut Marks, standing: &[Standing], name: Name)
        ensures { Painted self.now.clock (covers (named name) self.now.junction (requests standing.now)) 0 marks.old marks.new }
    {
        self.paint_chosen(marks, standing, 0, |one| one.name() == name);
    }

    // Gives the cells of all requests of the vehicle its mark.
    pub(crate) fn mark_vehicle(&self, marks: &mut Marks, standing: &[Standing], vehicle: u32)
        requires { vehicle ≤ 1024 }
        ensures { Painted self.now.clock (covers (λ r. r.vehicle == vehicle) self.now.junction (requests standing.now)) vehicle marks.old marks.new }
    {
        self.paint_chosen(
            marks,
            standing,
            vehicle as u16,
            |one| one.vehicle == vehicle,
        );
    }
}
