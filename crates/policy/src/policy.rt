// What every policy promises.
ghost use Rattle.std.specs.Prelude.{◌≡◌, ℕ, ◌≤◌, Bool, true, false, length, is_some, Err, Option, Result};
ghost use Rattle.grid.specs.declared.junction.Junction.{Junction};
ghost use Rattle.refusal.specs.declared.kinds.CallFault.{CallFault};
ghost use Rattle.refusal.specs.declared.kinds.Denial.{Denial};
ghost use Rattle.refusal.specs.declared.kinds.Name.{Name};
ghost use Rattle.refusal.specs.declared.kinds.Reason.{Reason};
ghost use Rattle.reservation.specs.declared.request.Request.{Request};
ghost use Rattle.reservation.specs.Cells.{share};
ghost use Rattle.policy.specs.Answers.{Answer};
ghost use Rattle.policy.specs.Layers.{Stopped};
ghost use Rattle.policy.specs.Views.{Advanced, Told, View, asked, found, numbered, released};

use super::screen::stop_rows;
use grid::junction::Junction;
use refusal::kinds::{CallFault, Denial, Name, Reason};
use reservation::request::Request;

pub trait Policy {
    // its junction, its clock and its ledger
    ghost view: { Self → View };

    // why it would refuse the request of its own accord, before it looks for a clash
    ghost gate: { Self → Request → Option Reason };

    // which requests may not stand together
    ghost clash: { Junction → Request → Request → Type 0 };

    // what a tile table stores, if there is one below all layers: a vehicle by tile and tick
    ghost marks: { Self → Option (ℕ → ℕ → ℕ) };

    // what an ask, a release and an advance make of this policy, its own memory included
    ghost asks: { Self → Request → Result (Unit {0}) Denial → Self → Type 0 };

    ghost releases: { Self → Name → Bool → Self → Type 0 };

    ghost advances: { Self → Result (Unit {0}) CallFault → Self → Type 0 };

    fn ask(&mut self, request: &Request) -> Result<(), Denial>
        ensures { asks self.old request.now result self.new };

    fn release(&mut self, name: Name) -> bool
        ensures { releases self.old name result self.new };

    fn advance(&mut self) -> Result<(), CallFault>
        ensures { advances self.old result self.new };

    // The entry tick of the standing request of that name.
    fn find(&self, name: Name) -> Option<u32>
        ensures { result ≡ found name (view self.now).ledger };

    // The i-th standing request, from 1.
    fn at(&self, i: u32) -> Option<Request>
        ensures { result ≡ numbered (view self.now).ledger i };

    fn junction(&self) -> Junction
        ensures { result ≡ (view self.now).junction };

    fn clock(&self) -> u32
        ensures { result ≡ (view self.now).clock };

    // Refuses the request as a layer with this gate of its own does before it asks this policy.
    fn stops(&self, request: &Request, own: Option<Reason>) -> Result<(), Reason>
        ensures { Stopped (view self.now) own request.now result }
    {
        stop_rows(
            self.junction(),
            self.clock(),
            self.find(request.name()),
            request,
            own,
        )
    }

    ghost symmetric: { (j : Junction) (x y : Request) → clash j x y → clash j y x };

    ghost covers: { (j : Junction) (x y : Request) → share j x y ≡ true → clash j x y };

    ghost few: { (s : Self) → length (view s).ledger ≤ 64 };

    ghost told: { (s : Self) → Told (marks s) (view s) };

    ghost answers: { (s : Self) (r : Request) (a : Result (Unit {0}) Denial) (t : Self) → asks s r a t → Answer clash (view s) (gate s r) r a };

    ghost records: { (s : Self) (r : Request) (a : Result (Unit {0}) Denial) (t : Self) → asks s r a t → view t ≡ asked (view s) r a };

    ghost finds: { (s : Self) (n : Name) (a : Bool) (t : Self) → releases s n a t → a ≡ is_some (found n (view s).ledger) };

    ghost removes: { (s : Self) (n : Name) (a : Bool) (t : Self) → releases s n a t → view t ≡ released (view s) n };

    ghost spares: { (s : Self) (n : Name) (t : Self) → releases s n false t → t ≡ s };

    ghost passes: { (s : Self) (a : Result (Unit {0}) CallFault) (t : Self) → advances s a t → Advanced (view s) a (view t) };

    ghost ends: { (s : Self) (e : CallFault) (t : Self) → advances s (Err e) t → t ≡ s };
}
