// A book as a policy.
ghost use Rattle.std.specs.Prelude.{◌≡◌, ◌<◌, [], ◌∷◌, ◌++◌, length, None};
ghost use Rattle.std.proofs.Common.{rules};
ghost use Rattle.ledger.specs.Entries.{entries};
ghost use Rattle.policy.specs.Calls.{Advances, Asks, Releases};
ghost use Rattle.policy.specs.Views.{lasting, moved, released, with_ledger};
ghost use Rattle.book.specs.Booked.{view_of};
ghost use Rattle.ledger.proofs.Bounds.{few_requests};

use super::book::Book;
use grid::junction::Junction;
use policy::policy::Policy;
use refusal::kinds::{CallFault, Denial, Name};
use reservation::footprint::Footprint;
use reservation::request::Request;
use rivals::clashes::LawfulClashes;

impl<C> Book<C> {
    // Writes a granted request down.
    fn book(&mut self, footprint: &Footprint)
        requires one { footprint.now.junction ≡ self.old.junction }
        requires room { length (entries self.old.ledger) < 64 }
        ensures { view_of self.new ≡ with_ledger (view_of self.old) ((view_of self.old).ledger ++ footprint.now.request ∷ []) }
    {
        let _ = self.ledger.push(footprint.request, footprint.last_tick());
    }

    // Takes the requests of that name out, and says whether one stood. Apart from `release`, so that an edit of that
    // is refused there and not in a proof.
    fn take_out(&mut self, name: Name) -> bool
        ensures { Releases view_of self.old name result self.new }
    {
        self.ledger.remove(name).is_some()
    }

    // Takes out what is over at that clock. Apart from `move_on`, for the same reason.
    fn expire(&mut self, clock: u32)
        ensures { view_of self.new ≡ with_ledger (view_of self.old) (lasting self.old.junction clock (view_of self.old).ledger) }
    {
        self.ledger.expire(clock);
    }

    // Takes the clock on by one.
    fn move_on(&mut self)
        requires { self.old.clock < 1000000 }
        ensures { view_of self.new ≡ moved (view_of self.old) }
    {
        self.expire(self.clock + 1);
        self.clock += 1;
    }
}

impl<C: LawfulClashes> Policy for Book<C> {
    ghost view = { view_of };

    ghost gate = { λ s r. None };

    ghost clash = { C.clash };

    ghost marks = { λ s. None };

    ghost asks = { Asks view_of C.clash };

    ghost releases = { Releases view_of };

    ghost advances = { Advances view_of };

    ghost symmetric = { C.symmetric };

    ghost covers = { C.covers };

    ghost few = { λ s. few_requests s.ledger };

    ghost told = { Prim.search rules };

    ghost answers = { Prim.search rules };

    ghost records = { Prim.search rules };

    ghost finds = { Prim.search rules };

    ghost removes = { Prim.search rules };

    ghost spares = { Prim.search rules };

    ghost passes = { Prim.search rules };

    ghost ends = { Prim.search rules };

    fn ask(&mut self, request: &Request) -> Result<(), Denial> {
        let footprint = self.judge(request)?;
        self.book(&footprint);
        Ok(())
    }

    fn release(&mut self, name: Name) -> bool {
        self.take_out(name)
    }

    fn advance(&mut self) -> Result<(), CallFault> {
        if self.clock >= 1_000_000 {
            return Err(CallFault::ClockEnd);
        }
        self.move_on();
        Ok(())
    }

    fn find(&self, name: Name) -> Option<u32> {
        self.ledger.find(name)
    }

    fn at(&self, i: u32) -> Option<Request> {
        self.ledger.at(i)
    }

    fn junction(&self) -> Junction {
        self.junction
    }

    fn clock(&self) -> u32 {
        self.clock
    }
}
