// What alters a ledger. Only `new` allocates.
ghost use Rattle.std.specs.Prelude.{◌≡◌, Bool, true, OnErr, is_ok, ◌⊎◌, [], ◌∷◌, ◌++◌, length, IfOk, if◌then◌else◌, None, filter, nat_lt};
ghost use Rattle.std.specs.List.{ContainsAt as Has};
ghost use Rattle.ledger.specs.declared.standing.Standing.{Standing};
ghost use Rattle.ledger.specs.Entries.{entries};
ghost use Rattle.ledger.specs.Standings.{first_of_name, lasts, other};

use super::ledger::Ledger;
use super::scan::{append, first_named, soonest_of};
use super::standing::{Full, Standing};
use refusal::kinds::Name;
use reservation::request::Request;
use std::alloc::{AllocError, Global};

impl Ledger {
    // Nothing stands at first. The memory for all 64 is reserved here.
    pub fn new(heap: Global) -> Result<Ledger, AllocError>
        ensures empty { IfOk result (λ l. entries l ≡ []) }
    {
        let standing = Vec::with_capacity(heap, 64)?;
        Ok(Ledger {
            standing,
            soonest: u32::MAX,
        })
    }

    // Appends the request; where 64 stand, it alters nothing and refuses.
    pub fn push(&mut self, request: Request, last_tick: u32) -> Result<(), Full>
        ensures answer { is_ok result ≡ nat_lt (length (entries self.old)) 64 }
        ensures after { entries self.new ≡ (if nat_lt (length (entries self.old)) 64 then (entries self.old ++ record { request = request; last_tick = last_tick } ∷ []) else entries self.old) }
        ensures stood { (s : Standing) → Has (entries self.new) s → Has (entries self.old) s ⊎ (record { request = request; last_tick = last_tick } ≡ s) }
        ensures spared { OnErr result (self.new ≡ self.old) }
    {
        if self.is_full() {
            return Err(Full);
        }
        self.soonest = append(
            &mut self.standing,
            self.soonest,
            Standing { request, last_tick },
        );
        Ok(())
    }

    // Keeps those that pass, and works out anew which last tick is the soonest.
    fn keep<F: Fn(&Standing) -> bool>(&mut self, passes: F)
        requires { F.IsAlwaysCallable passes }
        ensures kept { (test : Standing → Bool) → ((one : _) (b : Bool) → F.post passes one b → b ≡ test one.now) → entries self.new ≡ filter test (entries self.old) }
        ensures stood { (s : Standing) → Has (entries self.new) s → Has (entries self.old) s }
    {
        self.standing.retain(passes);
        self.soonest = soonest_of(self.as_slice());
    }

    // Takes out every request of that name, and answers the first of them.
    pub fn remove(&mut self, name: Name) -> Option<Standing>
        ensures answer { result ≡ first_of_name name (entries self.old) }
        ensures after { entries self.new ≡ filter (other name) (entries self.old) }
        ensures stood { (s : Standing) → Has (entries self.new) s → Has (entries self.old) s }
        ensures spared { result ≡ None → self.new ≡ self.old }
    {
        let first = first_named(self.as_slice(), name)?;
        self.keep(|one| one.request.name() != name);
        Some(first)
    }

    // Whether no request is over at that clock, by the soonest last tick alone.
    fn none_over(&self, clock: u32) -> bool
        ensures { result ≡ true → filter (lasts clock) (entries self.now) ≡ entries self.now }
    {
        clock <= self.soonest
    }

    // Takes out every request whose last tick is below the clock.
    pub fn expire(&mut self, clock: u32)
        ensures after { entries self.new ≡ filter (lasts clock) (entries self.old) }
        ensures stood { (s : Standing) → Has (entries self.new) s → Has (entries self.old) s }
    {
        if self.none_over(clock) {
            return;
        }
        self.keep(|one| clock <= one.last_tick);
    }
}
