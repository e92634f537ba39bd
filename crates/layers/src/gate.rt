// What a gate of a layer is, ours or a client's.
ghost use Rattle.std.specs.Prelude.{◌≡◌, Option, Result};
ghost use Rattle.refusal.specs.declared.kinds.Denial.{Denial};
ghost use Rattle.refusal.specs.declared.kinds.Reason.{Reason};
ghost use Rattle.reservation.specs.declared.request.Request.{Request};

use refusal::kinds::{Denial, Reason};
use reservation::request::Request;

pub trait Gate {
    // why it refuses the request of its own accord
    ghost refuses: { Self → Request → Option Reason };

    // what its layer's refusal makes of it, be it for range, time, name or the gate's own
    ghost after_refusal: { Self → Reason → Self } = { λ s g. s };

    // what an answer from below makes of it
    ghost after_answer: { Self → Request → Result (Unit {0}) Denial → Self } = { λ s r a. s };

    fn refuses(&self, request: &Request) -> Option<Reason>
        ensures { result ≡ refuses self.now request.now };

    // The layer has refused a request, and the policy below was not asked. (No body stands here for a gate that learns
    // nothing: it was tried, and would have to be proved for what every other gate says of itself.)
    fn note_refusal(&mut self, reason: Reason)
        ensures { self.new ≡ after_refusal self.old reason };

    // The policy below has answered a request.
    fn note_answer(&mut self, request: &Request, answer: &Result<(), Denial>)
        ensures { self.new ≡ after_answer self.old request.now answer.now };
}
