// Length limit: a layer that refuses vehicles above a length that the bureau sets, and counts whom it turns away.
ghost use Rattle.std.specs.Prelude.{◌≡◌};
ghost use Rattle.bureau.specs.Limits.{counted, length_gate};

use layers::gate::Gate;
use layers::layer::Layer;
use refusal::kinds::{Denial, Reason};
use reservation::request::Request;

// The layer's gate.
#[derive(Clone, Copy)]
pub struct Limit {
    // the length, in units, of the longest vehicle that may ask
    pub longest: u32,
    // how many requests were refused for it; it stays at the largest number
    pub refused: u32,
}

pub type LengthLimit<P> = Layer<Limit, P>;

impl Limit {
    // A limit that has refused nobody so far.
    pub fn new(longest: u32) -> Limit
        ensures { result ≡ record { longest = longest; refused = 0 } }
    {
        Limit {
            longest,
            refused: 0,
        }
    }

    // How many requests the limit has turned away.
    pub fn turned_away(&self) -> u32
        ensures answer { result ≡ self.now.refused }
    {
        self.refused
    }
}

impl Gate for Limit {
    ghost refuses = { length_gate };

    ghost after_refusal = { counted };

    // The engine leaves the number 30 to such gates.
    fn refuses(&self, request: &Request) -> Option<Reason> {
        if request.body.length > self.longest {
            Some(Reason::Free30)
        } else {
            None
        }
    }

    fn note_refusal(&mut self, reason: Reason) {
        if let Reason::Free30 = reason {
            self.refused = self.refused.saturating_add(1);
        }
    }

    fn note_answer(&mut self, _request: &Request, _answer: &Result<(), Denial>) {}
}
