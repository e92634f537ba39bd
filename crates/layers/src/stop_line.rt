// Stop line: a layer that lets only a vehicle at the line ask.
ghost use Rattle.std.specs.Prelude.{◌≡◌};
ghost use Rattle.layers.specs.Gates.{stop_gate};

use super::gate::Gate;
use super::layer::Layer;
use refusal::kinds::{Denial, Reason};
use reservation::request::Request;

// The gate at the line. It learns nothing.
#[derive(Clone, Copy)]
pub struct AtLine;

pub type StopLine<P> = Layer<AtLine, P>;

impl<P> Layer<AtLine, P> {
    pub fn over(below: P) -> StopLine<P>
        ensures { result.below ≡ below }
    {
        Layer::new(AtLine, below)
    }
}

impl Gate for AtLine {
    ghost refuses = { λ s r. stop_gate r };

    fn refuses(&self, request: &Request) -> Option<Reason> {
        if request.distance == 0 {
            None
        } else {
            Some(Reason::StopLine)
        }
    }

    fn note_refusal(&mut self, _reason: Reason) {}

    fn note_answer(&mut self, _request: &Request, _answer: &Result<(), Denial>) {}
}
