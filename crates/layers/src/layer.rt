// A gate over a policy is a policy.
ghost use Rattle.std.specs.Prelude.{◌≡◌};
ghost use Rattle.std.proofs.Common.{ap, rules};
ghost use Rattle.policy.specs.Layers.{Layered, over};
ghost use Rattle.policy.proofs.Layers.{layer_answers, layer_records};

use super::gate::Gate;
use grid::junction::Junction;
use policy::policy::Policy;
use refusal::kinds::{CallFault, Denial, Name};
use reservation::request::Request;

#[derive(Drop)]
pub struct Layer<G, P> {
    pub below: P,
    pub own: G,
}

impl<G, P> Layer<G, P> {
    pub fn new(own: G, below: P) -> Layer<G, P>
        ensures below { result.below ≡ below }
        ensures own { result.own ≡ own }
    {
        Layer { below, own }
    }
}

impl<G: Gate, P: Policy> Policy for Layer<G, P> {
    ghost view = { λ s. P.Policy.view s.below };

    ghost gate = { λ s r. over (G.Gate.refuses s.own r) (P.Policy.gate s.below r) };

    ghost clash = { P.Policy.clash };

    ghost marks = { λ s. P.Policy.marks s.below };

    ghost asks = { λ s r a t. Layered (P.Policy.view s.below) (G.Gate.refuses s.own r) r
        (λ g. (t.below ≡ s.below) × (t.own ≡ G.Gate.after_refusal s.own g))
        (λ b. P.Policy.asks s.below r b t.below × (t.own ≡ G.Gate.after_answer s.own r b)) a };

    ghost releases = { λ s n a t. P.Policy.releases s.below n a t.below × (t.own ≡ s.own) };

    ghost advances = { λ s a t. P.Policy.advances s.below a t.below × (t.own ≡ s.own) };

    ghost symmetric = { Prim.search rules };

    ghost covers = { Prim.search rules };

    ghost few = { Prim.search rules };

    ghost told = { Prim.search rules };

    ghost answers = { λ s r a t h.
        let below = P.Policy in
        let gate = G.Gate in
        layer_answers below.clash (below.view s.below) (gate.refuses s.own r) (below.gate s.below r) r
        (λ g. (t.below ≡ s.below) × (t.own ≡ gate.after_refusal s.own g))
        (λ b. below.asks s.below r b t.below × (t.own ≡ gate.after_answer s.own r b)) a
        (λ b asks. P.Policy.answers s.below r b t.below asks.0) h };

    ghost records = { λ s r a t h.
        let below = P.Policy in
        let gate = G.Gate in
        layer_records (below.view s.below) (below.view t.below) (gate.refuses s.own r) r
        (λ g. (t.below ≡ s.below) × (t.own ≡ gate.after_refusal s.own g))
        (λ b. below.asks s.below r b t.below × (t.own ≡ gate.after_answer s.own r b)) a
        (λ g same. ap below.view same.0)
        (λ b asks. P.Policy.records s.below r b t.below asks.0) h };

    ghost finds = { Prim.search rules };

    ghost removes = { λ s n a t h. P.Policy.removes s.below n a t.below h.0 };

    ghost spares = { Prim.search rules };

    ghost passes = { Prim.search rules };

    ghost ends = { Prim.search rules };

    fn ask(&mut self, request: &Request) -> Result<(), Denial> {
        if let Err(reason) = self.below.stops(request, self.own.refuses(request)) {
            self.own.note_refusal(reason);
            return Err(Denial::Because(reason));
        }
        let answer = self.below.ask(request);
        self.own.note_answer(request, &answer);
        answer
    }

    fn release(&mut self, name: Name) -> bool {
        self.below.release(name)
    }

    fn advance(&mut self) -> Result<(), CallFault> {
        self.below.advance()
    }

    fn find(&self, name: Name) -> Option<u32> {
        self.below.find(name)
    }

    fn at(&self, i: u32) -> Option<Request> {
        self.below.at(i)
    }

    fn junction(&self) -> Junction {
        self.below.junction()
    }

    fn clock(&self) -> u32 {
        self.below.clock()
    }
}
