// One question to two policies.
ghost use Rattle.std.specs.Prelude.{◌≡◌};

use super::policy::Policy;
use refusal::kinds::Denial;
use reservation::request::Request;

// Asks two policies of one kind. If they tell the same view, and the same of the request by their gates, they
// answer the same: what a policy means fixes its answer.
pub fn ask_both<P: Policy>(
    first: &mut P,
    second: &mut P,
    request: &Request,
) -> (Result<(), Denial>, Result<(), Denial>)
    ensures first { P.asks first.old request.now result.0 first.new }
    ensures second { P.asks second.old request.now result.1 second.new }
    ensures alike { P.view first.old ≡ P.view second.old → P.gate first.old request.now ≡ P.gate second.old request.now → result.0 ≡ result.1 }
{
    (first.ask(request), second.ask(request))
}
