// The policy of a junction that lets one vehicle through at a time.
ghost use Rattle.policy.specs.Calls.{Asks};
ghost use Rattle.book.specs.Booked.{view_of};
ghost use Rattle.bureau.specs.Spans.{SpanClash};

use super::by_span::BySpan;
use book::book::Book;
use policy::policy::Policy;
use refusal::kinds::Denial;
use reservation::request::Request;

pub type OneAtATime = Book<BySpan>;

// Asks such a junction. Any book answers by its own way to clash; this call says of the name that its way is that of spans, so
// that another type under the name is refused.
pub fn ask_one_at_a_time(policy: &mut OneAtATime, request: &Request) -> Result<(), Denial>
    ensures answer { Asks view_of SpanClash policy.old request.now result policy.new }
{
    policy.ask(request)
}
