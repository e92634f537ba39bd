// The lock book by its name.
ghost use Rattle.policy.specs.Calls.{Asks};
ghost use Rattle.rivals.specs.Rivals.{PathClash};
ghost use Rattle.book.specs.Booked.{view_of};

use super::book::LockBook;
use policy::policy::Policy;
use refusal::kinds::Denial;
use reservation::request::Request;

// Asks a lock book. Any book answers by its own way to clash; this call says of the name that its way is that of paths, so that
// another type under the name is refused.
pub fn ask_lock_book(book: &mut LockBook, request: &Request) -> Result<(), Denial>
    ensures answer { Asks view_of PathClash book.old request.now result book.new }
{
    book.ask(request)
}
