// Making a book.
ghost use Rattle.std.specs.Prelude.{◌≡◌, [], IfOk};
ghost use Rattle.ledger.specs.Entries.{entries};
ghost use Rattle.policy.specs.Views.{new_view};
ghost use Rattle.book.specs.Booked.{view_of};

use super::book::Book;
use grid::junction::Junction;
use ledger::ledger::Ledger;
use std::alloc::{AllocError, Global};
use std::marker::PhantomData;

// A book at clock 0 in which nothing stands.
fn empty_book<C>(junction: Junction, ledger: Ledger) -> Book<C>
    requires { entries ledger ≡ [] }
    ensures { view_of result ≡ new_view junction }
{
    Book {
        junction,
        clock: 0,
        ledger,
        clash: PhantomData,
    }
}

impl<C> Book<C> {
    // A new book. Its memory is all reserved here.
    pub fn new(heap: Global, junction: Junction) -> Result<Book<C>, AllocError>
        ensures answer { IfOk result (λ b. view_of b ≡ new_view junction) }
    {
        let ledger = Ledger::new(heap)?;
        Ok(empty_book(junction, ledger))
    }
}
