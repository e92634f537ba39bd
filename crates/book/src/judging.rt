// What a book makes of a request.
ghost use Rattle.std.specs.Prelude.{◌≡◌};
ghost use Rattle.book.specs.Booked.{Judges, RivalOf};

use super::book::Book;
use refusal::kinds::{Denial, Name, Reason};
use reservation::footprint::Footprint;
use reservation::request::Request;
use rivals::clashes::Clashes;
use rivals::rivals::earliest_rival;
use rivals::screening::screened;

impl<C: Clashes> Book<C> {
    // Who is in the way of the request.
    fn rival(&self, footprint: &Footprint) -> Option<Name>
        requires { footprint.now.junction ≡ self.now.junction }
        ensures { RivalOf C.clash self.now footprint.now.request result }
    {
        earliest_rival::<C>(self.ledger.as_slice(), footprint)
    }

    // The footprint of a request that may stand, or why it may not.
    pub(crate) fn judge(&self, request: &Request) -> Result<Footprint, Denial>
        ensures { Judges C.clash self.now request.now result }
    {
        let footprint = screened(self.junction, self.clock, &self.ledger, request)?;
        if let Some(rival) = self.rival(&footprint) {
            return Err(Denial::Clash(rival));
        }
        if self.ledger.is_full() {
            return Err(Denial::Because(Reason::LedgerFull));
        }
        Ok(footprint)
    }
}
