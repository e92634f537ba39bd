// What a tile table makes of a request.
ghost use Rattle.std.specs.Prelude.{◌≡◌, true, false, None};
ghost use Rattle.policy.specs.Answers.{is_in_time};
ghost use Rattle.tile_table.specs.Tables.{Judges, RivalOf};

use super::meeting::meets_other;
use super::table::TileTable;
use refusal::kinds::{Denial, Name, Reason};
use reservation::footprint::Footprint;
use reservation::request::Request;
use rivals::clashes::ByCell;
use rivals::rivals::earliest_rival;
use rivals::screening::screened;

impl TileTable {
    // Whether a cell of the request is another vehicle's. If not, nobody is in its way.
    fn is_met(&self, footprint: &Footprint) -> bool
        requires one { footprint.now.junction ≡ self.now.window.junction }
        requires time { is_in_time self.now.window.junction self.now.window.clock footprint.now.request ≡ true }
        ensures { result ≡ false → RivalOf self.now footprint.now.request None }
    {
        meets_other(&self.marks, footprint)
    }

    // Who is in the way of the request. The ledger is searched only where a mark of another vehicle is met.
    fn rival(&self, footprint: &Footprint) -> Option<Name>
        requires one { footprint.now.junction ≡ self.now.window.junction }
        requires time { is_in_time self.now.window.junction self.now.window.clock footprint.now.request ≡ true }
        ensures { RivalOf self.now footprint.now.request result }
    {
        if !self.is_met(footprint) {
            return None;
        }
        earliest_rival::<ByCell>(self.ledger.as_slice(), footprint)
    }

    // The footprint of a request that may stand, or why it may not.
    pub(crate) fn judge(&self, request: &Request) -> Result<Footprint, Denial>
        ensures { Judges self.now request.now result }
    {
        let footprint = screened(
            self.window.junction,
            self.window.clock,
            &self.ledger,
            request,
        )?;
        if let Some(rival) = self.rival(&footprint) {
            return Err(Denial::Clash(rival));
        }
        if self.ledger.is_full() {
            return Err(Denial::Because(Reason::LedgerFull));
        }
        Ok(footprint)
    }
}
