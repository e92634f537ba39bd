// The tile table as a policy.
ghost use Rattle.std.specs.Prelude.{None};
ghost use Rattle.rivals.specs.Rivals.{CellClash};
ghost use Rattle.policy.specs.Calls.{Advances, Asks, Releases};
ghost use Rattle.tile_table.specs.Tables.{marks_of, view_of};
ghost use Rattle.std.proofs.Common.{sym, ◌∙◌, rules};
ghost use Rattle.reservation.proofs.Laws.{share_symmetric};
ghost use Rattle.ledger.proofs.Bounds.{few_requests};

use super::table::TileTable;
use grid::junction::Junction;
use policy::policy::Policy;
use refusal::kinds::{CallFault, Denial, Name};
use reservation::request::Request;

impl Policy for TileTable {
    ghost view = { view_of };

    ghost gate = { λ s r. None };

    ghost clash = { CellClash };

    ghost marks = { marks_of };

    ghost asks = { Asks view_of CellClash };

    ghost releases = { Releases view_of };

    ghost advances = { Advances view_of };

    ghost symmetric = { λ j x y e. sym (share_symmetric j x y) ∙ e };

    ghost covers = { Prim.search rules };

    ghost few = { λ s. few_requests s.ledger };

    ghost told = { Prim.search rules };

    ghost answers = { Prim.search rules };

    ghost records = { Prim.search rules };

    ghost finds = { Prim.search rules };

    ghost removes = { Prim.search rules };

    ghost spares = { Prim.search rules };

    ghost passes = { Prim.search rules };

    ghost ends = { Prim.search rules };

    fn ask(&mut self, request: &Request) -> Result<(), Denial> {
        let footprint = self.judge(request)?;
        self.book(&footprint);
        Ok(())
    }

    fn release(&mut self, name: Name) -> bool {
        if self.ledger.find(name).is_none() {
            return false;
        }
        self.take_out(name);
        true
    }

    fn advance(&mut self) -> Result<(), CallFault> {
        if self.window.clock >= 1_000_000 {
            return Err(CallFault::ClockEnd);
        }
        self.move_on();
        Ok(())
    }

    fn find(&self, name: Name) -> Option<u32> {
        self.ledger.find(name)
    }

    fn at(&self, i: u32) -> Option<Request> {
        self.ledger.at(i)
    }

    fn junction(&self) -> Junction {
        self.window.junction
    }

    fn clock(&self) -> u32 {
        self.window.clock
    }
}
