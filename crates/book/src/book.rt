// A book: its clock and its ledger.
ghost use Rattle.std.specs.Prelude.{◌≤◌};
ghost use Rattle.ledger.specs.Entries.{entries};
ghost use Rattle.book.specs.Standing.{AllEnd, AllRanged};

use grid::junction::Junction;
use ledger::ledger::Ledger;
use rivals::clashes::ByPath;
use std::marker::PhantomData;

// Requests that clash by C do not stand together in it.
#[derive(Drop)]
pub struct Book<C> {
    pub(crate) junction: Junction,
    pub(crate) clock: u32,
    pub(crate) ledger: Ledger,
    pub(crate) clash: PhantomData<C>,
    ghost early: { clock ≤ 1000000 },
    ghost ranged: { AllRanged junction (entries ledger) },
    ghost ends: { AllEnd junction (entries ledger) },
}

// The lock book: two requests clash where their paths touch a common tile and their spans overlap.
pub type LockBook = Book<ByPath>;
