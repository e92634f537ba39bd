// What a ledger tells.
ghost use Rattle.std.specs.Prelude.{◌≡◌, length, nat_le};
ghost use Rattle.policy.specs.Views.{found, numbered};
ghost use Rattle.ledger.specs.Entries.{entries};
ghost use Rattle.ledger.specs.Standings.{requests};

use super::ledger::Ledger;
use super::scan::first_named;
use super::standing::Standing;
use refusal::kinds::Name;
use reservation::request::Request;

impl Ledger {
    // How many stand.
    pub fn len(&self) -> usize
        ensures count { result ≡ length (entries self.now) }
    {
        self.standing.len()
    }

    // Whether 64 stand, so that no other can.
    pub fn is_full(&self) -> bool
        ensures full { result ≡ nat_le 64 (length (entries self.now)) }
    {
        self.len() >= 64
    }

    // The entry tick of the standing request of that name.
    #[tactic(auto, using(crate::proofs::Firsts::found_first))]
    pub fn find(&self, name: Name) -> Option<u32>
        ensures found { result ≡ found name (requests (entries self.now)) }
    {
        first_named(self.as_slice(), name).map(|one| one.request.entry)
    }

    // The i-th standing request, from 1.
    #[tactic(auto, using(crate::proofs::Places::numbered_cases))]
    pub fn at(&self, i: u32) -> Option<Request>
        ensures numbered { result ≡ numbered (requests (entries self.now)) i }
    {
        let place = i.checked_sub(1)?;
        self.as_slice().get(place as usize).map(|one| one.request)
    }

    // All that stand, in the order granted.
    pub fn as_slice(&self) -> &[Standing]
        ensures entries { result.now ≡ entries self.now }
    {
        self.standing.as_slice()
    }
}
