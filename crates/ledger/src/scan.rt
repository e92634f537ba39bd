// Passes over a list of standing requests.
ghost use Rattle.std.specs.Prelude.{◌≡◌, ◌+◌, ◌<◌, ◌⊎◌, [], ◌∷◌, ◌++◌, IfNone, vec_len, vec_capacity, filter};
ghost use Rattle.std.specs.List.{ContainsAt as Has};
ghost use Rattle.ledger.specs.declared.standing.Standing.{Standing};
ghost use Rattle.ledger.specs.Standings.{Sooner, first_of_name, other};

use super::standing::Standing;
use refusal::kinds::Name;

// The first of that name.
pub(crate) fn first_named(standing: &[Standing], name: Name) -> Option<Standing>
    ensures first { result ≡ first_of_name name standing.now }
    ensures absent { IfNone result (filter (other name) standing.now ≡ standing.now) }
{
    standing
        .iter()
        .find(|one| one.request.name() == name)
        .copied()
}

// Puts one at the end, and says which tick is the soonest then.
pub(crate) fn append(standing: &mut Vec<Standing>, soonest: u32, one: Standing) -> u32
    requires room { vec_len standing.old < vec_capacity standing.old }
    requires sooner { Sooner soonest standing.old.items }
    ensures items { standing.new.items ≡ standing.old.items ++ one ∷ [] }
    ensures stood { (s : Standing) → Has standing.new.items s → Has standing.old.items s ⊎ (one ≡ s) }
    ensures len { vec_len standing.new ≡ vec_len standing.old + 1 }
    ensures room { vec_capacity standing.new ≡ vec_capacity standing.old }
    ensures sooner { Sooner result standing.new.items }
{
    standing.push_reserved(one);
    soonest.min(one.last_tick)
}

// The soonest last tick: up to it none is over.
pub(crate) fn soonest_of(standing: &[Standing]) -> u32
    ensures { Sooner result standing.now }
{
    standing
        .iter()
        .map(|one| one.last_tick)
        .min()
        .unwrap_or(u32::MAX)
}
