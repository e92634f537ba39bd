// Whole lists of run calls.
ghost use Rattle.std.specs.Prelude.{◌≡◌, ◌≤◌, ◌+◌, ◌++◌, List, IfOk, length, vec_items, vec_len, vec_capacity};
ghost use Rattle.run.specs.Calls.{Answer};
ghost use Rattle.run.specs.Worlds.{conduct, stage};
ghost use Rattle.invariant.specs.Promises.{Ran, Sound};
ghost use Rattle.history.specs.Played.{GoesOn, Replays, StaysSound};

use super::apply::apply;
use super::played::{Played, Unplayed};
use calls::opening::open;
use message::row::MessageRow;
use policy::policy::Policy;
use run::call::{Answer, Call};
use run::run::Run;
use std::alloc::{AllocError, Global};
use vehicle::rows::VehicleRow;

// Makes every call of the list in turn, and puts what each answers behind the `answers`, which have room.
fn make_all<P: Policy>(
    run: &mut Run,
    policy: &mut P,
    vehicles: &mut [VehicleRow],
    mail: &mut [MessageRow],
    calls: &[Call],
    answers: &mut Vec<Answer>,
)
    requires room { vec_len answers.old + length calls.now ≤ vec_capacity answers.old }
    ensures ran { (given : List Answer) × (answers.new.items ≡ answers.old.items ++ given) × Ran (conduct P.view P.asks P.releases P.advances) (stage run.old vehicles.old mail.old policy.old) calls.now given (stage run.new vehicles.new mail.new policy.new) }
{
    for call in calls {
        answers.push_reserved(apply(run, policy, vehicles, mail, call));
    }
}

// Makes every call of a further list, and answers what each answered; without memory for the answers it makes none. Where
// the run was opened and only run calls were made on it since, what has to hold holds again.
pub fn go_on<P: Policy>(
    heap: Global,
    run: &mut Run,
    policy: &mut P,
    vehicles: &mut [VehicleRow],
    mail: &mut [MessageRow],
    calls: &[Call],
) -> Result<Vec<Answer>, AllocError>
    ensures ran { GoesOn (conduct P.view P.asks P.releases P.advances) (stage run.old vehicles.old mail.old policy.old) calls.now (stage run.new vehicles.new mail.new policy.new) result }
    ensures sound { StaysSound (conduct P.view P.asks P.releases P.advances) P.marks (stage run.old vehicles.old mail.old policy.old) (stage run.new vehicles.new mail.new policy.new) }
{
    let mut answers = Vec::with_capacity(heap, calls.len())?;
    make_all(run, policy, vehicles, mail, calls, &mut answers);
    Ok(answers)
}

// Opens a run over any policy and the memories that are lent, makes every call of the list in turn, whatever its
// arguments, and answers what each answered.
pub fn replay<P: Policy>(
    heap: Global,
    policy: &mut P,
    vehicles: &mut [VehicleRow],
    mail: &mut [MessageRow],
    calls: &[Call],
) -> Result<Played, Unplayed>
    ensures answer { Replays (conduct P.view P.asks P.releases P.advances) vehicles.old mail.old policy.old calls.now vehicles.new mail.new policy.new result }
    ensures sound { IfOk result (λ played. Sound P.view P.marks (stage played.run vehicles.new mail.new policy.new)) }
{
    // the memory first: where there is none, nobody has been asked whether the run can be opened
    let mut answers = Vec::with_capacity(heap, calls.len())?;
    let mut run = open(policy, vehicles, mail)?;
    make_all(&mut run, policy, vehicles, mail, calls, &mut answers);
    Ok(Played { run, answers })
}
