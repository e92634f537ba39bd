// Any run call, by its name. Why it takes run, policy and memories one by one: see `arrive`.
ghost use Rattle.std.specs.Prelude.{◌≡◌};
ghost use Rattle.run.specs.Calls.{Makes};
ghost use Rattle.run.specs.Worlds.{conduct, stage};
ghost use Rattle.run.specs.declared.call.Call.TheVariants as call;

use calls::delivering::deliver;
use calls::leaving::lose;
use calls::opening::open;
use calls::repeating::repeat;
use calls::time::tick;
use message::row::MessageRow;
use policy::policy::Policy;
use run::call::{Answer, Call};
use run::run::Run;
use vehicle::rows::VehicleRow;
use vehicle_calls::arriving::arrive;
use vehicle_calls::asking::ask;
use vehicle_calls::holding::{cancel, change};
use vehicle_calls::nudging::nudge;

// Opens a run in the place of this one; where that is refused, this one stays.
fn open_again<P: Policy>(
    run: &mut Run,
    policy: &P,
    vehicles: &[VehicleRow],
    mail: &[MessageRow],
) -> Answer
    ensures { Makes (conduct P.view P.asks P.releases P.advances) (stage run.old vehicles.now mail.now policy.now) call.Open result (stage run.new vehicles.now mail.now policy.now) }
{
    *run = open(policy, vehicles, mail)?;
    Ok(None)
}

// Makes the call.
pub fn apply<P: Policy>(
    run: &mut Run,
    policy: &mut P,
    vehicles: &mut [VehicleRow],
    mail: &mut [MessageRow],
    call: &Call,
) -> Answer
    ensures made { Makes (conduct P.view P.asks P.releases P.advances) (stage run.old vehicles.old mail.old policy.old) call.now result (stage run.new vehicles.new mail.new policy.new) }
{
    match *call {
        Call::Open => open_again(run, policy, vehicles, mail),
        Call::Arrive { body, distance } => {
            arrive(run, policy, vehicles, mail, body, distance).map(Some)
        }
        Call::Ask { vehicle, entry } => ask(run, policy, vehicles, mail, vehicle, entry).map(Some),
        Call::Change { vehicle, entry } => {
            change(run, policy, vehicles, mail, vehicle, entry).map(Some)
        }
        Call::Cancel { vehicle } => cancel(run, policy, vehicles, mail, vehicle).map(|()| None),
        Call::Nudge { vehicle, by } => nudge(run, policy, vehicles, mail, vehicle, by).map(
            |()| None,
        ),
        Call::Deliver { message } => deliver(run, policy, vehicles, mail, message).map(|()| None),
        Call::Lose { message } => lose(run, policy, vehicles, mail, message).map(|()| None),
        Call::Repeat { message } => repeat(run, policy, vehicles, mail, message).map(|()| None),
        Call::Tick => tick(run, policy, vehicles, mail).map(|()| None),
    }
}
