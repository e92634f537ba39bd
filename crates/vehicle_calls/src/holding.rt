// What a vehicle may do with what it holds: ask for another in its place, or give it up.
ghost use Rattle.std.specs.Prelude.{◌≡◌};
ghost use Rattle.run.specs.Calls.{Cancels, Changes, keeping};
ghost use Rattle.run.specs.Worlds.{conduct, stage};

use super::sending::send;
use lent::mail::post;
use lent::scene::Scene;
use message::row::MessageRow;
use policy::policy::Policy;
use refusal::kinds::CallFault;
use run::run::Run;
use vehicle::rows::{Claim, State, VehicleRow};

// What the vehicle holds and may still give up or change.
fn kept_claim(state: State) -> Option<Claim>
    ensures { result ≡ keeping state }
{
    match state {
        State::Holding(held) | State::Changing { held, .. } => Some(held),
        _ => None,
    }
}

// The vehicle asks for this entry in place of what it holds: the number of its request.
pub fn change<P: Policy>(
    run: &mut Run,
    policy: &P,
    vehicles: &mut [VehicleRow],
    mail: &mut [MessageRow],
    vehicle: u32,
    entry: u32,
) -> Result<u32, CallFault>
    ensures answer { Changes (conduct P.view P.asks P.releases P.advances) (stage run.old vehicles.old mail.old policy.now) (stage run.new vehicles.new mail.new policy.now) vehicle entry result }
{
    let scene = Scene {
        run,
        policy,
        vehicles,
        mail,
    };
    let changing = scene.vehicle(vehicle)?;
    let row = changing.row;
    let held = kept_claim(row.state).ok_or(CallFault::State)?;
    let number = row.used + 1;
    let change = MessageRow::Change {
        vehicle,
        number,
        base: held.number,
        entry,
        distance: row.distance,
    };
    run.mail = send(run, &changing, entry, mail, change)?;
    vehicles[vehicle as usize - 1] = VehicleRow {
        used: number,
        state: State::Changing {
            held,
            awaited: Claim { number, entry },
        },
        ..row
    };
    Ok(number)
}

// The vehicle gives up what it holds, and awaits no answer any more.
pub fn cancel<P: Policy>(
    run: &mut Run,
    policy: &P,
    vehicles: &mut [VehicleRow],
    mail: &mut [MessageRow],
    vehicle: u32,
) -> Result<(), CallFault>
    ensures answer { Cancels (conduct P.view P.asks P.releases P.advances) (stage run.old vehicles.old mail.old policy.now) (stage run.new vehicles.new mail.new policy.now) vehicle result }
{
    let scene = Scene {
        run,
        policy,
        vehicles,
        mail,
    };
    let row = scene.vehicle(vehicle)?.row;
    let held = kept_claim(row.state).ok_or(CallFault::State)?;
    let cancel = MessageRow::Cancel {
        vehicle,
        number: held.number,
    };
    run.mail = post(mail, run.mail, cancel)?;
    vehicles[vehicle as usize - 1] = VehicleRow {
        state: State::Idle,
        ..row
    };
    Ok(())
}
