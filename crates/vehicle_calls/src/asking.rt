// A vehicle asks for a reservation.
ghost use Rattle.std.specs.Prelude.{Decides};
ghost use Rattle.run.specs.Calls.{Asks, MayAsk};
ghost use Rattle.run.specs.Worlds.{conduct, stage};

use super::lanes::is_lead;
use super::sending::send;
use lent::scene::Scene;
use message::row::MessageRow;
use policy::policy::Policy;
use refusal::kinds::CallFault;
use run::run::Run;
use vehicle::rows::{Claim, State, VehicleRow};

fn may_ask(state: State) -> bool
    ensures { Decides result (MayAsk state) }
{
    matches!(state, State::Idle | State::Asking(_))
}

// The vehicle asks for the entry: the number of its request.
pub fn ask<P: Policy>(
    run: &mut Run,
    policy: &P,
    vehicles: &mut [VehicleRow],
    mail: &mut [MessageRow],
    vehicle: u32,
    entry: u32,
) -> Result<u32, CallFault>
    ensures answer { Asks (conduct P.view P.asks P.releases P.advances) (stage run.old vehicles.old mail.old policy.now) (stage run.new vehicles.new mail.new policy.now) vehicle entry result }
{
    let scene = Scene {
        run,
        policy,
        vehicles,
        mail,
    };
    let asking = scene.vehicle(vehicle)?;
    let row = asking.row;
    if !may_ask(row.state) {
        return Err(CallFault::State);
    }
    if !is_lead(&vehicles[..vehicle as usize - 1], row.body) {
        return Err(CallFault::NotLead);
    }
    let number = row.used + 1;
    let request = MessageRow::Request {
        vehicle,
        number,
        entry,
        distance: row.distance,
    };
    run.mail = send(run, &asking, entry, mail, request)?;
    vehicles[vehicle as usize - 1] = VehicleRow {
        used: number,
        state: State::Asking(Claim { number, entry }),
        ..row
    };
    Ok(number)
}
