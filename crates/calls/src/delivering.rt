// A message comes to the manager or to its vehicle. Why a run call takes run, policy and memories one by one: see `arrive`.
ghost use Rattle.run.specs.Calls.{Delivers};
ghost use Rattle.run.specs.Worlds.{conduct, stage};

use super::leaving::take_out;
use lent::scene::{Scene, has_arrived};
use manager::act::act;
use message::row::MessageRow;
use policy::policy::Policy;
use refusal::kinds::CallFault;
use run::run::Run;
use vehicle::agent::Reaction;
use vehicle::rows::VehicleRow;

// The message of that number, from 1, is acted on, and a reply takes its place. A message of no vehicle that has arrived
// is dropped.
pub fn deliver<P: Policy>(
    run: &mut Run,
    policy: &mut P,
    vehicles: &mut [VehicleRow],
    mail: &mut [MessageRow],
    message: u32,
) -> Result<(), CallFault>
    ensures answer { Delivers (conduct P.view P.asks P.releases P.advances) (stage run.old vehicles.old mail.old policy.old) (stage run.new vehicles.new mail.new policy.new) message result }
{
    let scene = Scene {
        run,
        policy,
        vehicles,
        mail,
    };
    let sent = scene.message(message)?;
    let vehicle = sent.vehicle();
    if !has_arrived(run, vehicle) {
        take_out(run, mail, message, None);
        return Ok(());
    }
    let place = vehicle as usize - 1;
    let Reaction { row, reply } = act(policy, vehicles[place], sent.row);
    vehicles[place] = row;
    take_out(run, mail, message, reply);
    Ok(())
}
