// The line brings a message twice. Why a run call takes run, policy and memories one by one: see `arrive`.
ghost use Rattle.run.specs.Calls.{Repeats};
ghost use Rattle.run.specs.Worlds.{conduct, stage};

use lent::mail::post;
use lent::scene::Scene;
use message::row::MessageRow;
use policy::policy::Policy;
use refusal::kinds::CallFault;
use run::run::Run;
use vehicle::rows::VehicleRow;

// The message of that number, from 1, comes in once more, behind all others.
pub fn repeat<P: Policy>(
    run: &mut Run,
    policy: &P,
    vehicles: &[VehicleRow],
    mail: &mut [MessageRow],
    message: u32,
) -> Result<(), CallFault>
    ensures answer { Repeats (conduct P.view P.asks P.releases P.advances) (stage run.old vehicles.now mail.old policy.now) (stage run.new vehicles.now mail.new policy.now) message result }
{
    let scene = Scene {
        run,
        policy,
        vehicles,
        mail,
    };
    let sent = scene.message(message)?;
    run.mail = post(mail, run.mail, sent.row)?;
    Ok(())
}
