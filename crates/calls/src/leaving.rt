// A message leaves the mail. Why a run call takes run, policy and memories one by one: see `arrive`.
ghost use Rattle.lent.specs.Moves.{Among, Settled};
ghost use Rattle.run.specs.Calls.{Loses};
ghost use Rattle.run.specs.Worlds.{conduct, stage};
ghost use Rattle.calls.specs.Parts.{ButMail};

use lent::mail::settle;
use lent::scene::Scene;
use message::row::MessageRow;
use policy::policy::Policy;
use refusal::kinds::CallFault;
use run::run::Run;
use vehicle::rows::VehicleRow;

// The message of that number, from 1, leaves the mail, and the reply takes its place if there is one.
pub(crate) fn take_out(
    run: &mut Run,
    mail: &mut [MessageRow],
    message: u32,
    reply: Option<MessageRow>,
)
    requires { Among mail.old run.old.mail message }
    ensures rest { ButMail run.old run.new }
    ensures mail { Settled mail.old run.old.mail message reply run.new.mail mail.new }
{
    run.mail = settle(mail, run.mail, message as usize, reply);
}

// The message of that number, from 1, is lost: the later ones move up.
pub fn lose<P: Policy>(
    run: &mut Run,
    policy: &P,
    vehicles: &[VehicleRow],
    mail: &mut [MessageRow],
    message: u32,
) -> Result<(), CallFault>
    ensures answer { Loses (conduct P.view P.asks P.releases P.advances) (stage run.old vehicles.now mail.old policy.now) (stage run.new vehicles.now mail.new policy.now) message result }
{
    let scene = Scene {
        run,
        policy,
        vehicles,
        mail,
    };
    scene.message(message)?;
    take_out(run, mail, message, None);
    Ok(())
}
