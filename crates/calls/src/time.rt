// The clock goes on. Why a run call takes run, policy and memories one by one: see `arrive`.
ghost use Rattle.std.specs.Prelude.{◌≡◌, MatchResult};
ghost use Rattle.run.specs.Calls.{Ticks};
ghost use Rattle.run.specs.Worlds.{conduct, stage};
ghost use Rattle.calls.specs.Parts.{OneOn};

use lent::scene::Scene;
use message::row::MessageRow;
use policy::policy::Policy;
use refusal::kinds::CallFault;
use run::run::Run;
use ticking::turning::turn_all;
use vehicle::now::Now;
use vehicle::rows::VehicleRow;

// The policy goes on by one tick, and the run with it; at the clock's end neither does.
fn go_on<P: Policy>(run: &mut Run, policy: &mut P) -> Result<(), CallFault>
    requires { run.old.clock ≡ (P.view policy.old).clock }
    ensures policy { P.advances policy.old result policy.new }
    ensures run { MatchResult result (λ _. OneOn run.old run.new) (λ _. run.new ≡ run.old) }
{
    policy.advance()?;
    run.clock += 1;
    Ok(())
}

// A tick passes, first for the policy and then for each vehicle.
pub fn tick<P: Policy>(
    run: &mut Run,
    policy: &mut P,
    vehicles: &mut [VehicleRow],
    mail: &mut [MessageRow],
) -> Result<(), CallFault>
    ensures answer { Ticks (conduct P.view P.asks P.releases P.advances) (stage run.old vehicles.old mail.old policy.old) (stage run.new vehicles.new mail.new policy.new) result }
{
    let scene = Scene {
        run,
        policy,
        vehicles,
        mail,
    };
    scene.ready()?;
    go_on(run, policy)?;
    let counted = &mut vehicles[..run.vehicles];
    let now = Now {
        junction: run.junction,
        clock: run.clock,
    };
    run.mail = turn_all(now, counted, mail, run.mail);
    Ok(())
}
