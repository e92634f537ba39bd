// A run begins.
ghost use Rattle.std.specs.Prelude.{◌≡◌, [], Decides};
ghost use Rattle.run.specs.Calls.{Opens};

use message::row::MessageRow;
use policy::policy::Policy;
use refusal::kinds::CallFault;
use run::run::Run;
use vehicle::rows::VehicleRow;

fn is_empty<P: Policy>(policy: &P) -> bool
    ensures { Decides result ((P.view policy.now).ledger ≡ []) }
{
    policy.at(1).is_none()
}

// Whether the policy is as it was made: at clock 0, with no standing request.
fn is_new<P: Policy>(policy: &P) -> bool
    ensures { Decides result (((P.view policy.now).clock ≡ 0) × ((P.view policy.now).ledger ≡ [])) }
{
    policy.clock() == 0 && is_empty(policy)
}

// A run over a new policy, with no vehicle and no mail yet. The memories are looked at for their size alone.
pub fn open<P: Policy>(
    policy: &P,
    vehicles: &[VehicleRow],
    mail: &[MessageRow],
) -> Result<Run, CallFault>
    ensures answer { Opens vehicles.now mail.now (P.view policy.now) result }
{
    if vehicles.len() > 1024 || mail.len() > 256 {
        return Err(CallFault::Memory);
    }
    if !is_new(policy) {
        return Err(CallFault::Policy);
    }
    Ok(Run {
        junction: policy.junction(),
        clock: 0,
        vehicles: 0,
        mail: 0,
    })
}
