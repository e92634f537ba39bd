// A crossing vehicle falls a tick behind its plan, or makes one up.
ghost use Rattle.std.specs.Prelude.{◌≡◌, true, false, ◌+ℤ◌, Decides, MatchOption};
ghost use Rattle.vehicle.specs.Rows.{good_lag};
ghost use Rattle.run.specs.Calls.{Nudges, OneTick};
ghost use Rattle.run.specs.Worlds.{conduct, stage};

use grid::junction::Junction;
use lent::scene::Scene;
use message::row::MessageRow;
use policy::policy::Policy;
use refusal::kinds::CallFault;
use run::run::Run;
use vehicle::check::lag_fits;
use vehicle::rows::{State, VehicleRow};

fn is_one_tick(by: i32) -> bool
    ensures { Decides result (OneTick by) }
{
    by == 1 || by == -1
}

// The lag later by so many ticks, if that is within the buffer.
fn moved_lag(junction: Junction, lag: i32, by: i32) -> Option<i32>
    ensures { MatchOption result (good_lag junction.buffer (lag +ℤ by) ≡ false) (λ moved. (moved ≡ lag +ℤ by) × (good_lag junction.buffer (lag +ℤ by) ≡ true)) }
{
    let moved = lag.checked_add(by)?;
    if !lag_fits(junction, moved as i64) {
        return None;
    }
    Some(moved)
}

// The crossing vehicle falls behind by one tick or makes one up, once in a tick at most, and within the buffer.
pub fn nudge<P: Policy>(
    run: &Run,
    policy: &P,
    vehicles: &mut [VehicleRow],
    mail: &[MessageRow],
    vehicle: u32,
    by: i32,
) -> Result<(), CallFault>
    ensures answer { Nudges (conduct P.view P.asks P.releases P.advances) (stage run.now vehicles.old mail.now policy.now) (stage run.now vehicles.new mail.now policy.now) vehicle by result }
{
    let scene = Scene {
        run,
        policy,
        vehicles,
        mail,
    };
    let row = scene.vehicle(vehicle)?.row;
    let State::Crossing { held, lag, nudged } = row.state else {
        return Err(CallFault::State);
    };
    if !is_one_tick(by) || nudged == run.clock {
        return Err(CallFault::Nudge);
    }
    let lag = moved_lag(run.junction, lag, by).ok_or(CallFault::Lag)?;
    vehicles[vehicle as usize - 1] = VehicleRow {
        state: State::Crossing {
            held,
            lag,
            nudged: run.clock,
        },
        ..row
    };
    Ok(())
}
