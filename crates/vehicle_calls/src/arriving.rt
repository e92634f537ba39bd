// A vehicle arrives.
ghost use Rattle.std.specs.Prelude.{◌≡◌, ◌≤◌, true, IfSome, Decides};
ghost use Rattle.grid.specs.Bodies.{fits, lane_number_of};
ghost use Rattle.run.specs.Calls.{Arrives};
ghost use Rattle.run.specs.Worlds.{conduct, last_of_lane, place_behind_of, stage};

use super::lanes::last_in;
use grid::junction::Junction;
use grid::kinds::Body;
use lent::places::place_behind;
use lent::scene::Scene;
use message::row::MessageRow;
use policy::policy::Policy;
use refusal::kinds::CallFault;
use run::run::Run;
use vehicle::rows::{State, VehicleRow};

// Whether the vehicle fits the junction, and comes into sight at this distance from the line.
fn fits_approach(junction: Junction, body: Body, distance: u32) -> bool
    ensures { Decides result ((fits junction.lanes body ≡ true) × (1 ≤ distance) × (distance ≤ 2000)) }
{
    body.fits(junction) && (1..=2000).contains(&distance)
}

// Whether a vehicle at this distance from the line stands clear of the last one in its lane, by two units at least.
fn is_clear(rows: &[VehicleRow], body: Body, distance: u32) -> bool
    ensures { Decides result (IfSome (last_of_lane (lane_number_of body) rows.now) (λ last. place_behind_of last ≤ distance)) }
{
    last_in(body.lane_number(), rows).is_none_or(|last| place_behind(&last) <= distance as u64)
}

// The ten run calls take run, policy and memories one by one: so each says by its types which of them it cannot alter. A
// struct of four `&mut` does not, and a call would use it up, since the checker has no rule for loans from behind `&mut self`.

// A vehicle arrives at this distance from the stop line: its number, from 1.
pub fn arrive<P: Policy>(
    run: &mut Run,
    policy: &P,
    vehicles: &mut [VehicleRow],
    mail: &[MessageRow],
    body: Body,
    distance: u32,
) -> Result<u32, CallFault>
    ensures answer { Arrives (conduct P.view P.asks P.releases P.advances) (stage run.old vehicles.old mail.now policy.now) (stage run.new vehicles.new mail.now policy.now) body distance result }
{
    let scene = Scene {
        run,
        policy,
        vehicles,
        mail,
    };
    scene.ready()?;
    if !fits_approach(run.junction, body, distance) {
        return Err(CallFault::Arrival);
    }
    if run.vehicles >= vehicles.len() {
        return Err(CallFault::VehiclesFull);
    }
    if !is_clear(&vehicles[..run.vehicles], body, distance) {
        return Err(CallFault::TooClose);
    }
    vehicles[run.vehicles] = VehicleRow {
        body,
        distance,
        first_distance: distance,
        arrival: run.clock,
        used: 0,
        heard: 0,
        state: State::Idle,
    };
    run.vehicles += 1;
    Ok(run.vehicles as u32)
}
