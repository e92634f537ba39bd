// Questions to a run, beside those for a vehicle's record and for a message, which are a scene's own. Each is refused as
// a run call is: for the memories, for the policy, for a vehicle that is not there.
ghost use Rattle.std.specs.Prelude.{◌≡◌};
ghost use Rattle.run.specs.Calls.{common, of_vehicle};
ghost use Rattle.run.specs.Tables.{Ruled};
ghost use Rattle.run.specs.Worlds.{row_of, world};
ghost use Rattle.vehicle.specs.Delays.{delay_in};
ghost use Rattle.vehicle.specs.Standing.{Stands};
ghost use Rattle.lent.specs.Scenes.{seen};
ghost use Rattle.readings.specs.Readings.{MomentOf};

use super::moment::Moment;
use grid::tiles::TileSet;
use lent::scene::Scene;
use policy::policy::Policy;
use refusal::kinds::CallFault;

// The clock, and how many vehicles and messages there are.
pub fn moment<P: Policy>(scene: &Scene<P>) -> Result<Moment, CallFault>
    ensures answer { Ruled (common P.view (seen scene.now)) (MomentOf scene.now.run.now) (Unit {0}) result }
{
    scene.ready()?;
    let run = scene.run;
    Ok(Moment {
        clock: run.clock,
        vehicles: run.vehicles,
        mail: run.mail,
    })
}

// The tiles on which the vehicle of that number, from 1, stands.
pub fn tiles_of<P: Policy>(scene: &Scene<P>, vehicle: u32) -> Result<TileSet, CallFault>
    ensures answer { Ruled (of_vehicle P.view (seen scene.now) vehicle) (Stands scene.now.run.now.junction scene.now.run.now.clock (row_of (world (seen scene.now)).vehicles vehicle)) (Unit {0}) result }
{
    Ok(scene.vehicle(vehicle)?.tiles(scene.run.clock))
}

// Its delay, once it is done.
pub fn delay_of<P: Policy>(scene: &Scene<P>, vehicle: u32) -> Result<Option<u32>, CallFault>
    ensures answer { Ruled (of_vehicle P.view (seen scene.now) vehicle) (λ d. d ≡ delay_in scene.now.run.now.junction (row_of (world (seen scene.now)).vehicles vehicle)) (Unit {0}) result }
{
    Ok(scene.vehicle(vehicle)?.delay())
}
