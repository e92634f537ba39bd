// What every run call but open looks at, and asks first: whole memories, a policy at the run's moment, and the vehicle or
// message that the call is about.
ghost use Rattle.std.specs.Prelude.{◌≡◌, ◌≤◌, true, Decides};
ghost use Rattle.std.specs.List.{AllByRecursion};
ghost use Rattle.message.specs.Rows.{good_row};
ghost use Rattle.run.specs.Calls.{Agrees, Whole, common, of_message, of_vehicle};
ghost use Rattle.run.specs.Tables.{Nothing, Ruled};
ghost use Rattle.lent.specs.Scenes.{MessageAt, VehicleAt, seen};

use message::message::Message;
use message::row::MessageRow;
use policy::policy::Policy;
use refusal::kinds::CallFault;
use run::run::Run;
use vehicle::check::rows_are_good;
use vehicle::rows::VehicleRow;
use vehicle::vehicle::Vehicle;

// A run with its policy and the memories that are lent to it.
#[derive(Drop)]
pub struct Scene<'a, P> {
    pub run: &'a Run,
    pub policy: &'a P,
    pub vehicles: &'a [VehicleRow],
    pub mail: &'a [MessageRow],
}

// Whether there is a vehicle of that number, from 1.
pub fn has_arrived(run: &Run, vehicle: u32) -> bool
    ensures answer { Decides result ((1 ≤ vehicle) × (vehicle ≤ run.now.vehicles)) }
{
    (1..=run.vehicles).contains(&(vehicle as usize))
}

impl<P: Policy> Scene<'_, P> {
    fn is_whole(&self) -> bool
        ensures { Decides result (Whole self.now.run.now self.now.vehicles.now self.now.mail.now) }
    {
        if self.vehicles.len() > 1024 || self.mail.len() > 256 {
            return false;
        }
        let run = self.run;
        if run.vehicles > self.vehicles.len() || run.mail > self.mail.len() {
            return false;
        }
        rows_are_good(run.junction, &self.vehicles[..run.vehicles])
            && self.mail[..run.mail].iter().all(|row| row.is_good())
    }

    #[tactic(auto, using(crate::proofs::Junctions::one_junction))]
    fn agrees(&self) -> bool
        ensures { Decides result (Agrees self.now.run.now (P.view self.now.policy.now)) }
    {
        self.run.junction == self.policy.junction() && self.run.clock == self.policy.clock()
    }

    // Whether a call may begin, or why it is refused.
    pub fn ready(&self) -> Result<(), CallFault>
        ensures answer { Ruled (common P.view (seen self.now)) Nothing (Unit {0}) result }
    {
        if !self.is_whole() {
            return Err(CallFault::Memory);
        }
        if !self.agrees() {
            return Err(CallFault::Policy);
        }
        Ok(())
    }

    // Whether there is a message of that number, from 1.
    fn is_under_way(&self, message: u32) -> bool
        ensures { Decides result ((1 ≤ message) × (message ≤ self.now.run.now.mail)) }
    {
        (1..=self.run.mail).contains(&(message as usize))
    }

    // The message of that number, from 1, if a call on it may begin.
    pub fn message(&self, message: u32) -> Result<Message, CallFault>
        ensures answer { Ruled (of_message P.view (seen self.now) message) (MessageAt (seen self.now) message) (Unit {0}) result }
    {
        self.ready()?;
        if !self.is_under_way(message) {
            return Err(CallFault::NoMessage);
        }
        Ok(Message {
            row: self.mail[message as usize - 1],
        })
    }

    // The record of the vehicle of that number, from 1, if a call on it may begin.
    pub fn vehicle(&self, vehicle: u32) -> Result<Vehicle, CallFault>
        ensures answer { Ruled (of_vehicle P.view (seen self.now) vehicle) (VehicleAt (seen self.now) vehicle) (Unit {0}) result }
    {
        self.ready()?;
        if !has_arrived(self.run, vehicle) {
            return Err(CallFault::NoVehicle);
        }
        Ok(Vehicle {
            junction: self.run.junction,
            row: self.vehicles[vehicle as usize - 1],
        })
    }
}
