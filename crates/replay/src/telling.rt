// What a run tells, and how that is printed.
use super::memory::Memory;
use super::stop::Stop;
use grid::junction::Junction;
use grid::kinds::Body;
use grid::tiles::TileSet;
use lent::scene::Scene;
use lines::writing::write;
use message::message::Message;
use message::row::MessageRow;
use policy::policy::Policy;
use readings::reading::moment;
use run::run::Run;
use std::fmt;
use std::io::{self, Write};
use vehicle::rows::{Claim, State, VehicleRow};
use vehicle::vehicle::Vehicle;

// A run that may be looked at: its moment, and the rows of the vehicles that have arrived and of the messages under way. It
// holds no records of its own, so that telling needs no memory.
#[derive(Drop)]
pub(crate) struct Telling<'a> {
    junction: Junction,
    clock: u32,
    vehicles: &'a [VehicleRow],
    mail: &'a [MessageRow],
}

// A claim as it is printed, and a state with what it carries.
#[derive(Clone, Copy)]
struct ShownClaim(Claim);

#[derive(Clone, Copy)]
struct ShownState(State);

impl fmt::Display for ShownClaim {
    fn fmt<W: fmt::Write>(&self, f: &mut fmt::Formatter<W>) -> fmt::Result {
        let Claim { number, entry } = self.0;
        write!(f, "{number} {entry}")
    }
}

impl fmt::Display for ShownState {
    fn fmt<W: fmt::Write>(&self, f: &mut fmt::Formatter<W>) -> fmt::Result {
        match self.0 {
            State::Idle => f.write_str("Idle"),
            State::Asking(claim) => write!(f, "Asking {}", ShownClaim(claim)),
            State::Holding(claim) => write!(f, "Holding {}", ShownClaim(claim)),
            State::Changing { held, awaited } => {
                write!(f, "Changing {} {}", ShownClaim(held), ShownClaim(awaited))
            }
            State::Crossing { held, lag, nudged } => {
                write!(f, "Crossing {} {lag} {nudged}", ShownClaim(held))
            }
            State::Done { tick } => write!(f, "Done {tick}"),
        }
    }
}

// A vehicle's record.
fn print_vehicle<W: Write>(out: &mut W, number: u32, row: &VehicleRow) -> io::Result<()> {
    let Body {
        approach,
        movement,
        lane,
        length,
        speed,
    } = row.body;
    write!(
        out,
        "vehicle {number} {approach} {lane} {movement} length {length} speed {speed} "
    )?;
    let VehicleRow {
        distance,
        first_distance: first,
        arrival,
        used,
        heard,
        state,
        ..
    } = *row;
    let state = ShownState(state);
    writeln!(
        out,
        "distance {distance} first {first} arrived {arrival} used {used} heard {heard} {state}"
    )
}

// A message as a line.
fn print_message<W: Write>(out: &mut W, number: u32, message: &Message) -> io::Result<()> {
    let mut line = [0; 64];
    // no message is longer than a line
    if let Ok(count) = write(message, &mut line) {
        write!(out, "mail {number} ")?;
        out.write_all(&line[..count])?;
        writeln!(out)?;
    }
    Ok(())
}

// The tiles on which a vehicle stands, by row and column.
fn print_tiles<W: Write>(out: &mut W, vehicle: u32, tiles: TileSet) -> io::Result<()> {
    for tile in (0..64u32).filter(|tile| tiles.has(*tile)) {
        writeln!(out, "on {vehicle} {} {}", tile / 8, tile % 8)?;
    }
    Ok(())
}

impl<'a> Telling<'a> {
    pub(crate) fn of<P: Policy>(
        run: &Run,
        policy: &P,
        memory: &'a Memory,
    ) -> Result<Telling<'a>, Stop> {
        let vehicles = memory.vehicles.as_slice();
        let mail = memory.mail.as_slice();
        let moment = moment(&Scene {
            run,
            policy,
            vehicles,
            mail,
        })?;
        Ok(Telling {
            junction: run.junction,
            clock: moment.clock,
            vehicles: &vehicles[..moment.vehicles.min(vehicles.len())],
            mail: &mail[..moment.mail.min(mail.len())],
        })
    }

    // Prints the clock, the vehicles, the delay of every vehicle that is done, and the mail.
    pub(crate) fn print<W: Write>(&self, out: &mut W) -> io::Result<()> {
        writeln!(out, "clock {}", self.clock)?;
        for (number, row) in (1u32..).zip(self.vehicles) {
            print_vehicle(out, number, row)?;
        }
        for (number, row) in (1u32..).zip(self.vehicles) {
            let vehicle = Vehicle::of(self.junction, *row);
            if let Some(delay) = vehicle.and_then(|one| one.delay()) {
                writeln!(out, "delay {number} {delay}")?;
            }
        }
        for (number, row) in (1u32..).zip(self.mail) {
            if let Some(message) = Message::of(*row) {
                print_message(out, number, &message)?;
            }
        }
        Ok(())
    }

    // Prints on which tiles each vehicle stands.
    pub(crate) fn print_places<W: Write>(&self, out: &mut W) -> io::Result<()> {
        for (number, row) in (1u32..).zip(self.vehicles) {
            if let Some(vehicle) = Vehicle::of(self.junction, *row) {
                print_tiles(out, number, vehicle.tiles(self.clock))?;
            }
        }
        Ok(())
    }
}
