// The memories that are lent to a run.
use super::command::Sizes;
use super::stop::Stop;
use grid::kinds::{Approach, Body, Movement};
use message::row::MessageRow;
use std::alloc::{AllocError, Global};
use vehicle::rows::{State, VehicleRow};

// More rows than any call takes; no memory is made larger.
const MOST_ROWS: u32 = 2000;

#[derive(Drop)]
pub(crate) struct Memory {
    pub(crate) vehicles: Vec<VehicleRow>,
    pub(crate) mail: Vec<MessageRow>,
}

// A row that nobody has written yet.
fn blank_vehicle() -> VehicleRow {
    VehicleRow {
        body: Body {
            approach: Approach::North,
            movement: Movement::Through,
            lane: 0,
            length: 0,
            speed: 0,
        },
        distance: 0,
        first_distance: 0,
        arrival: 0,
        used: 0,
        heard: 0,
        state: State::Idle,
    }
}

fn blank_message() -> MessageRow {
    MessageRow::Done { vehicle: 0 }
}

// Gives a memory so many rows: those that it has are kept as far as they fit, and new ones are blank.
fn resize<T: Copy>(rows: &mut Vec<T>, count: u32, blank: T) -> Result<(), AllocError> {
    rows.resize(count.min(MOST_ROWS) as usize, blank)
}

// The row with the number, which counts from 1; a number of no row is a fault.
fn numbered<T>(rows: &mut [T], number: u32) -> Result<&mut T, Stop> {
    let index = number.checked_sub(1).ok_or(Stop::Fault)?;
    rows.get_mut(index as usize).ok_or(Stop::Fault)
}

impl Memory {
    pub(crate) fn new(heap: Global, sizes: Sizes) -> Result<Memory, AllocError> {
        let mut memory = Memory {
            vehicles: Vec::new(heap),
            mail: Vec::new(heap),
        };
        memory.resize(sizes)?;
        Ok(memory)
    }

    pub(crate) fn resize(&mut self, sizes: Sizes) -> Result<(), AllocError> {
        resize(&mut self.vehicles, sizes.vehicles, blank_vehicle())?;
        resize(&mut self.mail, sizes.mail, blank_message())
    }

    // Makes the length in the row of the vehicle 0.
    pub(crate) fn spoil(&mut self, vehicle: u32) -> Result<(), Stop> {
        numbered(&mut self.vehicles, vehicle)?.body.length = 0;
        Ok(())
    }

    // Makes the row of the message one of no vehicle.
    pub(crate) fn spoil_mail(&mut self, message: u32) -> Result<(), Stop> {
        *numbered(&mut self.mail, message)? = blank_message();
        Ok(())
    }
}
