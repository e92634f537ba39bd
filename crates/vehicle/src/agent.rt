// What a vehicle makes of a message that is delivered to it.
ghost use Rattle.std.specs.Prelude.{◌≡◌, Some};
ghost use Rattle.vehicle.specs.Hearing.{Hears, farewell};
ghost use Rattle.vehicle.specs.States.{in_state};
ghost use Rattle.vehicle.specs.declared.rows.State.TheVariants.{Holding};

use super::now::Now;
use super::rows::{Claim, State, VehicleRow};
use message::row::MessageRow;

// What comes of a message: the row of its vehicle, and what takes the place of the message.
#[derive(Clone, Copy)]
pub struct Reaction {
    pub row: VehicleRow,
    pub reply: Option<MessageRow>,
}

// A granted change: the vehicle holds what it awaited, and sends CANCEL of what it held.
fn change_over(vehicle: u32, held: Claim, awaited: Claim) -> (State, Option<MessageRow>)
    ensures { result ≡ (Holding awaited, farewell vehicle (Some held)) }
{
    let number = held.number;
    (
        State::Holding(awaited),
        Some(MessageRow::Cancel { vehicle, number }),
    )
}

// The state after the message, and what the vehicle sends.
fn hear(now: Now, vehicle: u32, state: State, message: MessageRow) -> (State, Option<MessageRow>)
    ensures { Hears now.junction now.clock vehicle state message result }
{
    match (state, message) {
        (State::Asking(asked), MessageRow::Confirm { number, .. }) if number == asked.number => {
            if now.is_before(asked) {
                (State::Holding(asked), None)
            } else {
                (State::Idle, None)
            }
        }
        (State::Changing { held, awaited }, MessageRow::Confirm { number, .. })
            if number == awaited.number => {
            if now.is_before(awaited) {
                change_over(vehicle, held, awaited)
            } else {
                (State::Holding(held), None)
            }
        }
        (State::Asking(asked), MessageRow::Reject { number, .. }) if number == asked.number => {
            (State::Idle, None)
        }
        (State::Changing { held, awaited }, MessageRow::Reject { number, .. })
            if number == awaited.number => (State::Holding(held), None),
        _ => (state, None),
    }
}

// The row of the vehicle of that number after the message, and what the vehicle sends. Of the row only the
// state changes.
pub fn respond(now: Now, vehicle: u32, row: VehicleRow, message: MessageRow) -> Reaction
    ensures answer { Hears now.junction now.clock vehicle row.state message (result.row.state, result.reply) }
    ensures same { result.row ≡ in_state row result.row.state }
{
    let (state, reply) = hear(now, vehicle, row.state, message);
    Reaction {
        row: VehicleRow { state, ..row },
        reply,
    }
}
