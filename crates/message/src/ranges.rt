// The ranges of the numbers in a message.
ghost use Rattle.std.specs.Prelude.{◌≡◌};
ghost use Rattle.message.specs.Rows.{good_denial, good_row, fits_distance, fits_entry, is_number, fits_vehicle};

use super::row::MessageRow;
use refusal::kinds::Denial;

pub(crate) fn is_vehicle(n: u32) -> bool
    ensures { result ≡ fits_vehicle n }
{
    n >= 1 && n <= 1024
}

pub(crate) fn is_number(n: u32) -> bool
    ensures { result ≡ is_number n }
{
    n >= 1 && n <= 1000
}

pub(crate) fn is_entry(n: u32) -> bool
    ensures { result ≡ fits_entry n }
{
    n <= 1_000_127
}

pub(crate) fn is_distance(n: u32) -> bool
    ensures { result ≡ fits_distance n }
{
    n <= 2000
}

fn is_good_denial(denial: Denial) -> bool
    ensures { result ≡ good_denial denial }
{
    match denial {
        Denial::Because(_) => true,
        Denial::Clash(name) => is_vehicle(name.vehicle) && is_number(name.number),
    }
}

impl MessageRow {
    // Whether a message can be made of the row.
    pub fn is_good(&self) -> bool
        ensures answer { result ≡ good_row self.now }
    {
        match *self {
            MessageRow::Request {
                vehicle,
                number,
                entry,
                distance,
            } => is_vehicle(vehicle)
                && is_number(number)
                && is_entry(entry)
                && is_distance(distance),
            MessageRow::Change {
                vehicle,
                number,
                base,
                entry,
                distance,
            } => {
                is_vehicle(vehicle)
                    && is_number(number)
                    && is_number(base)
                    && is_entry(entry)
                    && is_distance(distance)
            }
            MessageRow::Cancel { vehicle, number } => is_vehicle(vehicle) && is_number(number),
            MessageRow::Done { vehicle } => is_vehicle(vehicle),
            MessageRow::Confirm {
                vehicle,
                number,
                entry,
            } => is_vehicle(vehicle) && is_number(number) && is_entry(entry),
            MessageRow::Reject {
                vehicle,
                number,
                denial,
            } => is_vehicle(vehicle) && is_number(number) && is_good_denial(denial),
        }
    }
}
