// Which numbers each kind of message carries, and which values each may have.
ghost use Rattle.std.specs.Prelude.{◌≡◌, Decides};
ghost use Rattle.message.specs.Fields.{Takes, fields_of};

use super::kinds::{Field, Kind};
use super::ranges::{is_distance, is_entry, is_number, is_vehicle};
use refusal::kinds::Reason;
use refusal::numbers::CLASH;

// Whether REJECT may carry the number.
fn is_carried(number: u32) -> bool
    ensures { Decides result (Takes Field.Reason number) }
{
    number == CLASH || Reason::try_from(number).is_ok()
}

impl Kind {
    // What the numbers of such a message stand for, in their order.
    pub fn fields(self) -> &'static [Field]
        ensures answer { result.now ≡ fields_of self }
    {
        match self {
            Kind::Request => &[Field::Vehicle, Field::Number, Field::Entry, Field::Distance],
            Kind::Change => &[
                Field::Vehicle,
                Field::Number,
                Field::Number,
                Field::Entry,
                Field::Distance,
            ],
            Kind::Cancel => &[Field::Vehicle, Field::Number],
            Kind::Done => &[Field::Vehicle],
            Kind::Confirm => &[Field::Vehicle, Field::Number, Field::Entry],
            Kind::Reject => &[
                Field::Vehicle,
                Field::Number,
                Field::Reason,
                Field::RivalVehicle,
                Field::RivalNumber,
            ],
        }
    }
}

impl Field {
    // Whether the number is one that this field may have.
    pub fn takes(self, number: u32) -> bool
        ensures answer { Decides result (Takes self number) }
    {
        match self {
            Field::Vehicle => is_vehicle(number),
            Field::Number => is_number(number),
            Field::Entry => is_entry(number),
            Field::Distance => is_distance(number),
            Field::Reason => is_carried(number),
            Field::RivalVehicle => number <= 1024,
            Field::RivalNumber => number <= 1000,
        }
    }
}
