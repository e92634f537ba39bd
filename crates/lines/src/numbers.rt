// From numbers to a row, and back.
ghost use Rattle.std.specs.Prelude.{◌≡◌};
ghost use Rattle.message.specs.Fields.{AllTake, Takes, fields_of};
ghost use Rattle.message.specs.Rows.{numbers_of_denial};
ghost use Rattle.message.specs.declared.kinds.Field.{Field};
ghost use Rattle.lines.specs.Parts.{DenialIn, RowIn};

use message::kinds::Kind;
use message::row::MessageRow;
use refusal::kinds::{Denial, Name, Reason};
use refusal::numbers::CLASH;

// The reason's number and the name of the clashing request, as a line has them. No `From`: three numbers have no name of
// their own that would tell what they are.
pub(crate) fn denial_numbers(denial: Denial) -> [u32; 3]
    ensures { result ≡ numbers_of_denial denial }
{
    match denial {
        Denial::Because(reason) => [reason.number(), 0, 0],
        Denial::Clash(name) => [CLASH, name.vehicle, name.number],
    }
}

// The denial of a reason's number: a clash is told with a name, and every other reason with 0, 0.
fn denial_of(reason: u32, vehicle: u32, number: u32) -> Option<Denial>
    requires { Takes Field.Reason reason }
    ensures { DenialIn reason vehicle number result }
{
    if reason == CLASH {
        if vehicle == 0 || number == 0 {
            return None;
        }
        return Some(Denial::Clash(Name { vehicle, number }));
    }
    if vehicle != 0 || number != 0 {
        return None;
    }
    Some(Denial::Because(Reason::try_from(reason).ok()?))
}

// The row of numbers that are each in their range: there is none where a rejection names a request
// without a clash, or a clash without its request.
pub(crate) fn row_of(kind: Kind, numbers: &[u32]) -> Option<MessageRow>
    requires { AllTake (fields_of kind) numbers.now }
    ensures { RowIn kind numbers.now result }
{
    let row = match (kind, numbers) {
        (Kind::Request, &[vehicle, number, entry, distance]) => MessageRow::Request {
            vehicle,
            number,
            entry,
            distance,
        },
        (Kind::Change, &[vehicle, number, base, entry, distance]) => MessageRow::Change {
            vehicle,
            number,
            base,
            entry,
            distance,
        },
        (Kind::Cancel, &[vehicle, number]) => MessageRow::Cancel { vehicle, number },
        (Kind::Done, &[vehicle]) => MessageRow::Done { vehicle },
        (Kind::Confirm, &[vehicle, number, entry]) => MessageRow::Confirm {
            vehicle,
            number,
            entry,
        },
        (Kind::Reject, &[vehicle, number, reason, rival_vehicle, rival_number]) => {
            MessageRow::Reject {
                vehicle,
                number,
                denial: denial_of(reason, rival_vehicle, rival_number)?,
            }
        }
        _ => unreachable(),
    };
    Some(row)
}
