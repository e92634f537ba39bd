// The numbers behind a line's keyword.
ghost use Rattle.std.specs.Prelude.{◌≡◌, ◌≤◌};
ghost use Rattle.message.specs.Fields.{fields_of};
ghost use Rattle.lines.specs.Parts.{NumbersIn, TakenIn, field_fault};
ghost use Rattle.lines.specs.Readings.{Counted};

use super::faults::FieldFault;
use arrayvec::ArrayVec;
use fields::cutting::{field_start, is_comma};
use fields::numbers::read_number;
use message::kinds::{Field, Kind};

// The number that the text writes, if the field may have it.
fn read_field(text: &[u8], field: Field) -> Option<u32>
    ensures { TakenIn field text.now result }
{
    let n = read_number(text)?;
    if field.takes(n) { Some(n) } else { None }
}

// The fault in the field with that many before it.
pub(crate) fn fault_in(line: &[u8], before: usize) -> FieldFault
    requires { before ≤ 5 }
    ensures { result ≡ field_fault line.now before }
{
    let byte = field_start(line, before);
    FieldFault {
        field: before + 1,
        byte,
    }
}

// Reads the fields behind the keyword, which are as many as the kind has.
pub(crate) fn read_numbers(line: &[u8], kind: Kind) -> Result<ArrayVec<u32, 5>, FieldFault>
    requires { Counted kind line.now }
    ensures { NumbersIn (fields_of kind) line.now result }
{
    let mut numbers = ArrayVec::new();
    let texts = line.split(|b| is_comma(*b)).skip(1);
    for (field, text) in kind.fields().iter().zip(texts) {
        let Some(number) = read_field(text, *field) else {
            return Err(fault_in(line, numbers.len() + 1));
        };
        numbers.push(number);
    }
    Ok(numbers)
}
