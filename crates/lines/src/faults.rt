// What is wrong with a text that is no line of a message.
ghost use Rattle.std.specs.Prelude.{◌≡◌};
ghost use Rattle.lines.specs.Places.{in_line};

use refusal::kinds::LineFault;

// The three numbers are told alike whatever the fault, so they are no fields of each case.
#[derive(Clone, Copy)]
pub struct LineError {
    pub fault: LineFault,
    // the keyword is field 1; under a wrong count, how many fields there are
    pub field: usize,
    // where the field begins, from 0; under a wrong count, how many bytes there are
    pub byte: usize,
}

// A field that is malformed or out of its range.
#[derive(Clone, Copy)]
pub struct FieldFault {
    pub field: usize,
    pub byte: usize,
}

impl From<FieldFault> for LineError {
    ghost from_gives = { λ f e. e ≡ in_line f };

    fn from(f: FieldFault) -> LineError {
        LineError {
            fault: LineFault::Field,
            field: f.field,
            byte: f.byte,
        }
    }
}
