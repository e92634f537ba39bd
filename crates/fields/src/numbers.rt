// Numbers in base ten, without sign or leading zero.
ghost use Rattle.std.specs.Prelude.{Decides};
ghost use Rattle.fields.specs.Numbers.{LeadingZero, NumberIn};

// Whether a digit follows a zero in front.
fn has_leading_zero(field: &[u8]) -> bool
    ensures { Decides result (LeadingZero field.now) }
{
    field.len() > 1 && field[0] == b'0'
}

// The number of 32 bits that the field writes.
pub fn read_number(field: &[u8]) -> Option<u32>
    ensures answer { NumberIn field.now result }
{
    if field.is_empty() || field.len() > 10 {
        return None;
    }
    if has_leading_zero(field) {
        return None;
    }
    // digit by digit: by `from_utf8` and `parse`, which were tried, a call took half as much again, or more. Ten digits may be
    // past 32 bits
    let mut n: u64 = 0;
    for b in field {
        if *b < b'0' || *b > b'9' {
            return None;
        }
        n = n * 10 + (*b - b'0') as u64;
    }
    if n > u32::MAX as u64 {
        return None;
    }
    Some(n as u32)
}
