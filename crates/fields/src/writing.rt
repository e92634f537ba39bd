// Numbers written in base ten.
ghost use Rattle.std.specs.Prelude.{◌≡◌, ◌+◌, ◌≤◌, ◌++◌, ◌↔◌, length, decimal, IsOk, OnOk, OnErr};
ghost use Rattle.arrayvec.specs.ArrayVec.{array_vec_len};

use arrayvec::{ArrayVec, CapacityError};

// Puts the number in base ten behind what is there, if there is room for all its digits.
pub fn push_number<const CAP: usize>(
    text: &mut ArrayVec<u8, CAP>,
    number: u32,
) -> Result<(), CapacityError>
    ensures variant { IsOk result ↔ (array_vec_len text.old + length (decimal number) ≤ CAP) }
    ensures ok { OnOk result (text.new.items ≡ text.old.items ++ decimal number) }
    ensures err { OnErr result (text.new ≡ text.old) }
{
    text.try_extend_from_slice(itoa::Buffer::new().format(number).as_bytes())
}
