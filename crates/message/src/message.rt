// A message: a row whose numbers are all in their ranges.
ghost use Rattle.std.specs.Prelude.{◌≡◌, true};
ghost use Rattle.message.specs.Rows.{good_row};

use super::row::MessageRow;

#[derive(Clone, Copy)]
pub struct Message {
    pub row: MessageRow,
    ghost ok: { good_row row ≡ true },
}
