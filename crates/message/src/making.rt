// From a row to a message, and whom a message concerns.
ghost use Rattle.std.specs.Prelude.{◌≡◌};
ghost use Rattle.message.specs.Messages.{MessageOf};
ghost use Rattle.message.specs.Rows.{vehicle_of};

use super::message::Message;
use super::row::MessageRow;

impl Message {
    // The message of a row whose numbers are all in their ranges.
    pub fn of(row: MessageRow) -> Option<Message>
        ensures answer { MessageOf row result }
    {
        if row.is_good() {
            Some(Message { row })
        } else {
            None
        }
    }

    // The vehicle that the message is from or for.
    pub fn vehicle(&self) -> u32
        ensures answer { result ≡ vehicle_of self.now.row }
    {
        match self.row {
            MessageRow::Request { vehicle, .. }
            | MessageRow::Change { vehicle, .. }
            | MessageRow::Cancel { vehicle, .. }
            | MessageRow::Done { vehicle }
            | MessageRow::Confirm { vehicle, .. }
            | MessageRow::Reject { vehicle, .. } => vehicle,
        }
    }
}
