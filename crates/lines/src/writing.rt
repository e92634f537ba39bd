// From a message to its line.
ghost use Rattle.std.specs.Prelude.{◌≡◌};
ghost use Rattle.lines.specs.Lines.{line_of, text_of};
ghost use Rattle.lines.specs.Writings.{Counts, Spelt, written};

use super::keywords::keyword_of;
use super::numbers::denial_numbers;
use arrayvec::{ArrayVec, CapacityError};
use fields::writing::push_number;
use message::kinds::Kind;
use message::message::Message;
use message::row::MessageRow;
use refusal::kinds::WriteFault;

// The keyword and the numbers, if they fit a line.
#[tactic(auto, using(crate::proofs::Spells::spelled))]
fn spell_numbers(kind: Kind, numbers: &[u32]) -> Result<ArrayVec<u8, 64>, CapacityError>
    ensures { Spelt (text_of kind numbers.now) result }
{
    let mut line = ArrayVec::new();
    line.try_extend_from_slice(keyword_of(kind))?;
    for number in numbers {
        line.try_extend_from_slice(b",")?;
        push_number(&mut line, *number)?;
    }
    Ok(line)
}

// The line of any row, if it fits.
fn spell(row: &MessageRow) -> Result<ArrayVec<u8, 64>, CapacityError>
    ensures { Spelt (line_of row.now) result }
{
    match *row {
        MessageRow::Request {
            vehicle,
            number,
            entry,
            distance,
        } => spell_numbers(Kind::Request, &[vehicle, number, entry, distance]),
        MessageRow::Change {
            vehicle,
            number,
            base,
            entry,
            distance,
        } => spell_numbers(Kind::Change, &[vehicle, number, base, entry, distance]),
        MessageRow::Cancel { vehicle, number } => spell_numbers(Kind::Cancel, &[vehicle, number]),
        MessageRow::Done { vehicle } => spell_numbers(Kind::Done, &[vehicle]),
        MessageRow::Confirm {
            vehicle,
            number,
            entry,
        } => spell_numbers(Kind::Confirm, &[vehicle, number, entry]),
        MessageRow::Reject {
            vehicle,
            number,
            denial,
        } => {
            let [reason, rival_vehicle, rival_number] = denial_numbers(denial);
            spell_numbers(
                Kind::Reject,
                &[vehicle, number, reason, rival_vehicle, rival_number],
            )
        }
    }
}

// Writes the message's line into the first bytes of the memory, and tells how many these are.
pub fn write(message: &Message, memory: &mut [u8]) -> Result<usize, WriteFault>
    ensures answer { Counts (line_of message.now.row) memory.old result }
    ensures after { memory.new ≡ written (line_of message.now.row) memory.old result }
{
    let Ok(line) = spell(&message.row) else {
        unreachable()
    };
    let bytes = line.as_slice();
    let count = bytes.len();
    if count > memory.len() {
        return Err(WriteFault::Room);
    }
    memory[0..count].copy_from_slice(bytes);
    Ok(count)
}
