// Both ways round: a message through its line, and a line through its message.
ghost use Rattle.std.specs.Prelude.{◌≡◌, ◌≤◌, take, Ok};
ghost use Rattle.lines.specs.Lines.{line_of};
ghost use Rattle.lines.specs.Readings.{Only};
ghost use Rattle.lines.specs.Writings.{Rewritten, onto};

use super::faults::LineError;
use super::reading::read;
use super::writing::write;
use message::message::Message;

// The first bytes of a memory.
fn front(memory: &[u8; 64], count: usize) -> &[u8]
    requires { count ≤ 64 }
    ensures { result.now ≡ take count memory.now }
{
    &memory[0..count]
}

// Writes the message, and reads back what was written: it is that message, and the line reads as nothing else.
pub fn write_then_read(message: &Message, memory: &mut [u8; 64]) -> Message
    ensures same { result.row ≡ message.now.row }
    ensures only { Only (line_of message.now.row) (Ok result) }
    ensures after { memory.new ≡ onto (line_of message.now.row) memory.old }
{
    let Ok(count) = write(message, memory) else {
        unreachable()
    };
    let Ok(message) = read(front(memory, count)) else {
        unreachable()
    };
    message
}

// Reads the line, and writes the message that it is: the bytes written are those of the line.
pub fn read_then_write(line: &[u8], memory: &mut [u8; 64]) -> Result<usize, LineError>
    ensures same { Rewritten line.now memory.old memory.new result }
{
    let message = read(line)?;
    match write(&message, memory) {
        Ok(count) => Ok(count),
        // no line of a message is longer than the memory, so that there is no error for a `?` to hand on
        Err(_) => unreachable(),
    }
}
