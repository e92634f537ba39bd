// From a line to its message.
ghost use Rattle.std.specs.Prelude.{Decides};
ghost use Rattle.lines.specs.Heads.{KindIn, Opened};
ghost use Rattle.lines.specs.Readings.{MessageIn, Only, Reads, Sized};

use super::faults::{FieldFault, LineError};
use super::fields_in::{fault_in, read_numbers};
use super::keywords::recognise;
use super::numbers::row_of;
use fields::cutting::{count_fields, first_len};
use message::kinds::Kind;
use message::message::Message;
use refusal::kinds::LineFault;

// Whether the line is neither empty nor too long.
fn is_sized(line: &[u8]) -> bool
    ensures { Decides result (Sized line.now) }
{
    line.len() >= 1 && line.len() <= 64
}

// The kind of a line that has its keyword, and as many fields as it wants.
fn read_kind(line: &[u8]) -> Result<Kind, LineError>
    ensures { KindIn line.now result }
{
    if !is_sized(line) {
        return Err(LineError {
            fault: LineFault::Length,
            field: 0,
            byte: 0,
        });
    }
    let Some(kind) = recognise(&line[..first_len(line)]) else {
        return Err(LineError {
            fault: LineFault::Keyword,
            field: 1,
            byte: 0,
        });
    };
    let found = count_fields(line);
    if found != kind.fields().len() + 1 {
        return Err(LineError {
            fault: LineFault::Count,
            field: found,
            byte: line.len(),
        });
    }
    Ok(kind)
}

// The message in the fields behind the keyword.
fn read_message(line: &[u8], kind: Kind) -> Result<Message, FieldFault>
    requires { Opened line.now kind }
    ensures { MessageIn line.now result }
{
    let numbers = read_numbers(line, kind)?;
    let Some(row) = row_of(kind, &numbers) else {
        // each number is good by itself, so what is wrong is the name of the clashing request
        return Err(fault_in(line, 4));
    };
    Ok(Message { row })
}

// The message whose line this is, or what is wrong with it.
pub fn read(line: &[u8]) -> Result<Message, LineError>
    ensures answer { Reads line.now result }
    ensures only { Only line.now result }
{
    let kind = read_kind(line)?;
    Ok(read_message(line, kind)?)
}
