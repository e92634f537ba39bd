// Reads each line of standard input as a message, and prints the message's line or the fault.
#![tactic(auto)]

use lines::round::read_then_write;
use refusal::kinds::Refusal;
use std::alloc::{AllocError, Global};
use std::io::{self, Read, Write};

// Appends what a line is told. A script's `read` prints the same by code of its own: the format is each program's, and no
// library has texts of programs.
fn tell(line: &[u8], told: &mut Vec<u8>) -> io::Result<()> {
    let mut memory = [0; 64];
    match read_then_write(line, &mut memory) {
        Ok(count) => {
            told.write_all(b"message ")?;
            told.write_all(&memory[..count])?;
            told.write_all(b"\n")
        }
        Err(error) => {
            let number = Refusal::from(error.fault).number();
            writeln!(told, "line-fault {number} {} {}", error.field, error.byte)
        }
    }
}

// What all lines of the text are told. The last may lack its line feed.
fn tell_all(heap: Global, text: &[u8]) -> anyhow::Result<Vec<u8>> {
    let mut told = Vec::new(heap);
    for line in text.split_inclusive(|b| *b == b'\n') {
        let line = line.strip_suffix(b"\n").unwrap_or(line);
        // a `Vec` takes all that is written, unless memory is wanting
        tell(line, &mut told).map_err(|_| AllocError)?;
    }
    Ok(told)
}

fn run(rt: &HostRuntime) -> anyhow::Result<()> {
    let mut text = Vec::new(rt.alloc());
    rt.stdin().read_to_end(&mut text)?;
    let told = tell_all(rt.alloc(), text.as_slice())?;
    rt.stdout().write_all(told.as_slice())?;
    Ok(())
}

fn main(rt: HostRuntime) -> anyhow::Result<()> {
    run(&rt)
}
