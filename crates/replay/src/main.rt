// The program that plays a call script: it reads calls from standard input, a line each, makes them, and prints what
// each answers.
#![tactic(auto)]

mod answer;
mod command;
mod game;
mod memory;
mod pile;
mod policies;
mod session;
mod stop;
mod telling;
mod words;

use session::Session;
use std::io::{self, BufWriter, Read};

// Plays all lines of the text; the last may lack its line feed.
fn play_all(rt: &HostRuntime, text: &[u8]) -> io::Result<()> {
    let mut session = Session::new(rt.alloc(), BufWriter::new(rt.alloc(), rt.stdout())?);
    for line in text.split(|b| *b == b'\n') {
        session.play(line)?;
    }
    session.finish()
}

fn run(rt: &HostRuntime) -> anyhow::Result<()> {
    let mut text = Vec::new(rt.alloc());
    rt.stdin().read_to_end(&mut text)?;
    Ok(play_all(rt, text.as_slice())?)
}

fn main(rt: HostRuntime) -> anyhow::Result<()> {
    run(&rt)
}
