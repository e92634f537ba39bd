// A run that a script plays: its memories, and the calls that are still to be made.
use super::answer::{Told, print_answer};
use super::memory::Memory;
use super::pile::Pile;
use history::played::Unplayed;
use refusal::kinds::Refusal;
use run::call::{Answer, Call};
use run::run::Run;
use std::alloc::{AllocError, Global};
use std::io::{self, Write};

#[derive(Clone, Copy)]
pub(crate) enum Stage {
    // the run is to be opened before its first call is made
    Opening,
    Open(Run),
    Refused,
}

#[derive(Drop)]
pub(crate) struct Game {
    pub(crate) memory: Memory,
    pub(crate) stage: Stage,
    // the calls that are still to be made, apart from the lines in which they stand: `replay` wants the calls as one slice
    calls: Vec<Call>,
    lines: Vec<u64>,
}

// So many calls are held back at most.
const MOST_CALLS: usize = 4096;

impl Game {
    pub(crate) fn new(heap: Global, memory: Memory) -> Game {
        Game {
            memory,
            stage: Stage::Opening,
            calls: Vec::new(heap),
            lines: Vec::new(heap),
        }
    }

    // Notes a call, and says whether there are enough.
    pub(crate) fn note(&mut self, call: Call, line: u64) -> Result<bool, AllocError> {
        self.calls.push(call)?;
        self.lines.push(line)?;
        Ok(self.calls.len() >= MOST_CALLS)
    }

    fn forget(&mut self) {
        self.calls.clear();
        self.lines.clear();
    }
}

fn print_answers<W: Write>(out: &mut W, answers: &[Answer]) -> io::Result<()> {
    for answer in answers {
        print_answer(out, answer.map(Told::from).map_err(Refusal::from))?;
    }
    Ok(())
}

fn print_faults<W: Write>(out: &mut W, lines: &[u64]) -> io::Result<()> {
    for line in lines {
        writeln!(out, "fault {line}")?;
    }
    Ok(())
}

// Opens the run and makes the calls that wait.
// The heap, the output, the policies and the game are lent one by one: a struct of them would be three loans with a lifetime
// and a type parameter, made in one place for one call.
fn open<W: Write>(
    heap: Global,
    out: &mut W,
    pile: &mut Pile,
    game: &mut Game,
) -> io::Result<Stage> {
    match pile.replay(heap, &mut game.memory, &game.calls) {
        Ok(played) => {
            print_answer(out, Ok(Told::Accepted))?;
            print_answers(out, &played.answers)?;
            Ok(Stage::Open(played.run))
        }
        Err(Unplayed::Refused(fault)) => {
            print_answer(out, Err(fault.into()))?;
            print_faults(out, &game.lines)?;
            Ok(Stage::Refused)
        }
        Err(Unplayed::NoMemory) => Err(AllocError.into()),
    }
}

// Makes the calls that wait on an open run.
fn go_on<W: Write>(
    heap: Global,
    out: &mut W,
    pile: &mut Pile,
    game: &mut Game,
    mut run: Run,
) -> io::Result<Stage> {
    let answers = pile.go_on(heap, &mut run, &mut game.memory, &game.calls)?;
    print_answers(out, &answers)?;
    Ok(Stage::Open(run))
}

// Makes the calls that wait, and prints what each answers.
pub(crate) fn play<W: Write>(
    heap: Global,
    out: &mut W,
    pile: &mut Pile,
    game: &mut Game,
) -> io::Result<()> {
    game.stage = match game.stage {
        Stage::Opening => open(heap, out, pile, game)?,
        Stage::Open(run) => go_on(heap, out, pile, game, run)?,
        Stage::Refused => Stage::Refused,
    };
    game.forget();
    Ok(())
}
