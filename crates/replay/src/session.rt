// A script that is being played.
use super::answer::{Told, print_answer};
use super::command::{Command, Making, PolicyCall, Sizes};
use super::game::{Game, Stage, play};
use super::memory::Memory;
use super::pile::Pile;
use super::policies::{print_policy, print_standing, print_tables};
use super::stop::Stop;
use grid::junction::Junction;
use lines::round::read_then_write;
use refusal::kinds::Refusal;
use run::call::Call;
use run::run::Run;
use std::alloc::Global;
use std::io::{self, Write};

#[derive(Drop)]
pub(crate) struct Session<W: Write + Drop> {
    heap: Global,
    out: W,
    // the line that is being played, from 1
    line: u64,
    pile: Option<Pile>,
    game: Option<Game>,
}

// Reads a message line, and prints the message written back as a line, or what is wrong with it. The program that reads
// lines alone prints the same by code of its own: the format is each program's, and no library has texts of programs.
fn read<W: Write>(out: &mut W, line: &[u8]) -> io::Result<()> {
    let mut memory = [0; 64];
    match read_then_write(line, &mut memory) {
        Ok(count) => {
            write!(out, "message ")?;
            out.write_all(&memory[..count])?;
            writeln!(out)
        }
        Err(error) => {
            let number = Refusal::from(error.fault).number();
            writeln!(out, "line-fault {number} {} {}", error.field, error.byte)
        }
    }
}

// What a run and its policy tell, in the order of a script's state.
fn print_all<W: Write>(out: &mut W, pile: &Pile, run: &Run, memory: &Memory) -> Result<(), Stop> {
    let telling = pile.telling(run, memory)?;
    telling.print(out)?;
    print_standing(out, pile)?;
    telling.print_places(out)?;
    print_tables(out, pile)?;
    Ok(())
}

impl<W: Write + Drop> Session<W> {
    pub(crate) fn new(heap: Global, out: W) -> Session<W> {
        Session {
            heap,
            out,
            line: 0,
            pile: None,
            game: None,
        }
    }

    // The memory of the run, if there is one.
    fn memory(&mut self) -> Result<&mut Memory, Stop> {
        let game = self.game.as_mut().ok_or(Stop::Fault)?;
        Ok(&mut game.memory)
    }

    fn accept(&mut self) -> Result<(), Stop> {
        print_answer(&mut self.out, Ok(Told::Accepted))?;
        Ok(())
    }

    // Makes the calls that wait. A run that was refused is none.
    fn catch_up(&mut self) -> io::Result<()> {
        let (Some(pile), Some(game)) = (&mut self.pile, &mut self.game) else {
            return Ok(());
        };
        play(self.heap, &mut self.out, pile, game)?;
        if let Stage::Refused = game.stage {
            self.game = None;
        }
        Ok(())
    }

    // Makes a policy in the place of what was there; one that is refused leaves none.
    fn make(&mut self, making: Making) -> Result<(), Stop> {
        self.pile = None;
        self.game = None;
        let junction = Junction::new(making.lanes, making.buffer)?;
        self.pile = Some(Pile::new(self.heap, junction, making.kind)?);
        Ok(())
    }

    fn make_policy(&mut self, making: Making) -> Result<(), Stop> {
        self.make(making)?;
        self.accept()
    }

    // The run itself is opened with the calls that follow.
    fn open(&mut self, making: Making, sizes: Sizes) -> Result<(), Stop> {
        self.make(making)?;
        let memory = Memory::new(self.heap, sizes)?;
        self.game = Some(Game::new(self.heap, memory));
        Ok(())
    }

    fn ask(&mut self, call: PolicyCall) -> Result<(), Stop> {
        let pile = self.pile.as_mut().ok_or(Stop::Fault)?;
        Ok(print_answer(&mut self.out, pile.perform(&call))?)
    }

    // A run call waits until another line has to be played, or there are many.
    fn note(&mut self, call: Call) -> Result<(), Stop> {
        let game = self.game.as_mut().ok_or(Stop::Fault)?;
        if game.note(call, self.line)? {
            self.catch_up()?;
        }
        Ok(())
    }

    fn print_state(&mut self) -> Result<(), Stop> {
        let pile = self.pile.as_ref().ok_or(Stop::Fault)?;
        let Some(game) = &self.game else {
            print_policy(&mut self.out, pile)?;
            return Ok(());
        };
        if let Stage::Open(run) = game.stage {
            print_all(&mut self.out, pile, &run, &game.memory)?;
        }
        Ok(())
    }

    // Lends other memories.
    fn resize(&mut self, sizes: Sizes) -> Result<(), Stop> {
        self.memory()?.resize(sizes)?;
        self.accept()
    }

    fn spoil(&mut self, vehicle: u32) -> Result<(), Stop> {
        self.memory()?.spoil(vehicle)?;
        self.accept()
    }

    fn spoil_mail(&mut self, message: u32) -> Result<(), Stop> {
        self.memory()?.spoil_mail(message)?;
        self.accept()
    }

    fn obey(&mut self, command: Command<'_>) -> Result<(), Stop> {
        match command {
            Command::Read(line) => Ok(read(&mut self.out, line)?),
            Command::Policy(making) => self.make_policy(making),
            Command::Open(making, sizes) => self.open(making, sizes),
            Command::Run(call) => self.note(call),
            Command::Ask(call) => self.ask(call),
            Command::State => self.print_state(),
            Command::Memory(sizes) => self.resize(sizes),
            Command::Spoil(vehicle) => self.spoil(vehicle),
            Command::SpoilMail(message) => self.spoil_mail(message),
        }
    }

    // Does what the line asks for. The calls that wait are made first, unless it is one more.
    fn answer(&mut self, line: &[u8]) -> Result<(), Stop> {
        let command = Command::of(line);
        if !matches!(command, Some(Command::Run(_))) {
            self.catch_up()?;
        }
        self.obey(command.ok_or(Stop::Fault)?)
    }

    // Plays one line, and prints what it answers.
    pub(crate) fn play(&mut self, line: &[u8]) -> io::Result<()> {
        self.line = self.line.saturating_add(1);
        if line.first().is_none_or(|first| *first == b'#') {
            return Ok(());
        }
        match self.answer(line) {
            Ok(()) => Ok(()),
            Err(Stop::Refused(refusal)) => print_answer(&mut self.out, Err(refusal)),
            Err(Stop::Fault) => writeln!(self.out, "fault {}", self.line),
            Err(Stop::Broken(error)) => Err(error),
        }
    }

    // Makes the calls that wait, and prints what is still held back.
    pub(crate) fn finish(&mut self) -> io::Result<()> {
        self.catch_up()?;
        self.out.flush()
    }
}
