// What a line of a script asks for.
use super::pile::Kind;
use super::words::Words;
use grid::kinds::{Approach, Body, Movement};
use refusal::kinds::Name;
use reservation::request::Request;
use run::call::Call;

// A call of a policy, past any run.
#[derive(Clone, Copy)]
pub(crate) enum PolicyCall {
    Book(Request),
    Release(Name),
    Advance,
    Find(Name),
    At(u32),
}

#[derive(Clone, Copy)]
pub(crate) struct Making {
    pub(crate) lanes: u32,
    pub(crate) buffer: u32,
    pub(crate) kind: Kind,
}

// How many rows the memories have.
#[derive(Clone, Copy)]
pub(crate) struct Sizes {
    pub(crate) vehicles: u32,
    pub(crate) mail: u32,
}

#[derive(Clone, Copy)]
pub(crate) enum Command<'a> {
    // a text that may be the line of a message
    Read(&'a [u8]),
    // a new policy without a run
    Policy(Making),
    // a new policy with memories, and a run on them
    Open(Making, Sizes),
    Run(Call),
    Ask(PolicyCall),
    State,
    // other memories for the run
    Memory(Sizes),
    // a vehicle row, and a message row, that make no record
    Spoil(u32),
    SpoilMail(u32),
}

// A pile of policies by its name. No `TryFrom`: another word is a fault of its line, as any other that does not fit, and
// nobody would read an error that tells more.
fn kind_of(word: &[u8]) -> Option<Kind> {
    match word {
        b"tiles" => Some(Kind::Tiles),
        b"locks" => Some(Kind::Locks),
        b"distance-tiles" => Some(Kind::DistanceTiles),
        b"stop-locks" => Some(Kind::StopLocks),
        b"stop-distance-tiles" => Some(Kind::StopDistanceTiles),
        b"distance-stop-locks" => Some(Kind::DistanceStopLocks),
        _ => None,
    }
}

fn read_making(words: &mut Words<'_>) -> Option<Making> {
    Some(Making {
        lanes: words.number()?,
        buffer: words.number()?,
        kind: kind_of(words.word()?)?,
    })
}

fn read_sizes(words: &mut Words<'_>) -> Option<Sizes> {
    Some(Sizes {
        vehicles: words.number()?,
        mail: words.number()?,
    })
}

fn name(words: &mut Words<'_>) -> Option<Name> {
    Some(Name {
        vehicle: words.number()?,
        number: words.number()?,
    })
}

// A body, its letters and numbers in the order of a script: approach, lane, movement, length, speed.
fn body(words: &mut Words<'_>) -> Option<Body> {
    let approach = Approach::try_from(words.letter()?).ok()?;
    let lane = words.number()?;
    Some(Body {
        approach,
        movement: Movement::try_from(words.letter()?).ok()?,
        lane,
        length: words.number()?,
        speed: words.number()?,
    })
}

fn request(words: &mut Words<'_>) -> Option<Request> {
    Some(Request {
        vehicle: words.number()?,
        number: words.number()?,
        body: body(words)?,
        distance: words.number()?,
        entry: words.number()?,
    })
}

fn policy_call(keyword: &[u8], words: &mut Words<'_>) -> Option<PolicyCall> {
    match keyword {
        b"book" => Some(PolicyCall::Book(request(words)?)),
        b"release" => Some(PolicyCall::Release(name(words)?)),
        b"advance" => Some(PolicyCall::Advance),
        b"find" => Some(PolicyCall::Find(name(words)?)),
        b"at" => Some(PolicyCall::At(words.number()?)),
        _ => None,
    }
}

// A call on a vehicle, or an arrival.
fn vehicle_call(keyword: &[u8], words: &mut Words<'_>) -> Option<Call> {
    match keyword {
        b"arrive" => Some(Call::Arrive {
            body: body(words)?,
            distance: words.number()?,
        }),
        b"ask" => Some(Call::Ask {
            vehicle: words.number()?,
            entry: words.number()?,
        }),
        b"change" => Some(Call::Change {
            vehicle: words.number()?,
            entry: words.number()?,
        }),
        b"cancel" => Some(Call::Cancel {
            vehicle: words.number()?,
        }),
        b"nudge" => Some(Call::Nudge {
            vehicle: words.number()?,
            by: words.ticks()?,
        }),
        _ => None,
    }
}

// A call on a message, or a tick.
fn mail_call(keyword: &[u8], words: &mut Words<'_>) -> Option<Call> {
    match keyword {
        b"deliver" => Some(Call::Deliver {
            message: words.number()?,
        }),
        b"lose" => Some(Call::Lose {
            message: words.number()?,
        }),
        b"repeat" => Some(Call::Repeat {
            message: words.number()?,
        }),
        b"tick" => Some(Call::Tick),
        _ => None,
    }
}

// Any other line that a script may have.
fn session_command<'a>(keyword: &[u8], words: &mut Words<'a>) -> Option<Command<'a>> {
    match keyword {
        b"read" => Some(Command::Read(words.rest()?)),
        b"policy" => Some(Command::Policy(read_making(words)?)),
        b"open" => Some(Command::Open(read_making(words)?, read_sizes(words)?)),
        b"state" => Some(Command::State),
        b"memory" => Some(Command::Memory(read_sizes(words)?)),
        b"spoil" => Some(Command::Spoil(words.number()?)),
        b"spoil-mail" => Some(Command::SpoilMail(words.number()?)),
        _ => None,
    }
}

// What the keyword and the words after it ask for. A keyword of one kind of line is none of another, so the kinds may
// be tried in any order.
fn any_command<'a>(keyword: &[u8], words: &mut Words<'a>) -> Option<Command<'a>> {
    // not by `map` and `or_else`: what these answer would borrow the words for as long as the command lives
    if let Some(call) = mail_call(keyword, words).or_else(|| vehicle_call(keyword, words)) {
        return Some(Command::Run(call));
    }
    if let Some(call) = policy_call(keyword, words) {
        return Some(Command::Ask(call));
    }
    session_command(keyword, words)
}

impl<'a> Command<'a> {
    // What the line asks for, if it is one that a script may have.
    pub(crate) fn of(line: &'a [u8]) -> Option<Command<'a>> {
        let mut words = Words::of(line);
        let keyword = words.word()?;
        let command = any_command(keyword, &mut words)?;
        words.end(command)
    }
}
