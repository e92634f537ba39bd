// What a call answers, and how that is printed.
use grid::kinds::Body;
use refusal::kinds::{Denial, Name, Refusal};
use reservation::request::Request;
use std::fmt;
use std::io::{self, Write};

// What a call answers that is not refused.
#[derive(Clone, Copy)]
pub(crate) enum Told {
    Accepted,
    // the number of the vehicle that arrived, or of the request that was sent
    Numbered(u32),
    // whether a release took something out
    Released(bool),
    // the entry tick that was looked for
    Entry(Option<u32>),
    Standing(Option<Request>),
}

impl From<Option<u32>> for Told {
    fn from(number: Option<u32>) -> Told {
        number.map_or(Told::Accepted, Told::Numbered)
    }
}

// A request as it is printed.
#[derive(Clone, Copy)]
struct ShownRequest(Request);

impl fmt::Display for ShownRequest {
    fn fmt<W: fmt::Write>(&self, f: &mut fmt::Formatter<W>) -> fmt::Result {
        let Request {
            vehicle,
            number,
            body,
            distance,
            entry,
        } = self.0;
        let Body {
            approach,
            movement,
            lane,
            length,
            speed,
        } = body;
        write!(
            f,
            "request {vehicle} {number} {approach} {lane} {movement} {length} {speed} {distance} {entry}"
        )
    }
}

impl fmt::Display for Told {
    fn fmt<W: fmt::Write>(&self, f: &mut fmt::Formatter<W>) -> fmt::Result {
        match *self {
            Told::Accepted => f.write_str("ok"),
            Told::Numbered(number) => write!(f, "ok {number}"),
            Told::Released(true) => f.write_str("yes"),
            Told::Released(false) => f.write_str("no"),
            Told::Entry(Some(entry)) => write!(f, "entry {entry}"),
            Told::Standing(Some(request)) => write!(f, "{}", ShownRequest(request)),
            Told::Entry(None) | Told::Standing(None) => f.write_str("nothing"),
        }
    }
}

// A refusal as it is printed: a clash with the name of the request that is in the way.
#[derive(Clone, Copy)]
pub(crate) struct Refused(pub(crate) Refusal);

impl fmt::Display for Refused {
    fn fmt<W: fmt::Write>(&self, f: &mut fmt::Formatter<W>) -> fmt::Result {
        write!(f, "refused {}", self.0.number())?;
        match self.0 {
            Refusal::Denied(Denial::Clash(Name { vehicle, number })) => {
                write!(f, " {vehicle} {number}")
            }
            _ => Ok(()),
        }
    }
}

// Prints an answer, a line of its own.
pub(crate) fn print_answer<W: Write>(out: &mut W, answer: Result<Told, Refusal>) -> io::Result<()> {
    match answer.map_err(Refused) {
        Ok(told) => writeln!(out, "{told}"),
        Err(refused) => writeln!(out, "{refused}"),
    }
}
