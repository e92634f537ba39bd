// The words of a line, which single spaces part, and what stands for a number or a letter.
ghost use Rattle.std.specs.Prelude.{pos, ◌≤ℤ◌, IfSome};

use fields::numbers::read_number;

#[derive(Drop)]
pub(crate) struct Words<'a> {
    // nothing after the last word
    rest: Option<&'a [u8]>,
}

// A number from 1 to 99.
fn ticks_of(digits: &[u8]) -> Option<i32>
    ensures { IfSome result (λ n. (pos 1 ≤ℤ n) × (n ≤ℤ pos 99)) }
{
    let number = i32::try_from(read_number(digits)?).ok()?;
    (1..=99).contains(&number).then_some(number)
}

impl<'a> Words<'a> {
    pub(crate) fn of(line: &'a [u8]) -> Words<'a> {
        Words { rest: Some(line) }
    }

    pub(crate) fn word(&mut self) -> Option<&'a [u8]> {
        let mut parts = self.rest?.splitn(2, |b| *b == b' ');
        let word = parts.next();
        self.rest = parts.next();
        word
    }

    pub(crate) fn number(&mut self) -> Option<u32> {
        read_number(self.word()?)
    }

    // A word of one letter.
    pub(crate) fn letter(&mut self) -> Option<char> {
        match self.word()? {
            [letter] => Some(char::from(*letter)),
            _ => None,
        }
    }

    // Ticks earlier or later: `0`, or a number up to 99 with its sign.
    pub(crate) fn ticks(&mut self) -> Option<i32> {
        match self.word()? {
            b"0" => Some(0),
            [b'+', digits @ ..] => ticks_of(digits),
            [b'-', digits @ ..] => ticks_of(digits)?.checked_neg(),
            _ => None,
        }
    }

    // All that is left of the line.
    pub(crate) fn rest(&mut self) -> Option<&'a [u8]> {
        self.rest.take()
    }

    // The command, if no word is left.
    pub(crate) fn end<T: Drop>(self, command: T) -> Option<T> {
        self.rest.is_none().then_some(command)
    }
}
