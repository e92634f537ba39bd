// The letters of approaches and movements: printed, and read.
ghost use Rattle.std.specs.Prelude.{Some, [], ◌∷◌};
ghost use Rattle.grid.specs.Letters.{ApproachOf, MovementOf, approach_letter, movement_letter};

use super::kinds::{Approach, Movement};
use std::fmt;

// A letter that stands for none of what is looked for.
#[derive(Clone, Copy)]
pub struct UnknownLetter(pub char);

impl fmt::Display for Approach {
    ghost output = { λ approach. Some (approach_letter approach ∷ []) };

    fn fmt<W: fmt::Write>(&self, f: &mut fmt::Formatter<W>) -> fmt::Result {
        f.write_str(match self {
            Approach::North => "N",
            Approach::East => "E",
            Approach::South => "S",
            Approach::West => "W",
        })
    }
}

impl fmt::Display for Movement {
    ghost output = { λ movement. Some (movement_letter movement ∷ []) };

    fn fmt<W: fmt::Write>(&self, f: &mut fmt::Formatter<W>) -> fmt::Result {
        f.write_str(match self {
            Movement::Left => "L",
            Movement::Through => "T",
            Movement::Right => "R",
        })
    }
}

impl TryFrom<char> for Approach {
    type Error = UnknownLetter;

    ghost try_from_gives = { ApproachOf };

    fn try_from(letter: char) -> Result<Approach, UnknownLetter> {
        match letter {
            'N' => Ok(Approach::North),
            'E' => Ok(Approach::East),
            'S' => Ok(Approach::South),
            'W' => Ok(Approach::West),
            _ => Err(UnknownLetter(letter)),
        }
    }
}

impl TryFrom<char> for Movement {
    type Error = UnknownLetter;

    ghost try_from_gives = { MovementOf };

    fn try_from(letter: char) -> Result<Movement, UnknownLetter> {
        match letter {
            'L' => Ok(Movement::Left),
            'T' => Ok(Movement::Through),
            'R' => Ok(Movement::Right),
            _ => Err(UnknownLetter(letter)),
        }
    }
}
