ghost use Rattle.std.specs.Prelude.{Some, codes};
ghost use Rattle.word.specs.Parities.{parity_name, ParsesParity};

use std::error::Error;
use std::fmt;
use std::str::FromStr;

/// Which of the two words of a service: receivers load one while the other is in use.
#[derive(Clone, Copy, Debug, PartialEq, Eq)]
pub enum Parity {
    Even,
    Odd,
}

impl fmt::Display for Parity {
    ghost output = { λ p. Some (parity_name p) };

    fn fmt<W: fmt::Write>(&self, f: &mut fmt::Formatter<W>) -> fmt::Result {
        f.write_str(match self {
            Parity::Even => "even",
            Parity::Odd => "odd",
        })
    }
}

/// A text that is neither "even" nor "odd".
#[derive(Clone, Copy, Debug, PartialEq, Eq)]
pub struct ParseParityError;

impl fmt::Display for ParseParityError {
    ghost output = { λ _. Some (codes "the parity is even or odd") };

    fn fmt<W: fmt::Write>(&self, f: &mut fmt::Formatter<W>) -> fmt::Result {
        f.write_str("the parity is even or odd")
    }
}

impl Error for ParseParityError {}

impl FromStr for Parity {
    type Err = ParseParityError;

    ghost from_str_gives = { ParsesParity };

    fn from_str(text: &str) -> Result<Parity, ParseParityError> {
        match text {
            "even" => Ok(Parity::Even),
            "odd" => Ok(Parity::Odd),
            _ => Err(ParseParityError),
        }
    }
}
