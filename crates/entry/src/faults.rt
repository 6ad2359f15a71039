ghost use Rattle.std.specs.Prelude.{◌≡◌, Some};
ghost use Rattle.entry.specs.Refusals.{refusal_of, fault_text};

use fault::{Layer, Refusal};
use std::fmt;

/// Why a group is refused. Groups and positions count from 0; lengths and positions are in bytes of the text.
#[derive(Clone, Copy, Debug, PartialEq, Eq)]
pub enum EntryFault {
    /// The group is not 8 long.
    Length { group: u8, length: usize },
    /// The first character that is no hexadecimal digit.
    Digit { group: u8, position: usize },
}

/// The fault as a number, a layer and two places.
impl From<EntryFault> for Refusal {
    ghost from_gives = { λ f r. r ≡ refusal_of f };

    fn from(fault: EntryFault) -> Refusal {
        let (number, group, place) = match fault {
            EntryFault::Length { group, length } => (18, group, length),
            EntryFault::Digit { group, position } => (19, group, position),
        };
        Refusal {
            number,
            layer: Layer::Entry,
            first: u64::from(group),
            second: place as u64,
        }
    }
}

/// Where the entry is at fault, as `group 3, length 7` or `group 2, position 5`.
impl fmt::Display for EntryFault {
    ghost output = { λ f. Some (fault_text f) };

    fn fmt<W: fmt::Write>(&self, f: &mut fmt::Formatter<W>) -> fmt::Result {
        match self {
            EntryFault::Length { group, length } => write!(f, "group {group}, length {length}"),
            EntryFault::Digit { group, position } => write!(
                f,
                "group {group}, position {position}"
            ),
        }
    }
}
