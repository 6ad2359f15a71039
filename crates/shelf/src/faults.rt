ghost use Rattle.std.specs.Prelude.{◌≡◌};
ghost use Rattle.shelf.specs.Refusals.{refusal_of};

use fault::{Layer, Refusal};

/// Why a shelf refuses a word, or is refused itself.
#[derive(Clone, Copy, Debug, PartialEq, Eq)]
pub enum ShelfFault {
    /// The service takes no word before its next moment, which is given.
    TooSoon { service: u8, next: u64 },
    /// A shelf to start with holds a word already.
    HoldsWord,
    /// A shelf to start with holds no word, and has a service whose next moment is not 0.
    Loaded,
}

/// The fault as a number, a layer and two places.
impl From<ShelfFault> for Refusal {
    ghost from_gives = { λ f r. r ≡ refusal_of f };

    fn from(fault: ShelfFault) -> Refusal {
        let (number, first, second) = match fault {
            ShelfFault::TooSoon { service, next } => (10, u64::from(service), next),
            ShelfFault::HoldsWord => (22, 0, 0),
            ShelfFault::Loaded => (23, 0, 0),
        };
        Refusal {
            number,
            layer: Layer::Shelf,
            first,
            second,
        }
    }
}
