// A shelf above any other that takes encrypted session words (BISS2 mode E).
ghost use Rattle.std.specs.Prelude.{◌≡◌};
ghost use Rattle.shelf.specs.Shelves.{unwrapping_meaning};

use crate::faults::ShelfFault;
use crate::shelf::Shelf;
use word::{Identifier, Moment, Parity, Service, Word};

/// The shelf below, and the receiver's identifier. No call answers the identifier.
#[derive(Drop)]
pub struct Unwrapping<S> {
    identifier: Identifier,
    below: S,
}

impl<S: Shelf> Unwrapping<S> {
    /// Unwraps what is put on a shelf from now on, whatever it holds.
    pub fn new(identifier: Identifier, below: S) -> Unwrapping<S>
        ensures identifier { result.identifier ≡ identifier }
        ensures below { result.below ≡ below }
    {
        Unwrapping { identifier, below }
    }
}

impl<S: Shelf> Shelf for Unwrapping<S> {
    ghost reads = { λ s. (unwrapping_meaning S.Shelf s).reads };

    ghost held = { λ s. (unwrapping_meaning S.Shelf s).held };

    ghost next = { λ s. (unwrapping_meaning S.Shelf s).next };

    ghost next_after = { λ s. S.Shelf.next_after s.below };

    ghost low = { λ s. S.Shelf.low s.below };

    ghost present = { λ s. S.Shelf.present s.below };

    fn put(
        &mut self,
        service: Service,
        parity: Parity,
        entry: &[u8; 16],
        moment: Moment,
    ) -> Result<(), ShelfFault> {
        let word = self.identifier.unwrap(entry);
        self.below.put(service, parity, &word, moment)
    }

    fn word(&self, service: Service, parity: Parity) -> Option<Word> {
        self.below.word(service, parity)
    }

    fn next_load(&self, service: Service) -> u64 {
        self.below.next_load(service)
    }

    fn wipe(&mut self, service: Service) {
        self.below.wipe(service);
    }
}
