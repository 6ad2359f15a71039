// What a shelf of words is, whatever it is made of.
ghost use Rattle.std.specs.Prelude.{◌≡◌, ℕ, ◌≤◌, List, [], Option, IfSome};
ghost use Rattle.word.specs.declared.parity.Parity.{Parity};
ghost use Rattle.word.specs.declared.word.Word.{Word};
ghost use Rattle.shelf.specs.Meaning.{meaning, Puts, Wipes};
ghost use Rattle.shelf.specs.Onward.{after_put};

use crate::faults::ShelfFault;
use word::{Moment, Parity, Service, Word};

pub trait Shelf {
    // The word that an entry of sixteen bytes reads as.
    ghost reads: { Self → List ℕ → Word };

    // The word that a service holds under a parity.
    ghost held: { Self → ℕ → Parity → Option Word };

    // The first moment, in seconds, at which a service takes a word.
    ghost next: { Self → ℕ → ℕ };

    // The next of a service once it took words at further moments, the first one first, if that hangs on the moments alone.
    ghost next_after: { Self → Option (ℕ → List ℕ → ℕ) };

    /// Takes an entry: the service then holds what it reads as, under that parity. Refused before the service's next.
    fn put(
        &mut self,
        service: Service,
        parity: Parity,
        entry: &[u8; 16],
        moment: Moment,
    ) -> Result<(), ShelfFault>
        ensures puts { Puts (meaning reads held next self.old) service.number parity entry.now moment.seconds result (meaning reads held next self.new) }
        ensures later { next_after self.new ≡ after_put result service.number moment.seconds (next_after self.old) };

    /// The word that the service holds under that parity.
    fn word(&self, service: Service, parity: Parity) -> Option<Word>
        ensures { result ≡ held self.now service.number parity };

    /// The first moment at which the service takes a word.
    fn next_load(&self, service: Service) -> u64
        ensures { result ≡ next self.now service.number };

    /// Forgets both words of the service. Its next stays.
    fn wipe(&mut self, service: Service)
        ensures wipes { Wipes (meaning reads held next self.old) service.number (meaning reads held next self.new) }
        ensures later { next_after self.new ≡ next_after self.old };

    // No next is later than 300 seconds after the last moment.
    ghost low: { (s : Self) (k : ℕ) → next s k ≤ 4000000300 };

    // After no further moment it is the next.
    ghost present: { (s : Self) → IfSome (next_after s) (λ f. (k : ℕ) → f k [] ≡ next s k) };
}
