// The methods of a pacing shelf, apart from its type: their contracts cite definitions that name it.
ghost use Rattle.std.specs.Prelude.{◌≡◌, ℕ, ◌≤◌, ◌&&◌, is_ok, if◌then◌else◌, Ok, MatchResult, ◌==◌};
ghost use Rattle.shelf.specs.Meaning.{Puts, Wipes};
ghost use Rattle.shelf.specs.Onward.{after_put, paced_onward, paced_present};
ghost use Rattle.shelf.specs.Paces.{paced, rested};
ghost use Rattle.shelf.specs.PacingRule.{PacingRule, PacingExamples};
ghost use Rattle.shelf.specs.Shelves.{meaning_of, row_of, pace_at, pacing_meaning, pacing_low};

use crate::faults::ShelfFault;
use crate::pacing::{Pace, Pacing};
use crate::shelf::Shelf;
use word::{Moment, Parity, Service, Word};

/// The seconds of a span.
const SPAN: u32 = 300;

/// The words that a service takes in a span at most.
const WORDS: u8 = 10;

/// The seconds from one word of a service to the next.
const GAP: u64 = 10;

impl Pace {
    /// The pace after a word was taken at that moment.
    fn step(self, moment: Moment) -> Pace
        requires { self.next ≤ moment.seconds }
        ensures { row_of result ≡ paced (row_of self) moment.seconds }
    {
        let seconds = moment.seconds();
        let span = seconds / SPAN;
        let taken = if span == self.span { self.taken + 1 } else { 1 };
        let full_until = if taken == WORDS {
            (u64::from(span) + 1) * u64::from(SPAN)
        } else {
            0
        };
        let next = (u64::from(seconds) + GAP).max(full_until);
        Pace { next, span, taken }
    }
}

impl<S: Shelf> Pacing<S> {
    /// Paces a shelf from now on, whatever it holds.
    pub fn new(below: S) -> Pacing<S>
        ensures below { result.below ≡ below }
        ensures paces { (k : ℕ) → pace_at result k ≡ rested }
        ensures next { (k : ℕ) → (pacing_meaning S.Shelf result).next k ≡ S.Shelf.next below k }
    {
        let unpaced = Pace {
            next: 0,
            span: 0,
            taken: 0,
        };
        Pacing {
            below,
            paces: [unpaced; 32],
        }
    }
}

impl<S: Shelf> Shelf for Pacing<S> {
    ghost reads = { λ s. (pacing_meaning S.Shelf s).reads };

    ghost held = { λ s. (pacing_meaning S.Shelf s).held };

    ghost next = { λ s. (pacing_meaning S.Shelf s).next };

    ghost next_after = { λ s. paced_onward (pace_at s) (S.Shelf.next_after s.below) };

    ghost low = { λ s. pacing_low s (S.Shelf.next s.below) (S.Shelf.low s.below) };

    ghost present = { λ s. paced_present (pace_at s) (S.Shelf.next_after s.below) (S.Shelf.next s.below) (S.Shelf.present s.below) };

    fn put(
        &mut self,
        service: Service,
        parity: Parity,
        entry: &[u8; 16],
        moment: Moment,
    ) -> Result<(), ShelfFault>
        ensures puts { Puts (pacing_meaning S.Shelf self.old) service.number parity entry.now moment.seconds result (pacing_meaning S.Shelf self.new) }
        ensures paces { (k : ℕ) → pace_at self.new k ≡ (if is_ok result && k == service.number then paced (pace_at self.old k) moment.seconds else pace_at self.old k) }
        ensures later { paced_onward (pace_at self.new) (S.Shelf.next_after self.new.below) ≡ after_put result service.number moment.seconds (paced_onward (pace_at self.old) (S.Shelf.next_after self.old.below)) }
        ensures below { MatchResult result (λ _. Puts (meaning_of S.Shelf self.old.below) service.number parity entry.now moment.seconds (Ok tt) (meaning_of S.Shelf self.new.below)) (λ _. self.new.below ≡ self.old.below) }
    {
        let next = self.next_load(service);
        if u64::from(moment.seconds()) < next {
            return Err(ShelfFault::TooSoon {
                service: service.number(),
                next,
            });
        }
        self.below.put(service, parity, entry, moment)?;
        let n = usize::from(service.number());
        self.paces[n] = self.paces[n].step(moment);
        Ok(())
    }

    fn word(&self, service: Service, parity: Parity) -> Option<Word> {
        self.below.word(service, parity)
    }

    fn next_load(&self, service: Service) -> u64 {
        let pace = self.paces[usize::from(service.number())];
        pace.next.max(self.below.next_load(service))
    }

    fn wipe(&mut self, service: Service)
        ensures wipes { Wipes (pacing_meaning S.Shelf self.old) service.number (pacing_meaning S.Shelf self.new) }
        ensures paces { self.new.paces ≡ self.old.paces }
        ensures later { paced_onward (pace_at self.new) (S.Shelf.next_after self.new.below) ≡ paced_onward (pace_at self.old) (S.Shelf.next_after self.old.below) }
        ensures below { Wipes (meaning_of S.Shelf self.old.below) service.number (meaning_of S.Shelf self.new.below) }
    {
        self.below.wipe(service);
    }
}

/// The pace that is kept is the rule's, and no span of 300 seconds has more than ten words.
pub fn pacing_follows_its_rule()
    ensures rule { PacingRule }
    ensures examples { PacingExamples }
{}
