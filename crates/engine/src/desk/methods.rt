ghost use Rattle.std.specs.Prelude.{◌≡◌, ℕ, not, [], if◌then◌else◌, Some, None, filter, MatchResult, ◌==◌, nat_eq};
ghost use Rattle.component.specs.Table.{joined as joined_in, without_service};
ghost use Rattle.shelf.specs.Meaning.{Wipes};
ghost use Rattle.shelf.specs.Shelves.{meaning_of};
ghost use Rattle.engine.specs.Calls.{closed};
ghost use Rattle.engine.specs.Model.{is_open, parity_in, slots_of, pairs_of};
ghost use Rattle.engine.specs.Wiped.{WipesBelow};
ghost use Rattle.engine.specs.declared.desk.Slot.TheVariants.{Shut};

use crate::desk::{Desk, Slot};
use crate::faults::EngineFault;
use batch::Keyring;
use component::Components;
use shelf::Shelf;
use word::{Parity, Service, Word};

/// Wipes all 32 services of a shelf.
pub(crate) fn wipe_all<S: Shelf>(shelf: &mut S)
    ensures wipes { WipesBelow (meaning_of S.Shelf shelf.old) 32 (meaning_of S.Shelf shelf.new) }
    ensures later { S.Shelf.next_after shelf.new ≡ S.Shelf.next_after shelf.old }
{
    for service in Service::all() {
        shelf.wipe(service);
    }
}

impl<S: Shelf> Desk<S> {
    /// A desk over a shelf that is wiped, with no service open and no component.
    pub(crate) fn new(mut shelf: S) -> Desk<S>
        ensures wipes { WipesBelow (meaning_of S.Shelf shelf) 32 (meaning_of S.Shelf result.shelf) }
        ensures later { S.Shelf.next_after result.shelf ≡ S.Shelf.next_after shelf }
        ensures slots { (k : ℕ) → slots_of result k ≡ Shut }
        ensures components { pairs_of result.components ≡ [] }
        ensures joined { (k : ℕ) → joined_in result.components k ≡ None }
    {
        wipe_all(&mut shelf);
        Desk {
            shelf,
            slots: [Slot::Shut; 32],
            components: Components::new(),
        }
    }

    /// Shuts a service: its words, its components and its parity go.
    pub(crate) fn shut(&mut self, service: Service)
        ensures wipes { Wipes (meaning_of S.Shelf self.old.shelf) service.number (meaning_of S.Shelf self.new.shelf) }
        ensures later { S.Shelf.next_after self.new.shelf ≡ S.Shelf.next_after self.old.shelf }
        ensures slots { (k : ℕ) → slots_of self.new k ≡ (if nat_eq k service.number then Shut else slots_of self.old k) }
        ensures components { pairs_of self.new.components ≡ filter (λ c. not (c.1 == service.number)) (pairs_of self.old.components) }
        ensures joined { (k : ℕ) → joined_in self.new.components k ≡ without_service service.number (joined_in self.old.components k) }
    {
        self.shelf.wipe(service);
        self.components.remove_service(service);
        self.set_slot(service, Slot::Shut);
    }
}

impl<S> Desk<S> {
    fn slot(&self, service: Service) -> Slot
        ensures { result ≡ slots_of self.now service.number }
    {
        self.slots[usize::from(service.number())]
    }

    pub(crate) fn is_open(&self, service: Service) -> bool
        ensures { result ≡ is_open (slots_of self.now service.number) }
    {
        matches!(self.slot(service), Slot::Live(_))
    }

    /// The open service of that number, or why there is none.
    pub(crate) fn open_service(&self, number: u8) -> Result<Service, EngineFault>
        ensures { MatchResult result (λ s. (s.number ≡ number) × (closed (slots_of self.now) number ≡ None)) (λ f. closed (slots_of self.now) number ≡ Some f) }
    {
        let service = Service::new(number).ok_or(EngineFault::NoService)?;
        if !self.is_open(service) {
            return Err(EngineFault::NotOpen);
        }
        Ok(service)
    }

    /// Another slot for a service.
    pub(crate) fn set_slot(&mut self, service: Service, slot: Slot)
        ensures slots { (k : ℕ) → slots_of self.new k ≡ (if nat_eq k service.number then slot else slots_of self.old k) }
        ensures shelf { self.new.shelf ≡ self.old.shelf }
        ensures components { self.new.components ≡ self.old.components }
    {
        self.slots[usize::from(service.number())] = slot;
    }
}

impl<S: Shelf> Keyring for Desk<S> {
    ghost joined = { λ d. joined_in d.components };

    ghost picked = { λ d k. parity_in (slots_of d k) };

    ghost held = { λ d. S.Shelf.held d.shelf };

    fn service_of(&self, pid: u16) -> Option<Service> {
        self.components.service_of(pid)
    }

    fn picked_parity(&self, service: Service) -> Option<Parity> {
        match self.slot(service) {
            Slot::Shut => None,
            Slot::Live(parity) => parity,
        }
    }

    fn word(&self, service: Service, parity: Parity) -> Option<Word> {
        self.shelf.word(service, parity)
    }
}
