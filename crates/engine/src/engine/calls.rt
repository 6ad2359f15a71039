// The eight calls. Each says what it does to an engine, and that it extends every run.
ghost use Rattle.std.specs.Prelude.{◌≡◌, true, false, ◌&&◌, List, [], ◌∷◌, Ok, MatchOption, ◌==◌};
ghost use Rattle.cipher.specs.declared.direction.Direction.TheVariants.{Scramble, Descramble};
ghost use Rattle.shelf.specs.Examined.{examined};
ghost use Rattle.shelf.specs.Onward.{after_put};
ghost use Rattle.shelf.specs.Shelves.{meaning_of};
ghost use Rattle.engine.specs.Calls.{Makes, Opens, Closes, Joins, Leaves, Loads, Picks, Batches};
ghost use Rattle.engine.specs.Model.{is_open, slots_of, model_of, given_of};
ghost use Rattle.engine.specs.Onward.{onward_of};
ghost use Rattle.engine.specs.Runs.{opens, closes, joins, leaves, loads, picks, scrambles, descrambles, Extends, Run};

use crate::desk::{Desk, Slot};
use crate::engine::Engine;
use crate::faults::EngineFault;
use crate::grant::{Grant, Unclosed};
use batch::Direction;
use cipher::{Cipher, Profile, TailRule, all_bytes};
use shelf::Shelf;
use word::{Moment, Parity, Service};

impl<C: Cipher, T: TailRule, S: Shelf> Engine<C, T, S> {
    /// An engine over a shelf, all of which it wipes, with no service open.
    pub fn make(cipher: C, tail: T, iv: [u8; 16], shelf: S, tag: u16) -> Engine<C, T, S>
        ensures makes { Makes (given_of C.Cipher T.TailRule S.Shelf cipher tail iv shelf tag) (model_of C.Cipher T.TailRule S.Shelf result) }
        ensures later { onward_of S.Shelf result ≡ S.Shelf.next_after shelf }
        ensures runs { examined (meaning_of S.Shelf shelf) ≡ Ok tt → Run (model_of C.Cipher T.TailRule S.Shelf) (given_of C.Cipher T.TailRule S.Shelf cipher tail iv shelf tag) [] result }
    {
        all_bytes(&iv);
        Engine {
            profile: Profile { cipher, tail, iv },
            desk: Desk::new(shelf),
            tag,
        }
    }

    /// Opens a service. Its grant closes it again.
    pub fn open(&mut self, service: u8) -> Result<Grant, EngineFault>
        ensures does { Opens (model_of C.Cipher T.TailRule S.Shelf self.old) service result (model_of C.Cipher T.TailRule S.Shelf self.new) }
        ensures later { onward_of S.Shelf self.new ≡ onward_of S.Shelf self.old }
        ensures runs { Extends (model_of C.Cipher T.TailRule S.Shelf) (opens service result) self.old self.new }
    {
        let shut = Service::new(service).ok_or(EngineFault::NoService)?;
        if self.desk.is_open(shut) {
            return Err(EngineFault::AlreadyOpen);
        }
        self.desk.set_slot(shut, Slot::Live(None));
        Ok(Grant {
            tag: self.tag,
            service,
        })
    }

    /// Closes the service of a grant: its words, its components and its parity go. A refusal hands the grant back.
    pub fn close(&mut self, grant: Grant) -> Result<(), Unclosed>
        ensures does { Closes (model_of C.Cipher T.TailRule S.Shelf self.old) grant result (model_of C.Cipher T.TailRule S.Shelf self.new) }
        ensures later { onward_of S.Shelf self.new ≡ onward_of S.Shelf self.old }
        ensures runs { Extends (model_of C.Cipher T.TailRule S.Shelf) (closes grant result) self.old self.new }
    {
        let Some(service) = self.granted(&grant) else {
            return Err(Unclosed {
                grant,
                fault: EngineFault::BadGrant,
            });
        };
        let Grant { tag: _, service: _ } = grant;
        self.desk.shut(service);
        Ok(())
    }

    // The service of a grant, if the grant is of this engine and the service is open.
    fn granted(&self, grant: &Grant) -> Option<Service>
        ensures { let good = grant.now.tag == self.now.tag && is_open (slots_of self.now.desk grant.now.service) in MatchOption result (good ≡ false) (λ s. (s.number ≡ grant.now.service) × (good ≡ true)) }
    {
        if grant.tag != self.tag {
            return None;
        }
        self.desk.open_service(grant.service).ok()
    }

    /// Joins a PID to an open service.
    pub fn join(&mut self, service: u8, pid: u16) -> Result<(), EngineFault>
        ensures does { Joins (model_of C.Cipher T.TailRule S.Shelf self.old) service pid result (model_of C.Cipher T.TailRule S.Shelf self.new) }
        ensures later { onward_of S.Shelf self.new ≡ onward_of S.Shelf self.old }
        ensures runs { Extends (model_of C.Cipher T.TailRule S.Shelf) (joins service pid result) self.old self.new }
    {
        let open = self.desk.open_service(service)?;
        self.desk.components.add(pid, open)?;
        Ok(())
    }

    /// Takes a PID from its service.
    pub fn leave(&mut self, pid: u16) -> Result<(), EngineFault>
        ensures does { Leaves (model_of C.Cipher T.TailRule S.Shelf self.old) pid result (model_of C.Cipher T.TailRule S.Shelf self.new) }
        ensures later { onward_of S.Shelf self.new ≡ onward_of S.Shelf self.old }
        ensures runs { Extends (model_of C.Cipher T.TailRule S.Shelf) (leaves pid result) self.old self.new }
    {
        if !self.desk.components.remove(pid) {
            return Err(EngineFault::NotJoined);
        }
        Ok(())
    }

    /// Puts an entry on the shelf as the word of an open service and a parity, at a moment in seconds.
    pub fn load(
        &mut self,
        service: u8,
        parity: Parity,
        entry: &[u8; 16],
        moment: u32,
    ) -> Result<(), EngineFault>
        ensures does { Loads (model_of C.Cipher T.TailRule S.Shelf self.old) service parity entry.now moment result (model_of C.Cipher T.TailRule S.Shelf self.new) }
        ensures later { onward_of S.Shelf self.new ≡ after_put result service moment (onward_of S.Shelf self.old) }
        ensures runs { Extends (model_of C.Cipher T.TailRule S.Shelf) (loads service parity entry.now moment result) self.old self.new }
    {
        let target = self.desk.open_service(service)?;
        let allowed = Moment::new(moment).ok_or(EngineFault::BadMoment)?;
        self.desk.shelf.put(target, parity, entry, allowed)?;
        Ok(())
    }

    /// Has an open service scramble under a parity from now on, of which the shelf holds its word.
    pub fn pick(&mut self, service: u8, parity: Parity) -> Result<(), EngineFault>
        ensures does { Picks (model_of C.Cipher T.TailRule S.Shelf self.old) service parity result (model_of C.Cipher T.TailRule S.Shelf self.new) }
        ensures later { onward_of S.Shelf self.new ≡ onward_of S.Shelf self.old }
        ensures runs { Extends (model_of C.Cipher T.TailRule S.Shelf) (picks service parity result) self.old self.new }
    {
        let picked = self.desk.open_service(service)?;
        if self.desk.shelf.word(picked, parity).is_none() {
            return Err(EngineFault::NoWord);
        }
        self.desk.set_slot(picked, Slot::Live(Some(parity)));
        Ok(())
    }

    /// Scrambles the joined packets of a batch. Answers how many were changed, and how many passed.
    // Two calls, not one with a direction: docs/engine.md names the eight that users of an engine know.
    pub fn scramble(&self, area: &mut [u8], batch: &mut [u8]) -> Result<(usize, usize), EngineFault>
        ensures does { Batches Scramble (model_of C.Cipher T.TailRule S.Shelf self.now) area.old batch.old result area.new batch.new (model_of C.Cipher T.TailRule S.Shelf self.now) }
        ensures runs { Extends (model_of C.Cipher T.TailRule S.Shelf) (scrambles area.old batch.old result area.new batch.new) self.now self.now }
    {
        let counts = batch::process(Direction::Scramble, &self.profile, &self.desk, area, batch)?;
        Ok(counts)
    }

    /// Descrambles the joined packets of a batch. Answers how many were changed, and how many passed.
    pub fn descramble(
        &self,
        area: &mut [u8],
        batch: &mut [u8],
    ) -> Result<(usize, usize), EngineFault>
        ensures does { Batches Descramble (model_of C.Cipher T.TailRule S.Shelf self.now) area.old batch.old result area.new batch.new (model_of C.Cipher T.TailRule S.Shelf self.now) }
        ensures runs { Extends (model_of C.Cipher T.TailRule S.Shelf) (descrambles area.old batch.old result area.new batch.new) self.now self.now }
    {
        let counts = batch::process(
            Direction::Descramble,
            &self.profile,
            &self.desk,
            area,
            batch,
        )?;
        Ok(counts)
    }
}
