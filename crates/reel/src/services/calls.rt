ghost use Rattle.std.specs.Prelude.{◌≡◌, ℕ, ◌<◌, true, [], ◌∷◌, ◌++◌, vec_len, vec_capacity};
ghost use Rattle.engine.specs.Calls.{Makes, Joins, Loads, Picks};
ghost use Rattle.engine.specs.Model.{is_open, slots_of, model_of, given_of};
ghost use Rattle.engine.specs.Onward.{onward_of};
ghost use Rattle.shelf.specs.Onward.{after_put};
ghost use Rattle.reel.specs.Held.{accepted, without};
ghost use Rattle.reel.specs.Opening.{OpensHeld};

use crate::services::{Services, ServicesFault};
use cipher::{Cipher, Profile, TailRule};
use engine::{Engine, EngineFault, Grant, Unclosed};
use shelf::Shelf;
use std::alloc::{AllocFailed, Global};
use word::Parity;

/// The program's engines need no tags to be told apart.
pub const TAG: u16 = 1;

impl<C: Cipher, T: TailRule, S: Shelf> Services<C, T, S> {
    /// An engine under a profile, over a shelf, with no service open.
    pub fn new(heap: Global, profile: Profile<C, T>, shelf: S) -> Services<C, T, S>
        ensures makes { Makes (given_of C.Cipher T.TailRule S.Shelf profile.cipher profile.tail profile.iv shelf TAG) (model_of C.Cipher T.TailRule S.Shelf result.engine) }
        ensures later { onward_of S.Shelf result.engine ≡ S.Shelf.next_after shelf }
    {
        let Profile { cipher, tail, iv } = profile;
        Services {
            engine: Engine::make(cipher, tail, iv, shelf, TAG),
            grants: Vec::new(heap),
        }
    }

    /// Opens a service, whose grant is kept. There is room for the grant before the service opens.
    pub fn open(&mut self, service: u8) -> Result<(), ServicesFault>
        ensures does { OpensHeld (model_of C.Cipher T.TailRule S.Shelf self.old.engine) service result (model_of C.Cipher T.TailRule S.Shelf self.new.engine) }
        ensures later { onward_of S.Shelf self.new.engine ≡ onward_of S.Shelf self.old.engine }
    {
        self.grants.reserve(1)?;
        let grant = self.engine.open(service)?;
        keep(&mut self.grants, grant);
        Ok(())
    }

    // The three calls that give no grant are the engine's own.

    pub fn join(&mut self, service: u8, pid: u16) -> Result<(), EngineFault>
        ensures does { Joins (model_of C.Cipher T.TailRule S.Shelf self.old.engine) service pid result (model_of C.Cipher T.TailRule S.Shelf self.new.engine) }
        ensures later { onward_of S.Shelf self.new.engine ≡ onward_of S.Shelf self.old.engine }
    {
        self.engine.join(service, pid)
    }

    pub fn load(
        &mut self,
        service: u8,
        parity: Parity,
        entry: &[u8; 16],
        moment: u32,
    ) -> Result<(), EngineFault>
        ensures does { Loads (model_of C.Cipher T.TailRule S.Shelf self.old.engine) service parity entry.now moment result (model_of C.Cipher T.TailRule S.Shelf self.new.engine) }
        ensures later { onward_of S.Shelf self.new.engine ≡ after_put result service moment (onward_of S.Shelf self.old.engine) }
    {
        self.engine.load(service, parity, entry, moment)
    }

    pub fn pick(&mut self, service: u8, parity: Parity) -> Result<(), EngineFault>
        ensures does { Picks (model_of C.Cipher T.TailRule S.Shelf self.old.engine) service parity result (model_of C.Cipher T.TailRule S.Shelf self.new.engine) }
        ensures later { onward_of S.Shelf self.new.engine ≡ onward_of S.Shelf self.old.engine }
    {
        self.engine.pick(service, parity)
    }

    /// Loads a word of a service, and has the service scramble under it. Whatever is refused, what is open stays open.
    pub fn load_and_pick(
        &mut self,
        service: u8,
        parity: Parity,
        entry: &[u8; 16],
        moment: u32,
    ) -> Result<(), EngineFault>
        ensures tag { self.new.engine.tag ≡ self.old.engine.tag }
        ensures stays { (k : ℕ) → is_open (slots_of self.old.engine.desk k) ≡ true → is_open (slots_of self.new.engine.desk k) ≡ true }
    {
        self.load(service, parity, entry, moment)?;
        self.pick(service, parity)
    }

    /// Joins PIDs to a service. Whatever is refused, what is open stays open.
    pub fn join_all(&mut self, service: u8, pids: &[u16]) -> Result<(), EngineFault>
        ensures tag { self.new.engine.tag ≡ self.old.engine.tag }
        ensures stays { (k : ℕ) → is_open (slots_of self.old.engine.desk k) ≡ true → is_open (slots_of self.new.engine.desk k) ≡ true }
    {
        for pid in pids {
            self.join(service, *pid)?;
        }
        Ok(())
    }
}

impl<C: Cipher + Drop, T: TailRule + Drop, S: Shelf + Drop> Services<C, T, S> {
    /// Closes all services, whose words go with them.
    pub fn finish(self) {
        let Services {
            mut engine,
            mut grants,
        } = self;
        while let Some(grant) = grants.pop() {
            close(&mut engine, grant);
        }
        grants.destroy_empty();
    }
}

// Puts a grant where there is room for it.
fn keep(grants: &mut Vec<Grant>, grant: Grant)
    requires { vec_len grants.old < vec_capacity grants.old }
    ensures { grants.new.items ≡ grants.old.items ++ grant ∷ [] }
{
    match grants.push(grant) {
        Ok(()) => {}
        Err(failed) => {
            let AllocFailed { value: _grant } = failed;
            unreachable()
        }
    }
}

// A grant of this engine for an open service is never handed back.
fn close<C: Cipher, T: TailRule, S: Shelf>(engine: &mut Engine<C, T, S>, grant: Grant)
    requires { accepted engine.old.tag (slots_of engine.old.desk) grant ≡ true }
    ensures tag { engine.new.tag ≡ engine.old.tag }
    ensures slots { (k : ℕ) → slots_of engine.new.desk k ≡ without grant.service (slots_of engine.old.desk) k }
{
    match engine.close(grant) {
        Ok(()) => {}
        Err(unclosed) => {
            let Unclosed {
                grant: _grant,
                fault: _,
            } = unclosed;
            unreachable()
        }
    }
}
