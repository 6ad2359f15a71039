ghost use Rattle.std.specs.Prelude.{◌≡◌, List, [], ◌∷◌, Ok};
ghost use Rattle.engine.specs.Calls.{join_answer, load_answer, pick_answer, from_batch};
ghost use Rattle.engine.specs.Runs.{Run};
ghost use Rattle.wire.specs.Answered.{Does};
ghost use Rattle.wire.specs.Programs.{view_of, state_of, program_given, opening, opening_call};
ghost use Rattle.wire.specs.Replies.{counts, batch_left, outcome_at, reply_to, value_left};
ghost use Rattle.wire.specs.Requests.{request_of};
ghost use Rattle.wire.specs.declared.request.Request.TheVariants.{Join, Load, Pick, Batch};

use crate::faults::ProgramFault;
use crate::reply::Reply;
use crate::request::{Request, request_of};
use crate::session::Session;
use batch::Direction;
use cipher::Profile;
use engine::{Engine, EngineFault};
use profile::cissa_profile;
use shelf::{Pacing, PlainShelf};
use word::Parity;

// The program's engine has no other beside it to be told apart from.
const TAG: u16 = 1;

impl Session {
    /// A run in which no field has been read yet.
    pub fn start() -> Session
        ensures state { state_of result.engine ≡ opening }
        ensures runs { Run view_of program_given (opening_call ∷ []) result.engine }
    {
        let Profile { cipher, tail, iv } = cissa_profile();
        let mut engine = Engine::make(cipher, tail, iv, Pacing::new(PlainShelf::new()), TAG);
        let grant = engine.open(0).unwrap();
        Session {
            engine,
            grant,
            area: [0; 176],
        }
    }

    /// Ends the run: closes service 0, whose word goes with it.
    pub fn end(self) {
        let Session {
            mut engine,
            grant,
            area: _,
        } = self;
        engine.close(grant).unwrap();
    }

    fn join(&mut self, pid: u16) -> Result<(), EngineFault>
        ensures answer { result ≡ join_answer (view_of self.old.engine) 0 pid }
        ensures does { Does self.old.engine (Ok (Join pid)) [] self.new.engine }
    {
        self.engine.join(0, pid)
    }

    fn load(&mut self, parity: Parity, entry: &[u8; 16], moment: u32) -> Result<(), EngineFault>
        ensures answer { result ≡ load_answer (view_of self.old.engine) 0 moment }
        ensures does { Does self.old.engine (Ok (Load parity entry.now moment)) [] self.new.engine }
    {
        self.engine.load(0, parity, entry, moment)
    }

    fn pick(&mut self, parity: Parity) -> Result<(), EngineFault>
        ensures answer { result ≡ pick_answer (view_of self.old.engine) 0 parity }
        ensures does { Does self.old.engine (Ok (Pick parity)) [] self.new.engine }
    {
        self.engine.pick(0, parity)
    }

    fn turn(
        &mut self,
        direction: Direction,
        batch: &mut [u8],
    ) -> Result<(usize, usize), EngineFault>
        ensures answer { result ≡ from_batch (counts direction (view_of self.old.engine) batch.old) }
        ensures batch { batch.new ≡ batch_left direction (view_of self.old.engine) batch.old }
        ensures same { self.new.engine ≡ self.old.engine }
        ensures does { Does self.old.engine (Ok (Batch direction)) batch.old self.new.engine }
    {
        match direction {
            Direction::Scramble => self.engine.scramble(&mut self.area, batch),
            Direction::Descramble => self.engine.descramble(&mut self.area, batch),
        }
    }

    // Does what is requested, for service 0; `value` is the batch, if it is one that is asked for.
    fn ask(&mut self, request: Request, value: &mut [u8]) -> Result<(), ProgramFault>
        ensures outcome { result ≡ outcome_at (view_of self.old.engine) request value.old }
        ensures value { value.new ≡ value_left (view_of self.old.engine) (Ok request) value.old }
        ensures does { Does self.old.engine (Ok request) value.old self.new.engine }
    {
        match request {
            Request::Join(pid) => self.join(pid)?,
            Request::Load(parity, entry, moment) => self.load(parity, &entry, moment)?,
            Request::Pick(parity) => self.pick(parity)?,
            Request::Batch(direction) => {
                self.turn(direction, value)?;
            }
        }
        Ok(())
    }

    /// Answers a field, whose value is changed in place if it is a batch that is accepted.
    pub fn answer(&mut self, tag: u8, value: &mut [u8]) -> Reply
        ensures reply { result ≡ reply_to (view_of self.old.engine) (request_of tag value.old) value.old }
        ensures value { value.new ≡ value_left (view_of self.old.engine) (request_of tag value.old) value.old }
        ensures does { Does self.old.engine (request_of tag value.old) value.old self.new.engine }
    {
        match request_of(tag, value) {
            Ok(request) => Reply {
                tag: request.answer_tag(),
                outcome: self.ask(request, value),
                with_value: request.carries_batch(),
            },
            Err(fault) => Reply {
                tag: 255,
                outcome: Err(fault),
                with_value: false,
            },
        }
    }
}
