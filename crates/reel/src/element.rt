// What changes the packets of a stream.
ghost use Rattle.std.specs.Prelude.{◌≡◌};
ghost use Rattle.engine.specs.Calls.{Batches};
ghost use Rattle.engine.specs.Model.{Model, model_of};

use crate::station::Station;
use batch::Direction;
use cipher::{Cipher, TailRule};
use engine::EngineFault;
use shelf::Shelf;

/// An engine whose services are open and hold their words.
pub trait Element {
    // The engine as its callers see it.
    ghost model: { Self → Model };

    /// How long a key area has to be.
    fn area_len(&self) -> usize
        ensures { result ≡ (model self.now).profile.schedule_length };

    /// Scrambles or descrambles a batch. Answers how many packets were changed, and how many passed.
    fn change(
        &self,
        direction: Direction,
        area: &mut [u8],
        batch: &mut [u8],
    ) -> Result<(usize, usize), EngineFault>
        ensures { Batches direction (model self.now) area.old batch.old result area.new batch.new (model self.now) };
}

impl<C: Cipher, T: TailRule, S: Shelf> Element for Station<'_, C, T, S> {
    ghost model = { λ s. model_of C.Cipher T.TailRule S.Shelf s.services.now.engine };

    fn area_len(&self) -> usize {
        C::SCHEDULE
    }

    fn change(
        &self,
        direction: Direction,
        area: &mut [u8],
        batch: &mut [u8],
    ) -> Result<(usize, usize), EngineFault> {
        match direction {
            Direction::Scramble => self.services.engine.scramble(area, batch),
            Direction::Descramble => self.services.engine.descramble(area, batch),
        }
    }
}
