ghost use Rattle.engine.specs.Model.{model_of};
ghost use Rattle.law.specs.Rehearsals.{Rehearses};

use crate::theorem::every_run_is_lawful;
use cipher::{Cipher, TailRule};
use engine::{Engine, EngineFault};
use shelf::Shelf;

/// What each call of a rehearsal answered: packets changed, and packets passed.
#[derive(Clone, Copy)]
pub struct Rehearsal {
    pub scrambled: (usize, usize),
    pub descrambled: (usize, usize),
}

/// Scrambles a batch at one engine and, if that is accepted, descrambles it at the other, each with a key area of its own.
/// By the law of every run, a packet that the first changed comes back if the second has its PID joined with the same word.
pub fn rehearse<C: Cipher, T: TailRule, S: Shelf, R: Cipher, U: TailRule, V: Shelf>(
    one: &Engine<C, T, S>,
    two: &Engine<R, U, V>,
    area: &mut [u8],
    other_area: &mut [u8],
    batch: &mut [u8],
) -> Result<Rehearsal, EngineFault>
    ensures { Rehearses (model_of C.Cipher T.TailRule S.Shelf) (model_of R.Cipher U.TailRule V.Shelf) one.now two.now area.old other_area.old batch.old result area.new other_area.new batch.new }
{
    every_run_is_lawful::<C, T, S, R, U, V>();
    let scrambled = one.scramble(area, batch)?;
    let descrambled = two.descramble(other_area, batch)?;
    Ok(Rehearsal {
        scrambled,
        descrambled,
    })
}
