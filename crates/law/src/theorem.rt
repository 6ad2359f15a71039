ghost use Rattle.engine.specs.Model.{model_of};
ghost use Rattle.law.specs.Law.{Law};

use cipher::{Cipher, TailRule};
use shelf::Shelf;

/// States, as its contract, the law of every run, over every cipher, tail rule and shelf: after any list of the eight
/// calls, an engine holds the words, has the services open and takes the loads that its accepted calls say, and what it
/// scrambles an engine that is alike restores.
pub fn every_run_is_lawful<C: Cipher, T: TailRule, S: Shelf, R: Cipher, U: TailRule, V: Shelf>()
    ensures { Law (model_of C.Cipher T.TailRule S.Shelf) (model_of R.Cipher U.TailRule V.Shelf) }
{}
