// What a stream goes through.
ghost use Rattle.std.specs.Prelude.{◌≡◌, true};
ghost use Rattle.engine.specs.Model.{slots_of};
ghost use Rattle.reel.specs.Ready.{ready};

use crate::services::Services;
use crate::task::Words;

/// Services for the words of a task. Service 0 is open if the word is that of the command line; what is loaded is tested.
#[derive(Drop)]
pub struct Station<'a, C, T, S> {
    pub services: &'a Services<C, T, S>,
    pub words: &'a Words,
    ghost opened: { ready words.now (slots_of services.now.engine.desk) ≡ true },
}
