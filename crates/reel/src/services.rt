// An engine with the grants of the services that are open at it.
ghost use Rattle.std.specs.Prelude.{◌≡◌, true, reverse};
ghost use Rattle.engine.specs.Model.{slots_of};
ghost use Rattle.reel.specs.Held.{closable};

use engine::{Engine, Grant};

mod calls;
mod faults;

pub use faults::ServicesFault;

pub struct Services<C, T, S> {
    pub engine: Engine<C, T, S>,
    grants: Vec<Grant>,
    /// Closing the grants from the last to the first is never refused.
    ghost held: { closable engine.tag (slots_of engine.desk) (reverse grants.items) ≡ true },
}
