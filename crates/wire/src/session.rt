// An engine whose service 0 is open, with the grant that closes it and the key area of its batches.
ghost use Rattle.std.specs.Prelude.{◌≡◌, true};
ghost use Rattle.engine.specs.Model.{is_open, slots_of};
ghost use Rattle.wire.specs.Areas.{key_area};

use cipher::ClearTail;
use engine::{Engine, Grant};
use profile::Aes128;
use shelf::{Pacing, PlainShelf};

mod calls;

/// A run of the program: CISSA over a pacing plain shelf, tag 1, with service 0 open. It has no Drop: `end` closes the service.
pub struct Session {
    engine: Engine<Aes128, ClearTail, Pacing<PlainShelf>>,
    grant: Grant,
    area: [u8; 176],
    ghost tagged: { grant.tag ≡ engine.tag },
    ghost service: { grant.service ≡ 0 },
    ghost opened: { is_open (slots_of engine.desk 0) ≡ true },
    ghost clean: { area ≡ key_area },
}
