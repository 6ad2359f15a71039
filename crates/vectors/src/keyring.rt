ghost use Rattle.std.specs.Prelude.{Some};
ghost use Rattle.vectors.specs.Keyring.{joined_to, held_under};

use batch::Keyring;
use word::{Parity, Service, Word};

/// One word, held by service 0 under the parity that is picked; one PID is joined.
#[derive(Clone, Copy)]
pub struct OneWord {
    pub word: Word,
    pub pid: u16,
    pub parity: Parity,
}

impl Keyring for OneWord {
    ghost joined = { λ k pid. joined_to k.pid pid };

    ghost picked = { λ k n. Some k.parity };

    ghost held = { λ k n q. held_under k.parity k.word q };

    fn service_of(&self, pid: u16) -> Option<Service> {
        if self.pid == pid {
            Service::new(0)
        } else {
            None
        }
    }

    fn picked_parity(&self, _service: Service) -> Option<Parity> {
        Some(self.parity)
    }

    fn word(&self, _service: Service, parity: Parity) -> Option<Word> {
        (self.parity == parity).then_some(self.word)
    }
}
