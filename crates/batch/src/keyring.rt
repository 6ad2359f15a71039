// What a batch asks of whoever holds the words.
ghost use Rattle.std.specs.Prelude.{◌≡◌, ℕ, Option};
ghost use Rattle.std.specs.Option.{option_map};
ghost use Rattle.word.specs.declared.parity.Parity.{Parity};
ghost use Rattle.word.specs.declared.word.Word.{Word};

use word::{Parity, Service, Word};

/// Which PIDs are joined to which services, and the words of these.
pub trait Keyring {
    // The number of the service that a PID is joined to.
    ghost joined: { Self → ℕ → Option ℕ };

    // The parity that is picked for a service.
    ghost picked: { Self → ℕ → Option Parity };

    // The word that a service holds under a parity.
    ghost held: { Self → ℕ → Parity → Option Word };

    fn service_of(&self, pid: u16) -> Option<Service>
        ensures { option_map (λ s. s.number) result ≡ joined self.now pid };

    fn picked_parity(&self, service: Service) -> Option<Parity>
        ensures { result ≡ picked self.now service.number };

    fn word(&self, service: Service, parity: Parity) -> Option<Word>
        ensures { result ≡ held self.now service.number parity };
}
