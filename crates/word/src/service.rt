ghost use Rattle.std.specs.Prelude.{◌≡◌, ℕ, ◌<◌, ◌≤◌, length, slice_index_or, MatchOption};

use std::array;

/// The number of a service, 0 to 31.
#[derive(Clone, Copy, PartialEq, Eq)]
pub struct Service {
    number: u8,
    ghost low: { number ≤ 31 },
}

impl Service {
    /// The service of that number, or nothing above 31.
    // An Option and no TryFrom: there is one way to fail, and each caller names it by a fault of its own.
    pub fn new(number: u8) -> Option<Service>
        ensures { MatchOption result (31 < number) (λ s. s.number ≡ number) }
    {
        if number > 31 {
            return None;
        }
        Some(Service { number })
    }

    /// The 32 services in order.
    pub fn all() -> [Service; 32]
        ensures count { length result ≡ 32 }
        ensures order { (k : ℕ) (d : Service) → k < 32 → (slice_index_or result k d).number ≡ k }
    {
        array::from_fn(
            |number| -> Service
                requires { number < 32 }
            {
                Service {
                    number: number as u8,
                }
            },
        )
    }

    pub fn number(self) -> u8
        ensures value { result ≡ self.number }
        ensures low { result ≤ 31 }
    {
        self.number
    }
}
