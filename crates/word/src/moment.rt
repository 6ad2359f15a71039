ghost use Rattle.std.specs.Prelude.{◌≡◌, ◌<◌, ◌≤◌, MatchOption};

/// A moment in whole seconds, 0 to 4,000,000,000.
#[derive(Clone, Copy, PartialEq, Eq, PartialOrd, Ord)]
pub struct Moment {
    seconds: u32,
    ghost low: { seconds ≤ 4000000000 },
}

impl Moment {
    /// The moment of that many seconds, or nothing above 4,000,000,000.
    // An Option and no TryFrom, as of `Service::new`.
    pub fn new(seconds: u32) -> Option<Moment>
        ensures { MatchOption result (4000000000 < seconds) (λ m. m.seconds ≡ seconds) }
    {
        if seconds > 4_000_000_000 {
            return None;
        }
        Some(Moment { seconds })
    }

    pub fn seconds(self) -> u32
        ensures value { result ≡ self.seconds }
        ensures low { result ≤ 4000000000 }
    {
        self.seconds
    }
}
