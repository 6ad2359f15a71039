ghost use Rattle.std.specs.Prelude.{◌≡◌};
ghost use Rattle.word.specs.Words.{word_of, word_bytes};

use crate::halves::{bytes_of_halves, halves_of};

/// A word of 16 bytes: two numbers of 64 bits, the most significant first.
// A struct of its own beside `Identifier`, though both are two numbers: neither may stand for the other.
#[derive(Clone, Copy, PartialEq, Eq)]
pub struct Word {
    high: u64,
    low: u64,
}

impl Word {
    pub fn new(high: u64, low: u64) -> Word
        ensures high { result.high ≡ high }
        ensures low { result.low ≡ low }
    {
        Word { high, low }
    }

    /// The word of sixteen bytes.
    // Named as std's `from_be_bytes` and `to_be_bytes`; a `From` would not say that bytes are read.
    pub fn from_bytes(bytes: &[u8; 16]) -> Word
        ensures { result ≡ word_of bytes.now }
    {
        let (high, low) = halves_of(bytes);
        Word { high, low }
    }

    /// The sixteen bytes of the word.
    pub fn to_bytes(self) -> [u8; 16]
        ensures { result ≡ word_bytes self }
    {
        bytes_of_halves(self.high, self.low)
    }
}
