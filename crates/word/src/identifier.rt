ghost use Rattle.std.specs.Prelude.{◌≡◌};
ghost use Rattle.word.specs.Identifiers.{identifier_bytes, unwrapped};
ghost use Rattle.word.specs.Words.{identifier_of};

use crate::halves::{bytes_of_halves, halves_of};

/// A receiver's secret identifier: 16 bytes like a word, and never one. No call answers what it holds.
#[derive(Clone, Copy)]
pub struct Identifier {
    high: u64,
    low: u64,
}

impl Identifier {
    pub fn new(high: u64, low: u64) -> Identifier
        ensures high { result.high ≡ high }
        ensures low { result.low ≡ low }
    {
        Identifier { high, low }
    }

    /// The identifier of sixteen bytes.
    // Named as `Word::from_bytes`, for the same reason.
    pub fn from_bytes(bytes: &[u8; 16]) -> Identifier
        ensures { result ≡ identifier_of bytes.now }
    {
        let (high, low) = halves_of(bytes);
        Identifier { high, low }
    }

    /// The key that the identifier is, for this file alone.
    fn key(&self) -> [u8; 16]
        ensures { result ≡ identifier_bytes self.now }
    {
        bytes_of_halves(self.high, self.low)
    }

    /// The session word that an encrypted session word stands for: the entry decrypted by AES-128 under the identifier.
    // The key and its schedule are locals. Zeros written over a local that is read no more are dropped
    // by the compiler, so nothing is written and nothing is claimed of what the stack keeps.
    pub fn unwrap(&self, entry: &[u8; 16]) -> [u8; 16]
        ensures { result ≡ unwrapped self.now entry.now }
    {
        let mut schedule = [0; aes::SCHEDULE_LEN];
        aes::key_expansion(&self.key(), &mut schedule);
        let mut word = *entry;
        aes::inv_cipher(&schedule, &mut word);
        word
    }
}
