ghost use Rattle.std.specs.Prelude.{◌≡◌};
ghost use Rattle.profile.specs.Vectors.{cissa_vector, zero_vector};

use crate::ciphers::{Aes128, Des};
use cipher::{ClearTail, MaskedTail, Profile};

const CISSA_IV: [u8; 16] = *b"DVBTMCPTAESCISSA";

// A function for each profile and no generic one: each names the types of its cipher and tail rule.

/// CISSA (ETSI TS 103 127, clause 6): AES-128, the clear rule and a vector of its own.
pub fn cissa_profile() -> Profile<Aes128, ClearTail>
    ensures { result.iv ≡ cissa_vector }
{
    Profile {
        cipher: Aes128,
        tail: ClearTail,
        iv: CISSA_IV,
    }
}

/// IDSA (ATIS, the IIF default scrambling algorithm): AES-128, the masked rule and a zero vector.
pub fn idsa_profile() -> Profile<Aes128, MaskedTail>
    ensures { result.iv ≡ zero_vector }
{
    Profile {
        cipher: Aes128,
        tail: MaskedTail,
        iv: [0; 16],
    }
}

/// The DES profile: DES, the masked rule and a zero vector.
pub fn des_profile() -> Profile<Des, MaskedTail>
    ensures { result.iv ≡ zero_vector }
{
    Profile {
        cipher: Des,
        tail: MaskedTail,
        iv: [0; 16],
    }
}
