// The halves of a block, and the round that changes them.
ghost use Rattle.std.specs.Prelude.{◌≡◌};
ghost use Rattle.des.specs.Cipher.{f, halves, preoutput, round};

use super::bits::groups_of_six;
use super::tables::{expand, permutation, select};

// L and R, of 32 bits each.
#[derive(Clone, Copy)]
pub struct Halves {
    pub left: u32,
    pub right: u32,
}

// The cipher function f(R, K), where K is eight groups of six bits.
fn cipher_function(right: u32, key: &[u8; 8]) -> u32
    ensures { result ≡ f right key.now }
{
    let groups = groups_of_six(expand(right));
    let mut selected = 0;
    for (i, k) in key.iter().enumerate() {
        selected = (selected << 4) | u32::from(select(i, groups[i] ^ *k));
    }
    permutation(selected)
}

impl Halves {
    // The left and the right half of a block.
    pub fn of(block: u64) -> Halves
        ensures { result ≡ halves block }
    {
        Halves {
            left: (block >> 32) as u32,
            right: (block & 0xffff_ffff) as u32,
        }
    }

    pub fn after_round(self, key: &[u8; 8]) -> Halves
        ensures { result ≡ round key.now self }
    {
        Halves {
            left: self.right,
            right: self.left ^ cipher_function(self.right, key),
        }
    }

    // The block R L.
    pub fn exchanged(self) -> u64
        ensures { result ≡ preoutput self }
    {
        u64::from(self.right) << 32 | u64::from(self.left)
    }
}
