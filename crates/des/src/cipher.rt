// Enciphering and deciphering a block of eight bytes in place, under a schedule of sixteen round keys.
ghost use Rattle.std.specs.Prelude.{◌≡◌, fold, length, reverse};
ghost use Rattle.std.specs.Simd.{first_chunks};
ghost use Rattle.des.specs.Bits.{number, groups};
ghost use Rattle.des.specs.Cipher.{IP, IP⁻¹, halves, preoutput, round, enciphered, deciphered};

use super::feistel::Halves;
use super::tables::{initial_permutation, inverse_permutation};

// The round keys of a schedule, K1 first. A slice with its length: the public calls take one, and an array would ask more.
fn round_keys(schedule: &[u8]) -> &[[u8; 8]]
    requires { length schedule.now ≡ 128 }
    ensures { result.now ≡ first_chunks 8 16 schedule.now }
{
    let (keys, _) = schedule.as_chunks::<8>();
    keys
}

// The halves of a block after the initial permutation.
fn input(block: &[u8]) -> Halves
    requires { length block.now ≡ 8 }
    ensures { result ≡ halves (IP (number 8 block.now)) }
{
    let bytes = block.as_array::<8>().unwrap();
    Halves::of(initial_permutation(u64::from_be_bytes(*bytes)))
}

// The block that comes of the halves after the last round.
fn output(halves: Halves) -> [u8; 8]
    ensures { result ≡ groups 8 8 (IP⁻¹ (preoutput halves)) }
{
    inverse_permutation(halves.exchanged()).to_be_bytes()
}

// The halves after a round under each of some round keys, in their order.
fn forwards(keys: &[[u8; 8]], halves: Halves) -> Halves
    ensures { result ≡ fold (λ h k. round k h) halves keys.now }
{
    keys.iter().fold(halves, |h, key| h.after_round(key))
}

// The same from the last of them to the first.
// Apart from `forwards`: one function of any iterator has a longer contract than these two chains.
fn backwards(keys: &[[u8; 8]], halves: Halves) -> Halves
    ensures { result ≡ fold (λ h k. round k h) halves (reverse keys.now) }
{
    keys.iter().rev().fold(halves, |h, key| h.after_round(key))
}

pub fn encipher(schedule: &[u8], block: &mut [u8])
    requires { (length schedule.now ≡ 128) × (length block.old ≡ 8) }
    ensures { block.new ≡ enciphered schedule.now block.old }
{
    let halves = forwards(round_keys(schedule), input(block));
    block.copy_from_slice(&output(halves));
}

// The same with the round keys from the last to the first.
pub fn decipher(schedule: &[u8], block: &mut [u8])
    requires { (length schedule.now ≡ 128) × (length block.old ≡ 8) }
    ensures { block.new ≡ deciphered schedule.now block.old }
{
    let halves = backwards(round_keys(schedule), input(block));
    block.copy_from_slice(&output(halves));
}
