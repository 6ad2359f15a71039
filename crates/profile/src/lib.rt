// The block ciphers behind the cipher interface, and the profiles: cipher, tail rule and initial vector.
#![tactic(auto)]

mod ciphers;
mod profiles;
mod theorem;

pub use ciphers::{Aes128, Des};
pub use profiles::{cissa_profile, des_profile, idsa_profile};
pub use theorem::des_reads_56_bits;
