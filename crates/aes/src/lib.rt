// AES with a key of 128 bits (FIPS 197).
#![tactic(auto)]

mod inv_mix_table;
mod inv_s_box;
mod inverse;
mod laws;
mod mix_table;
mod rounds;
mod s_box;
mod schedule;
mod state;
#[cfg(test)]
mod tests;

pub use inverse::inv_cipher;
pub use laws::{
    boxes_invert, fips_197_examples, inverse_cipher_inverts, inverse_is_multiplicative,
};
pub use rounds::cipher;
pub use schedule::key_expansion;

// The bytes of a block, of a key and of a key schedule.
pub const BLOCK_LEN: usize = 16;

pub const KEY_LEN: usize = 16;

pub const SCHEDULE_LEN: usize = 176;
