// The Data Encryption Standard (FIPS 46-3), on bytes.
#![tactic(auto)]

mod bits;
mod cipher;
mod feistel;
mod laws;
mod schedule;
mod tables;
#[cfg(test)]
mod tests;

pub use cipher::{decipher, encipher};
pub use laws::{
    answers_are_known, deciphering_inverts, parity_bits_are_ignored, schedules_are_bytes,
    tables_are_lawful,
};
pub use schedule::key_schedule;

pub const BLOCK_LEN: usize = 8;

pub const KEY_LEN: usize = 8;

pub const SCHEDULE_LEN: usize = 128;
