// Block ciphers, tail rules, and cipher block chaining over the payload of a packet.
#![tactic(auto)]

mod bytes;
mod cipher;
mod direction;
mod profile;
mod tail;
mod theorem;

pub use bytes::{all_bytes, xor_into};
pub use cipher::Cipher;
pub use direction::Direction;
pub use profile::{Profile, ScheduleLength};
pub use tail::{ClearTail, MaskedTail, TailRule};
pub use theorem::descrambling_restores;
