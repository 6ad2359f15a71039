// Scrambling and descrambling batches of packets: all are tested before any is changed.
#![tactic(auto)]

mod faults;
mod guard;
mod keyring;
mod pass;
mod plan;

pub use cipher::Direction;
pub use faults::BatchFault;
pub use keyring::Keyring;
pub use pass::{MAX_BATCH_LEN, process};
pub use plan::{Change, Objection};
