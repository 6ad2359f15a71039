// What scrambling and descrambling a batch do together.
#![tactic(auto)]

mod rehearsal;
mod theorem;

pub use rehearsal::rehearse;
pub use theorem::{scrambled_packets_are_restored, unchanged_packets_stay};
