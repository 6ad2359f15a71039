// The law of every run of the engine's calls, and a call that uses it.
#![tactic(auto)]

mod rehearsal;
mod theorem;

pub use rehearsal::{Rehearsal, rehearse};
pub use theorem::every_run_is_lawful;
