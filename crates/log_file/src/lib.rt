// The studio's log: a line for each word that it loaded, in the order of loading.
#![tactic(auto)]

mod columns;
mod faults;
mod line;
mod reading;
#[cfg(test)]
mod tests;

pub use columns::{moment_of, pids_of};
pub use faults::{Cause, LogFault};
pub use line::{Kind, LogLine};
pub use reading::{BadLog, Log, read_log};
