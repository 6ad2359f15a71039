// A word or an identifier typed by hand: four groups of eight hexadecimal digits, leftmost first.
#![tactic(auto)]

mod digits;
mod faults;
mod groups;
#[cfg(test)]
mod tests;

pub use faults::EntryFault;
pub use groups::{
    NoGroups, OneGroup, Refused, ThreeGroups, TwoGroups, enter_identifier, enter_word,
};
