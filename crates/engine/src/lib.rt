// The engine: opens services, joins components to them, loads their words, and scrambles and descrambles with these.
#![tactic(auto)]

mod desk;
mod engine;
mod faults;
mod grant;
#[cfg(test)]
mod tests;

pub use desk::{Desk, Slot};
pub use engine::Engine;
pub use faults::EngineFault;
pub use grant::{Grant, Unclosed};
