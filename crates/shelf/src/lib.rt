// Shelves: where the words of 32 services are kept, two of each service.
#![tactic(auto)]

mod examination;
mod faults;
mod pacing;
mod plain;
mod shelf;
#[cfg(test)]
mod tests;
mod unwrapping;

pub use examination::examine;
pub use faults::ShelfFault;
pub use pacing::{Pacing, pacing_follows_its_rule};
pub use plain::PlainShelf;
pub use shelf::Shelf;
pub use unwrapping::Unwrapping;
