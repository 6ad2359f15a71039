// The values that every layer speaks of: words, identifiers, parities, services and moments.
#![tactic(auto)]

mod halves;
mod identifier;
mod moment;
mod parity;
mod service;
mod word;

pub use identifier::Identifier;
pub use moment::Moment;
pub use parity::{Parity, ParseParityError};
pub use service::Service;
pub use word::Word;
