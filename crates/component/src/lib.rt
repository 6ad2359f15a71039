// The components of an engine: at most 64 PIDs, each with the service that it is joined to.
#![tactic(auto)]

mod component;
mod components;
mod faults;
#[cfg(test)]
mod tests;

pub use component::Component;
pub use components::Components;
pub use faults::ComponentFault;
