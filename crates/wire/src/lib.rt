// The answers to tagged fields: what each field asks of an engine, and what is written for it.
#![tactic(auto)]

mod faults;
mod input;
mod reply;
mod request;
mod session;
mod theorem;

pub use faults::ProgramFault;
pub use input::missing;
pub use reply::Reply;
pub use request::{Request, Tag, request_of};
pub use session::Session;
pub use theorem::fields_may_come_one_by_one;
