use crate::faults::EngineFault;

/// The right to close a service at the engine of a tag.
/// It has no Drop: whoever holds it gives it back by close.
pub struct Grant {
    pub(crate) tag: u16,
    pub(crate) service: u8,
}

/// A refused close: the grant, handed back, and why.
pub struct Unclosed {
    pub grant: Grant,
    pub fault: EngineFault,
}
