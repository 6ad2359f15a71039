/// Why a component is not added.
#[derive(Clone, Copy, Debug, PartialEq, Eq)]
pub enum ComponentFault {
    /// The PID is not in 32 to 8190.
    OutOfRange,
    /// The PID is joined already.
    Joined,
    /// The table holds 64 components.
    Full,
}
