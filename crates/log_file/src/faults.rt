// Why a log is refused.
use engine::EngineFault;
use entry::EntryFault;
use fault::Refusal;
use std::alloc::AllocError;
use thiserror::Error;
use word::ParseParityError;

/// What is wrong with a line: the rule that it breaks, or what refuses it. The faults of the entry and of the engine travel whole.
#[derive(Clone, Copy, Debug, Error)]
pub enum Cause {
    /// There are not nine columns.
    #[error("a line has nine columns: SERVICE PIDS PARITY KIND, four groups, MOMENT")]
    Columns,
    #[error("the service is 0 to 31, decimal")]
    Service,
    #[error("a PID is 32 to 8190, decimal or after 0x, with commas; - for no further one")]
    Pid,
    #[error(transparent)]
    Parity(#[from] ParseParityError),
    #[error("the kind is word or encrypted")]
    Kind,
    #[error("refused: {}, {}", Refusal::from(*.0), .0)]
    Group(#[from] EntryFault),
    #[error("the moment is 0 to 4,000,000,000 seconds, decimal")]
    Moment,
    /// The line has a word and those before it are encrypted, or the other way round.
    #[error("a log has words or encrypted words, not both")]
    Mixed,
    /// An earlier line has the same service and parity.
    #[error("the service has a word of this parity already, and no --at says which one counts")]
    Repeated,
    /// The words are encrypted, and no identifier is given.
    #[error("the words are encrypted: --identifier is needed")]
    NoIdentifier,
    /// The words are not encrypted, and an identifier is given.
    #[error("the words are not encrypted: --identifier has no use")]
    IdleIdentifier,
    #[error("refused: {}", Refusal::from(*.0))]
    Engine(#[from] EngineFault),
    #[error("there is no memory")]
    NoMemory(#[from(alloc)] AllocError),
}

/// A line that is refused, counted from 1, and why.
#[derive(Clone, Copy, Debug, Error)]
#[error("log line {line}: {cause}")]
pub struct LogFault {
    pub line: usize,
    pub cause: Cause,
}
