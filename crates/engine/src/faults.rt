ghost use Rattle.std.specs.Prelude.{◌≡◌};
ghost use Rattle.engine.specs.Faults.{refusal_of, join_fault};
ghost use Rattle.engine.specs.declared.faults.EngineFault.TheVariants.{Shelf, Batch};

use batch::BatchFault;
use component::ComponentFault;
use fault::{Layer, Refusal};
use shelf::ShelfFault;

/// Why a call of the engine is refused.
#[derive(Clone, Copy, Debug, PartialEq, Eq)]
pub enum EngineFault {
    /// The shelf refuses the word.
    Shelf(ShelfFault),
    /// The batch is refused.
    Batch(BatchFault),
    /// The service is above 31.
    NoService,
    /// The service is open already.
    AlreadyOpen,
    /// The grant is of another engine, or its service is not open.
    BadGrant,
    /// The service is not open.
    NotOpen,
    /// The PID is not in 32 to 8190.
    PidRange,
    /// The PID is joined already.
    AlreadyJoined,
    /// There are 64 components already.
    TableFull,
    /// The PID is not joined.
    NotJoined,
    /// The moment is above 4,000,000,000 seconds.
    BadMoment,
    /// The service holds no word under the parity to pick.
    NoWord,
}

/// The fault as a number, a layer and two places.
impl From<EngineFault> for Refusal {
    ghost from_gives = { λ f r. r ≡ refusal_of f };

    fn from(fault: EngineFault) -> Refusal {
        let number = match fault {
            EngineFault::Shelf(fault) => return fault.into(),
            EngineFault::Batch(fault) => return fault.into(),
            EngineFault::NoService => 1,
            EngineFault::AlreadyOpen => 2,
            EngineFault::BadGrant => 3,
            EngineFault::NotOpen => 4,
            EngineFault::PidRange => 5,
            EngineFault::AlreadyJoined => 6,
            EngineFault::TableFull => 7,
            EngineFault::NotJoined => 8,
            EngineFault::BadMoment => 9,
            EngineFault::NoWord => 11,
        };
        Refusal::without_places(number, Layer::Engine)
    }
}

impl From<ShelfFault> for EngineFault {
    ghost from_gives = { λ f r. r ≡ Shelf f };

    fn from(fault: ShelfFault) -> EngineFault {
        EngineFault::Shelf(fault)
    }
}

impl From<BatchFault> for EngineFault {
    ghost from_gives = { λ f r. r ≡ Batch f };

    fn from(fault: BatchFault) -> EngineFault {
        EngineFault::Batch(fault)
    }
}

impl From<ComponentFault> for EngineFault {
    ghost from_gives = { λ f r. r ≡ join_fault f };

    fn from(fault: ComponentFault) -> EngineFault {
        match fault {
            ComponentFault::OutOfRange => EngineFault::PidRange,
            ComponentFault::Joined => EngineFault::AlreadyJoined,
            ComponentFault::Full => EngineFault::TableFull,
        }
    }
}
