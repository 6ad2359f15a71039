ghost use Rattle.std.specs.Prelude.{◌≡◌};
ghost use Rattle.reel.specs.declared.services.faults.ServicesFault.TheVariants.{Engine, NoMemory};

use engine::EngineFault;
use std::alloc::AllocError;

/// Why a service is not opened.
#[derive(Clone, Copy)]
pub enum ServicesFault {
    Engine(EngineFault),
    NoMemory,
}

impl From<EngineFault> for ServicesFault {
    ghost from_gives = { λ f r. r ≡ Engine f };

    fn from(fault: EngineFault) -> ServicesFault {
        ServicesFault::Engine(fault)
    }
}

impl From<AllocError> for ServicesFault {
    ghost from_gives = { λ _ r. r ≡ NoMemory };

    fn from(_error: AllocError) -> ServicesFault {
        ServicesFault::NoMemory
    }
}
