ghost use Rattle.std.specs.Prelude.{◌≡◌};
ghost use Rattle.wire.specs.Faults.{refusal_of};
ghost use Rattle.wire.specs.declared.faults.ProgramFault.TheVariants.{Engine};

use engine::EngineFault;
use fault::{Layer, Refusal};

/// Why a field is refused.
#[derive(Clone, Copy, Debug, PartialEq, Eq)]
pub enum ProgramFault {
    /// The engine refuses the call.
    Engine(EngineFault),
    /// No field has this tag.
    UnknownTag,
    /// The value is too long, off the length that its tag states, or has no parity where one stands.
    BadValue,
    /// The input ends inside the field.
    CutShort,
}

/// The fault as a number, a layer and two places.
impl From<ProgramFault> for Refusal {
    ghost from_gives = { λ f r. r ≡ refusal_of f };

    fn from(fault: ProgramFault) -> Refusal {
        let number = match fault {
            ProgramFault::Engine(fault) => return fault.into(),
            ProgramFault::UnknownTag => 24,
            ProgramFault::BadValue => 25,
            ProgramFault::CutShort => 26,
        };
        Refusal::without_places(number, Layer::Program)
    }
}

impl From<EngineFault> for ProgramFault {
    ghost from_gives = { λ f r. r ≡ Engine f };

    fn from(fault: EngineFault) -> ProgramFault {
        ProgramFault::Engine(fault)
    }
}
