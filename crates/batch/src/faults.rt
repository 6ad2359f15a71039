ghost use Rattle.std.specs.Prelude.{◌≡◌};
ghost use Rattle.batch.specs.Faults.{batch_refusal};
ghost use Rattle.batch.specs.declared.faults.BatchFault.TheVariants.{Packet};

use fault::{Layer, Refusal};
use packet::PacketFault;

/// Why a batch is refused.
#[derive(Clone, Copy, Debug, PartialEq, Eq)]
pub enum BatchFault {
    /// The key area is not as long as the cipher's schedule.
    KeyArea { length: usize },
    /// The batch is no whole number of packets, or more than 64.
    BatchLength { length: usize },
    /// A packet of the batch has a faulty header.
    Packet(PacketFault),
    /// No word is held for a packet of the batch.
    NoWord { packet: usize },
}

/// The fault as a number, a layer and two places.
impl From<BatchFault> for Refusal {
    ghost from_gives = { λ f r. r ≡ batch_refusal f };

    fn from(fault: BatchFault) -> Refusal {
        match fault {
            BatchFault::KeyArea { .. } => Refusal::without_places(12, Layer::Engine),
            BatchFault::BatchLength { .. } => Refusal::without_places(13, Layer::Engine),
            BatchFault::Packet(fault) => fault.into(),
            BatchFault::NoWord { packet } => Refusal {
                number: 11,
                layer: Layer::Engine,
                first: packet as u64,
                second: 3,
            },
        }
    }
}

impl From<PacketFault> for BatchFault {
    ghost from_gives = { λ f r. r ≡ Packet f };

    fn from(fault: PacketFault) -> BatchFault {
        BatchFault::Packet(fault)
    }
}
