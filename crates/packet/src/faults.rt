ghost use Rattle.std.specs.Prelude.{◌≡◌};
ghost use Rattle.packet.specs.Faults.{packet_refusal};

use fault::{Layer, Refusal};

/// What is wrong with a packet's header.
#[derive(Clone, Copy, Debug, PartialEq, Eq)]
pub enum HeaderFault {
    /// Byte 0 is not 0x47.
    Sync,
    /// The adaptation control is 00.
    AdaptationControl,
    /// The adaptation field's length does not fit the adaptation control.
    AdaptationLength { length: u8 },
    /// The packet to scramble has control bits other than 00.
    Scrambled,
    /// The packet to descramble has the reserved control bits 01.
    ReservedControl,
}

/// The fault of one packet of a batch; packets count from 0.
#[derive(Clone, Copy, Debug, PartialEq, Eq)]
pub struct PacketFault {
    pub packet: usize,
    pub cause: HeaderFault,
}

/// The fault as a number, a layer and the places packet and byte.
impl From<PacketFault> for Refusal {
    ghost from_gives = { λ f r. r ≡ packet_refusal f };

    fn from(fault: PacketFault) -> Refusal {
        let (number, byte) = match fault.cause {
            HeaderFault::Sync => (14, 0),
            HeaderFault::AdaptationControl => (15, 3),
            HeaderFault::AdaptationLength { .. } => (15, 4),
            HeaderFault::Scrambled => (16, 3),
            HeaderFault::ReservedControl => (17, 3),
        };
        Refusal {
            number,
            layer: Layer::Packet,
            first: fault.packet as u64,
            second: byte,
        }
    }
}
