// The header of a transport packet of 188 bytes (ISO/IEC 13818-1): its fields, and where its payload starts.
#![tactic(auto)]

mod faults;
mod header;

pub use faults::{HeaderFault, PacketFault};
pub use header::{
    AdaptationControl, Header, PACKET_LEN, SYNC_BYTE, ScramblingControl, set_control,
};
