ghost use Rattle.std.specs.Prelude.{◌≡◌, ℕ};
ghost use Rattle.packet.specs.Header.{header_of, control_bits, control_of, adaptation_of, payload_start, with_control};

use crate::faults::HeaderFault;

/// The length of a packet in bytes.
pub const PACKET_LEN: usize = 188;

/// Byte 0 of every packet.
pub const SYNC_BYTE: u8 = 0x47;

/// The two bits that say under which word a payload is scrambled.
#[derive(Clone, Copy, Debug, PartialEq, Eq)]
pub enum ScramblingControl {
    Clear,
    Reserved,
    Even,
    Odd,
}

impl ScramblingControl {
    // The control of two bits. No `From`: of a byte past 3 this says nothing.
    fn from_bits(bits: u8) -> ScramblingControl
        ensures { result ≡ control_of bits }
    {
        match bits {
            0 => ScramblingControl::Clear,
            1 => ScramblingControl::Reserved,
            2 => ScramblingControl::Even,
            _ => ScramblingControl::Odd,
        }
    }

    /// The two bits, 0 to 3.
    // No `From`: of a byte it would not say which two bits these are.
    pub fn bits(self) -> u8
        ensures { result ≡ control_bits self }
    {
        match self {
            ScramblingControl::Clear => 0,
            ScramblingControl::Reserved => 1,
            ScramblingControl::Even => 2,
            ScramblingControl::Odd => 3,
        }
    }
}

/// The two bits that say whether an adaptation field and a payload follow the header.
#[derive(Clone, Copy, Debug, PartialEq, Eq)]
pub enum AdaptationControl {
    Reserved,
    PayloadOnly,
    AdaptationOnly,
    AdaptationAndPayload,
}

impl AdaptationControl {
    // The control of two bits. No `From`: of a byte past 3 this says nothing.
    fn from_bits(bits: u8) -> AdaptationControl
        ensures { result ≡ adaptation_of bits }
    {
        match bits {
            0 => AdaptationControl::Reserved,
            1 => AdaptationControl::PayloadOnly,
            2 => AdaptationControl::AdaptationOnly,
            _ => AdaptationControl::AdaptationAndPayload,
        }
    }
}

/// What the first five bytes of a packet say.
#[derive(Clone, Copy, Debug, PartialEq, Eq)]
pub struct Header {
    /// Byte 0, `SYNC_BYTE` in a packet that is one.
    pub sync: u8,
    /// The bit that marks a transport error.
    pub error: bool,
    pub pid: u16,
    pub control: ScramblingControl,
    pub adaptation: AdaptationControl,
    /// Byte 4: the length of the adaptation field, where there is one.
    // Beside `adaptation`, not in it: a header is five bytes as they stand, which no reading refuses.
    pub length: u8,
}

impl Header {
    /// The header of a packet that begins with these bytes.
    // Named as std's `from_be_bytes`; a `From` would not say that bytes are read.
    pub fn from_bytes(bytes: [u8; 5]) -> Header
        ensures { result ≡ header_of bytes }
    {
        let [sync, b1, b2, b3, length] = bytes;
        Header {
            sync,
            error: b1 >= 0x80,
            pid: u16::from(b1 % 32) * 256 + u16::from(b2),
            control: ScramblingControl::from_bits(b3 / 64),
            adaptation: AdaptationControl::from_bits(b3 / 16 % 4),
            length,
        }
    }

    /// Where the payload starts, or that there is none.
    pub fn payload_start(&self) -> Result<Option<usize>, HeaderFault>
        ensures { result ≡ payload_start self.now }
    {
        let length = self.length;
        match self.adaptation {
            AdaptationControl::Reserved => Err(HeaderFault::AdaptationControl),
            AdaptationControl::PayloadOnly => Ok(Some(4)),
            AdaptationControl::AdaptationOnly => {
                if length != 183 {
                    return Err(HeaderFault::AdaptationLength { length });
                }
                Ok(None)
            }
            AdaptationControl::AdaptationAndPayload => {
                if length > 182 {
                    return Err(HeaderFault::AdaptationLength { length });
                }
                Ok(Some(5 + usize::from(length)))
            }
        }
    }
}

/// Sets the control bits of a packet, and nothing else of it.
pub fn set_control(packet: &mut [u8], control: ScramblingControl)
    ensures { packet.new ≡ with_control control packet.old }
{
    if let [_, _, _, byte, ..] = packet {
        *byte = control.bits() * 64 + *byte % 64;
    }
}
