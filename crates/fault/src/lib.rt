// What a refusal says, whichever layer it comes from: its number, its layer and two places.
#![tactic(auto)]

ghost use Rattle.std.specs.Prelude.{◌≡◌, Some};
ghost use Rattle.fault.specs.Layers.{layer_name};
ghost use Rattle.fault.specs.Refusals.{without_places};

use std::fmt;

/// The layer that refuses.
#[derive(Clone, Copy, Debug, PartialEq, Eq)]
pub enum Layer {
    Entry,
    Shelf,
    Packet,
    Engine,
    Program,
}

impl fmt::Display for Layer {
    ghost output = { λ l. Some (layer_name l) };

    fn fmt<W: fmt::Write>(&self, f: &mut fmt::Formatter<W>) -> fmt::Result {
        f.write_str(match self {
            Layer::Entry => "entry",
            Layer::Shelf => "shelf",
            Layer::Packet => "packet",
            Layer::Engine => "engine",
            Layer::Program => "program",
        })
    }
}

/// A fault as a number, a layer and two places, which are 0 and 0 where a fault has none.
#[derive(Clone, Copy, Debug, PartialEq, Eq)]
pub struct Refusal {
    /// A number, not a kind: this is the form that the wire and the operator see. The causes are the layers' own enums.
    pub number: u8,
    pub layer: Layer,
    // Places are 0 where there is none, in the same form and for the same reason.
    pub first: u64,
    pub second: u64,
}

impl Refusal {
    /// A refusal that has no places.
    pub fn without_places(number: u8, layer: Layer) -> Refusal
        ensures { result ≡ without_places number layer }
    {
        Refusal {
            number,
            layer,
            first: 0,
            second: 0,
        }
    }

    /// What the number means, in plain words.
    pub fn meaning(&self) -> &'static str {
        match self.number {
            1 => "the service is above 31",
            2 => "the service is open already",
            3 => "the grant is not of this engine, or its service is not open",
            4 => "the service is not open",
            5 => "the PID is not in 32 to 8190",
            6 => "the PID is joined already",
            7 => "the table of components is full",
            8 => "the PID is not joined",
            9 => "the moment is above 4,000,000,000 seconds",
            10 => "the load comes too soon after the last",
            11 => "no word is held for the packet's service and parity",
            12 => "the key area is not as long as the cipher's schedule",
            13 => "the bytes are no whole number of packets, or more than 64 of them",
            14 => "byte 0 of the packet is not 0x47, so this is no transport packet",
            15 => "the adaptation control is 00, or the adaptation field's length does not fit it",
            16 => "the packet to scramble is scrambled already",
            17 => "the packet to descramble has the reserved control bits 01",
            18 => "a group of the word is not eight digits long",
            19 => "a character of the word is no hexadecimal digit",
            22 => "the shelf holds a word already",
            23 => "the shelf has been loaded before",
            24 => "the field's tag is unknown",
            25 => "the field's value is off its length, or no parity",
            26 => "the input ends inside a field",
            _ => "unknown",
        }
    }
}

/// The number and what it means, as `18 (a group of the word is not eight digits long)`.
impl fmt::Display for Refusal {
    fn fmt<W: fmt::Write>(&self, f: &mut fmt::Formatter<W>) -> fmt::Result {
        write!(f, "{} ({})", self.number, self.meaning())
    }
}
