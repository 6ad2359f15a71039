ghost use Rattle.std.specs.Prelude.{◌≡◌};
ghost use Rattle.wire.specs.Requests.{tag_in, parity_of, join_in, load_in, pick_in, batch_in, request_of, tag_of, answer_byte, answer_tag, carries_batch};

use crate::faults::ProgramFault;
use batch::{Direction, MAX_BATCH_LEN};
use word::Parity;

/// The first byte of a field that asks for something.
#[derive(Clone, Copy, Debug, PartialEq, Eq)]
pub enum Tag {
    Join = 1,
    Load = 2,
    Pick = 3,
    Scramble = 4,
    Descramble = 5,
}

impl TryFrom<u8> for Tag {
    type Error = ProgramFault;

    ghost try_from_gives = { λ byte r. r ≡ tag_in byte };

    fn try_from(byte: u8) -> Result<Tag, ProgramFault> {
        match byte {
            1 => Ok(Tag::Join),
            2 => Ok(Tag::Load),
            3 => Ok(Tag::Pick),
            4 => Ok(Tag::Scramble),
            5 => Ok(Tag::Descramble),
            _ => Err(ProgramFault::UnknownTag),
        }
    }
}

impl Tag {
    /// The tag of the answer to such a field: its own plus 128.
    pub fn answer(self) -> u8
        ensures { result ≡ answer_byte self }
    {
        self as u8 + 128
    }
}

/// What a field asks for.
#[derive(Clone, Copy, PartialEq, Eq)]
pub enum Request {
    /// Join a PID.
    Join(u16),
    /// Load an entry under a parity at a moment.
    Load(Parity, [u8; 16], u32),
    /// Pick a parity.
    Pick(Parity),
    /// Scramble or descramble the value.
    Batch(Direction),
}

impl Request {
    /// The tag of the fields that ask for such a thing.
    pub fn tag(&self) -> Tag
        ensures { result ≡ tag_of self.now }
    {
        match self {
            Request::Join(_) => Tag::Join,
            Request::Load(_, _, _) => Tag::Load,
            Request::Pick(_) => Tag::Pick,
            Request::Batch(Direction::Scramble) => Tag::Scramble,
            Request::Batch(Direction::Descramble) => Tag::Descramble,
        }
    }

    /// The tag of the request's answer.
    pub fn answer_tag(&self) -> u8
        ensures { result ≡ answer_tag self.now }
    {
        self.tag().answer()
    }

    /// Whether the answer has the field's value behind it.
    pub fn carries_batch(&self) -> bool
        ensures { result ≡ carries_batch self.now }
    {
        matches!(self, Request::Batch(_))
    }
}

/// What a field of that tag and value asks for, or why it asks for nothing.
pub fn request_of(tag: u8, value: &[u8]) -> Result<Request, ProgramFault>
    ensures { result ≡ request_of tag value.now }
{
    match Tag::try_from(tag)? {
        Tag::Join => join_in(value),
        Tag::Load => load_in(value),
        Tag::Pick => pick_in(value),
        Tag::Scramble => batch_in(value, Direction::Scramble),
        Tag::Descramble => batch_in(value, Direction::Descramble),
    }
}

fn join_in(value: &[u8]) -> Result<Request, ProgramFault>
    ensures { result ≡ join_in value.now }
{
    let [high, low] = value else {
        return Err(ProgramFault::BadValue);
    };
    Ok(Request::Join(u16::from_be_bytes([*high, *low])))
}

fn load_in(value: &[u8]) -> Result<Request, ProgramFault>
    ensures { result ≡ load_in value.now }
{
    let [parity, entry @ .., a, b, c, d] = value else {
        return Err(ProgramFault::BadValue);
    };
    let Ok(entry) = <[u8; 16]>::try_from(entry) else {
        return Err(ProgramFault::BadValue);
    };
    let parity = parity_of(*parity)?;
    let moment = u32::from_be_bytes([*a, *b, *c, *d]);
    Ok(Request::Load(parity, entry, moment))
}

fn pick_in(value: &[u8]) -> Result<Request, ProgramFault>
    ensures { result ≡ pick_in value.now }
{
    let [parity] = value else {
        return Err(ProgramFault::BadValue);
    };
    Ok(Request::Pick(parity_of(*parity)?))
}

fn batch_in(value: &[u8], direction: Direction) -> Result<Request, ProgramFault>
    ensures { result ≡ batch_in value.now direction }
{
    if value.len() > MAX_BATCH_LEN {
        return Err(ProgramFault::BadValue);
    }
    Ok(Request::Batch(direction))
}

// No TryFrom of `Parity`: these two numbers are this format's alone.
fn parity_of(byte: u8) -> Result<Parity, ProgramFault>
    ensures { result ≡ parity_of byte }
{
    match byte {
        0 => Ok(Parity::Even),
        1 => Ok(Parity::Odd),
        _ => Err(ProgramFault::BadValue),
    }
}
