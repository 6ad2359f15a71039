ghost use Rattle.std.specs.Prelude.{◌≡◌, ◌+◌, ◌/◌, ◌%◌, [], ◌∷◌, ◌++◌, length, if◌then◌else◌, OnOk};
ghost use Rattle.wire.specs.Replies.{number_of, written};

use crate::faults::ProgramFault;
use fault::Refusal;
use std::alloc::AllocError;

/// What is answered to a field.
#[derive(Clone, Copy, Debug, PartialEq, Eq)]
pub struct Reply {
    // A number and a flag, not the `Tag` of the field: whoever makes a reply may give any, and a `Tag` would admit fewer.
    /// The tag of the answer.
    pub tag: u8,
    /// Accepted, or why the field is refused.
    pub outcome: Result<(), ProgramFault>,
    /// Whether the field's value, as it was left, follows.
    pub with_value: bool,
}

impl Reply {
    /// The refusal's number, or 0.
    pub fn number(&self) -> u8
        ensures { result ≡ number_of self.now.outcome }
    {
        match self.outcome {
            Ok(()) => 0,
            Err(fault) => Refusal::from(fault).number,
        }
    }

    // What follows the number.
    fn body<'a>(&self, value: &'a [u8]) -> &'a [u8]
        ensures { result.now ≡ (if self.now.with_value then value.now else []) }
    {
        if self.with_value { value } else { &[] }
    }

    /// Writes the answer behind what is there; `value` is the field's value as it was left.
    pub fn write(&self, value: &[u8], out: &mut Vec<u8>) -> Result<(), AllocError>
        ensures { OnOk result (out.new.items ≡ out.old.items ++ written self.now value.now) }
    {
        let body = self.body(value);
        let [high, low] = length_bytes(body);
        out.extend_from_slice(&[self.tag, high, low, self.number()])?;
        out.extend_from_slice(body)?;
        Ok(())
    }
}

// The length of an answer with that body behind its number, in two bytes.
fn length_bytes(body: &[u8]) -> [u8; 2]
    ensures { result ≡ ((length body.now + 1) / 256 % 256) ∷ ((length body.now + 1) % 256) ∷ [] }
{
    let [.., high, low] = (body.len() + 1).to_be_bytes();
    [high, low]
}
