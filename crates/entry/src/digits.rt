// The number that one group stands for.
ghost use Rattle.std.specs.Prelude.{◌≡◌, ◌+◌, ◌*◌, ◌^◌};
ghost use Rattle.entry.specs.Groups.{digit_of, group_of};

use crate::faults::EntryFault;

/// The value of a hexadecimal digit of either case, given as its byte.
fn digit_value(byte: u8) -> Option<u8>
    ensures { result ≡ digit_of byte }
{
    match byte {
        b'0'..=b'9' => Some(byte - b'0'),
        b'A'..=b'F' => Some(byte - b'A' + 10),
        b'a'..=b'f' => Some(byte - b'a' + 10),
        _ => None,
    }
}

/// The number of a group of eight digits, given as its bytes; `group` is its place among the four, for the fault.
pub fn group_number(group: u8, text: &[u8]) -> Result<u32, EntryFault>
    ensures { result ≡ group_of group text.now }
{
    if text.len() != 8 {
        return Err(EntryFault::Length {
            group,
            length: text.len(),
        });
    }
    let mut number = 0u32;
    for (position, byte) in text.iter().enumerate() {
        let Some(digit) = digit_value(*byte) else {
            return Err(EntryFault::Digit { group, position });
        };
        number = number * 16 + u32::from(digit);
    }
    Ok(number)
}

/// Two groups as one half of a word.
pub fn half(left: u32, right: u32) -> u64
    ensures { result ≡ left * 2 ^ 32 + right }
{
    (u64::from(left) << 32) | u64::from(right)
}
