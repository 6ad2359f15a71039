// Bytes written as text.
ghost use Rattle.std.specs.Prelude.{◌≡◌, IfOk};
ghost use Rattle.vectors.specs.Hex.{digit_of, byte_of, Spells};

use anyhow::{Context, anyhow};
use std::alloc::Global;

// The value of a hexadecimal digit in lower case. Neither `char::to_digit` nor the kit's `hex` refuses upper case.
fn digit(byte: u8) -> Option<u8>
    ensures { result ≡ digit_of byte }
{
    match byte {
        b'0'..=b'9' => Some(byte - b'0'),
        b'a'..=b'f' => Some(byte - b'a' + 10),
        _ => None,
    }
}

// The byte of two digits.
fn byte_of(high: u8, low: u8) -> Option<u8>
    ensures { result ≡ byte_of (digit_of high) (digit_of low) }
{
    Some(digit(high)? * 16 + digit(low)?)
}

/// The bytes that a text spells, two digits for each.
pub fn decode(heap: Global, text: &str) -> anyhow::Result<Vec<u8>>
    ensures { IfOk result (λ v. Spells text.now v.items) }
{
    let (pairs, odd) = text.as_bytes().as_chunks::<2>();
    if !odd.is_empty() {
        return Err(anyhow!("an odd number of digits"));
    }
    let mut bytes = Vec::new(heap);
    for [high, low] in pairs {
        bytes.push(byte_of(*high, *low).context("no hexadecimal digit")?)?;
    }
    Ok(bytes)
}

/// Sixteen bytes.
pub fn decode_16(heap: Global, text: &str) -> anyhow::Result<[u8; 16]>
    ensures { IfOk result (λ bytes. Spells text.now bytes) }
{
    let bytes = decode(heap, text)?;
    Ok(<[u8; 16]>::try_from(bytes.as_slice())?)
}
