ghost use Rattle.std.specs.Prelude.{◌≡◌};
ghost use Rattle.cipher.specs.Bytes.{Bytes, xors};

/// XORs `mask` into `bytes`, place by place; what is past the end of `mask` stays.
pub fn xor_into(bytes: &mut [u8], mask: &[u8])
    ensures { bytes.new ≡ xors bytes.old mask.now }
{
    let n = bytes.len().min(mask.len());
    // By index: of a slice that iter_mut().zip(..) wrote through, a proof knows only the length.
    for i in 0..n {
        bytes[i] ^= mask[i];
    }
}

/// Brings into a proof that the elements of a slice of `u8` are bytes; no code is left of it.
pub fn all_bytes(bytes: &[u8])
    ensures { Bytes bytes.now }
{
    let _ = bytes.is_empty();
}
