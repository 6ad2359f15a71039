// Two numbers of 64 bits as sixteen bytes, the most significant first.
ghost use Rattle.std.specs.Prelude.{◌≡◌, ◌++◌};
ghost use Rattle.word.specs.Bytes.{bytes_of, number_at};

/// The two numbers of sixteen bytes.
pub(crate) fn halves_of(bytes: &[u8; 16]) -> (u64, u64)
    ensures { result ≡ (number_at bytes.now 0, number_at bytes.now 8) }
{
    let [a, b, c, d, e, f, g, h, i, j, k, l, m, n, o, p] = *bytes;
    let high = u64::from_be_bytes([a, b, c, d, e, f, g, h]);
    let low = u64::from_be_bytes([i, j, k, l, m, n, o, p]);
    (high, low)
}

/// The sixteen bytes of two numbers.
pub(crate) fn bytes_of_halves(high: u64, low: u64) -> [u8; 16]
    ensures { result ≡ bytes_of high ++ bytes_of low }
{
    let [a, b, c, d, e, f, g, h] = high.to_be_bytes();
    let [i, j, k, l, m, n, o, p] = low.to_be_bytes();
    [a, b, c, d, e, f, g, h, i, j, k, l, m, n, o, p]
}
