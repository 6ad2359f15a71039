// Numbers as rows of bits, the leftmost bit most significant.
ghost use Rattle.std.specs.Prelude.{◌≡◌, ◌+◌, ◌-◌, ◌*◌, ◌^◌, ◌<◌, ◌≤◌, length};
ghost use Rattle.std.specs.List.{flat_map, AllByRecursion};
ghost use Rattle.des.specs.Bits.{groups, permuted};

// A number as eight groups of six bits, the leftmost first.
pub fn groups_of_six(x: u64) -> [u8; 8]
    ensures { result ≡ groups 6 8 x }
{
    let mut groups = [0; 8];
    for (i, group) in groups.iter_mut().enumerate() {
        *group = ((x >> (42 - 6 * i)) & 63) as u8;
    }
    groups
}

// The bits of a number of `width` bits that a row names, put after `y`.
fn append(y: u64, width: u32, row: &[u8], x: u64) -> u64
    requires { (width ≤ 64) × ((AllByRecursion (λ t. (0 < t) × (t ≤ width)) row.now) × ((length row.now ≤ 64) × (y < 2 ^ (64 - length row.now)))) }
    ensures { result ≡ y * 2 ^ length row.now + permuted width row.now x }
{
    let mut z = y;
    for t in row {
        z = (z << 1) | ((x >> (width - u32::from(*t))) & 1);
    }
    z
}

// The bits of a number of `width` bits that a table names, row by row.
pub fn permute<const N: usize>(width: u32, table: &[[u8; N]], x: u64) -> u64
    requires { (width ≤ 64) × ((AllByRecursion (AllByRecursion (λ t. (0 < t) × (t ≤ width))) table.now) × (length (flat_map (λ row. row) table.now) ≤ 64)) }
    ensures { result ≡ permuted width (flat_map (λ row. row) table.now) x }
{
    let mut y = 0;
    for row in table {
        y = append(y, width, row, x);
    }
    y
}
