// The key schedule: K1 to K16, each as eight groups of six bits, one to a byte.
ghost use Rattle.std.specs.Prelude.{◌≡◌, ◌^◌, ◌<◌, ◌≤◌, length};
ghost use Rattle.des.specs.Schedule.{left_shift, key_schedule};

use super::bits::groups_of_six;
use super::tables::{LEFT_SHIFTS, permuted_choice_1, permuted_choice_2};

// 28 bits shifted to the left, those that leave coming in at the right.
fn rotate(half: u32, by: u32) -> u32
    requires { (half < 2 ^ 28) × (by ≤ 28) }
    ensures { result ≡ left_shift by half }
{
    ((half << by) & 0x0fff_ffff) | (half >> (28 - by))
}

// The lowest bit of each byte of the key, its parity bit, is not looked at.
pub fn key_schedule(key: &[u8; 8], schedule: &mut [u8])
    requires { length schedule.old ≡ 128 }
    ensures { schedule.new ≡ key_schedule key.now }
{
    let chosen = permuted_choice_1(u64::from_be_bytes(*key));
    let mut c = (chosen >> 28) as u32;
    let mut d = (chosen & 0x0fff_ffff) as u32;
    // Not over chunks_exact_mut: std says nothing of what the slice holds afterwards.
    for (n, by) in LEFT_SHIFTS.iter().enumerate() {
        c = rotate(c, *by);
        d = rotate(d, *by);
        let round_key = permuted_choice_2(u64::from(c) << 28 | u64::from(d));
        schedule[8 * n..8 * n + 8].copy_from_slice(&groups_of_six(round_key));
    }
}
