// InvCipher (FIPS 197, section 5.3), a column at a time.
ghost use Rattle.std.specs.Prelude.{◌≡◌, length};
ghost use Rattle.aes.specs.Inverse.{inv_cipher, inv_cipher_round, inv_mix_byte, inv_shift_rows, inv_sub_bytes};
ghost use Rattle.aes.specs.Rounds.{add_round_key};
ghost use Rattle.aes.specs.Words.{column_of, state_bytes, word_bytes};

use crate::inv_mix_table::inv_mixed;
use crate::inv_s_box::inv_sub_byte;
use crate::state::{State, keyed_diagonal, round_keys, turned_sum};

// InvMixColumns at one column.
fn inv_mix_column(x: u32) -> u32
    ensures { word_bytes result ≡ column_of inv_mix_byte (word_bytes x) }
{
    let [a, b, c, d] = x.to_le_bytes();
    turned_sum(inv_mixed(a), inv_mixed(b), inv_mixed(c), inv_mixed(d))
}

// InvShiftRows, InvSubBytes and AddRoundKey.
// Apart from `last_round`: which columns a row is shifted from is all that either says.
fn last_inv_round(state: State, key: State) -> State
    ensures { state_bytes result ≡ add_round_key (inv_sub_bytes (inv_shift_rows (state_bytes state))) (state_bytes key) }
{
    let State { c0, c1, c2, c3 } = state;
    State {
        c0: keyed_diagonal(inv_sub_byte, c0, c3, c2, c1, key.c0),
        c1: keyed_diagonal(inv_sub_byte, c1, c0, c3, c2, key.c1),
        c2: keyed_diagonal(inv_sub_byte, c2, c1, c0, c3, key.c2),
        c3: keyed_diagonal(inv_sub_byte, c3, c2, c1, c0, key.c3),
    }
}

// A round but the last.
fn inv_cipher_round(state: State, key: State) -> State
    ensures { state_bytes result ≡ inv_cipher_round (state_bytes key) (state_bytes state) }
{
    let State { c0, c1, c2, c3 } = last_inv_round(state, key);
    State {
        c0: inv_mix_column(c0),
        c1: inv_mix_column(c1),
        c2: inv_mix_column(c2),
        c3: inv_mix_column(c3),
    }
}

// InvCipher: decrypts a block in place, under the key schedule of `cipher`.
// Apart from `cipher`: the round, the last round and the order of the keys all differ.
pub fn inv_cipher(schedule: &[u8], block: &mut [u8])
    requires { (length schedule.now ≡ 176) × (length block.old ≡ 16) }
    ensures { block.new ≡ inv_cipher schedule.now block.old }
{
    let keys = round_keys(schedule);
    let input = State::from_bytes(block.as_array().unwrap());
    let mut state = input.add_round_key(State::from_bytes(&keys[10]));
    for key in keys[1..10].iter().rev() {
        state = inv_cipher_round(state, State::from_bytes(key));
    }
    let output = last_inv_round(state, State::from_bytes(&keys[0]));
    block.copy_from_slice(&output.to_bytes());
}
