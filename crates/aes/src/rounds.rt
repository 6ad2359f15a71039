// Cipher (FIPS 197, section 5.1), a column at a time.
ghost use Rattle.std.specs.Prelude.{◌≡◌, length};
ghost use Rattle.aes.specs.Rounds.{add_round_key, cipher, cipher_round, mix_byte, shift_rows, sub_bytes};
ghost use Rattle.aes.specs.SBox.{s_box};
ghost use Rattle.aes.specs.State.{xor_bytes};
ghost use Rattle.aes.specs.Words.{column_of, diagonal, state_bytes, word_bytes};

use crate::mix_table::mixed_s_box;
use crate::s_box::sub_byte;
use crate::state::{State, keyed_diagonal, round_keys, turned_sum};

// A column after a round, from the four columns that ShiftRows takes its bytes from.
fn round_column(a: u32, b: u32, c: u32, d: u32, key: u32) -> u32
    ensures { word_bytes result ≡ xor_bytes (column_of mix_byte (diagonal s_box a b c d)) (word_bytes key) }
{
    let p = mixed_s_box(a.to_le_bytes()[0]);
    let q = mixed_s_box(b.to_le_bytes()[1]);
    let r = mixed_s_box(c.to_le_bytes()[2]);
    let s = mixed_s_box(d.to_le_bytes()[3]);
    turned_sum(p, q, r, s) ^ key
}

// A round but the last.
fn cipher_round(state: State, key: State) -> State
    ensures { state_bytes result ≡ cipher_round (state_bytes key) (state_bytes state) }
{
    let State { c0, c1, c2, c3 } = state;
    State {
        c0: round_column(c0, c1, c2, c3, key.c0),
        c1: round_column(c1, c2, c3, c0, key.c1),
        c2: round_column(c2, c3, c0, c1, key.c2),
        c3: round_column(c3, c0, c1, c2, key.c3),
    }
}

// The last round.
fn last_round(state: State, key: State) -> State
    ensures { state_bytes result ≡ add_round_key (shift_rows (sub_bytes (state_bytes state))) (state_bytes key) }
{
    let State { c0, c1, c2, c3 } = state;
    State {
        c0: keyed_diagonal(sub_byte, c0, c1, c2, c3, key.c0),
        c1: keyed_diagonal(sub_byte, c1, c2, c3, c0, key.c1),
        c2: keyed_diagonal(sub_byte, c2, c3, c0, c1, key.c2),
        c3: keyed_diagonal(sub_byte, c3, c0, c1, c2, key.c3),
    }
}

// Cipher: encrypts a block in place, under the key schedule that `key_expansion` writes.
pub fn cipher(schedule: &[u8], block: &mut [u8])
    requires { (length schedule.now ≡ 176) × (length block.old ≡ 16) }
    ensures { block.new ≡ cipher schedule.now block.old }
{
    let keys = round_keys(schedule);
    let input = State::from_bytes(block.as_array().unwrap());
    let mut state = input.add_round_key(State::from_bytes(&keys[0]));
    for key in &keys[1..10] {
        state = cipher_round(state, State::from_bytes(key));
    }
    let output = last_round(state, State::from_bytes(&keys[10]));
    block.copy_from_slice(&output.to_bytes());
}
