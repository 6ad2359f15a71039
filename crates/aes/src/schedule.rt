// KeyExpansion (FIPS 197, section 5.2). A word is an array of four bytes.
ghost use Rattle.std.specs.Prelude.{◌≡◌, ◌<◌, ◌≤◌, length};
ghost use Rattle.aes.specs.State.{xor_bytes};
ghost use Rattle.aes.specs.KeyExpansion.{rot_word, sub_word, rcon, addend, next_word, key_expansion};

use crate::s_box::sub_byte;

// The first bytes of Rcon[1] to Rcon[10].
const RCON: [u8; 10] = [0x01, 0x02, 0x04, 0x08, 0x10, 0x20, 0x40, 0x80, 0x1b, 0x36];

// Rcon[j].
fn round_constant(j: usize) -> [u8; 4]
    requires { (0 < j) × (j < 11) }
    ensures { result ≡ rcon j }
{
    [RCON[j - 1], 0, 0, 0]
}

// RotWord.
fn rot_word(word: [u8; 4]) -> [u8; 4]
    ensures { result ≡ rot_word word }
{
    let [a, b, c, d] = word;
    [b, c, d, a]
}

// SubWord.
fn sub_word(word: [u8; 4]) -> [u8; 4]
    ensures { result ≡ sub_word word }
{
    let [a, b, c, d] = word;
    [sub_byte(a), sub_byte(b), sub_byte(c), sub_byte(d)]
}

// The sum of two words.
fn xor_words(a: [u8; 4], b: [u8; 4]) -> [u8; 4]
    ensures { result ≡ xor_bytes a b }
{
    [a[0] ^ b[0], a[1] ^ b[1], a[2] ^ b[2], a[3] ^ b[3]]
}

// What is added to the word four before word `i`, from the word before it.
fn addend_of(i: usize, before: [u8; 4]) -> [u8; 4]
    requires { (4 ≤ i) × (i < 44) }
    ensures { result ≡ addend i before }
{
    if i % 4 == 0 {
        xor_words(sub_word(rot_word(before)), round_constant(i / 4))
    } else {
        before
    }
}

// Word `i` of the key schedule, from the words before it.
fn next_word(schedule: &[u8], i: usize) -> [u8; 4]
    requires { (length schedule.now ≡ 176) × ((4 ≤ i) × (i < 44)) }
    ensures { result ≡ next_word schedule.now i }
{
    let (words, _) = schedule.as_chunks::<4>();
    xor_words(words[i - 4], addend_of(i, words[i - 1]))
}

// KeyExpansion: writes the key schedule of a key, eleven round keys.
pub fn key_expansion(key: &[u8; 16], schedule: &mut [u8])
    requires { length schedule.old ≡ 176 }
    ensures { schedule.new ≡ key_expansion key.now }
{
    schedule[0..16].copy_from_slice(key);
    // Not over chunks_exact_mut: a word is made of earlier ones, and std says nothing of what the slice holds afterwards.
    for i in 4..44 {
        let word = next_word(schedule, i);
        schedule[4 * i..4 * i + 4].copy_from_slice(&word);
    }
}
