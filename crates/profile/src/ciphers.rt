ghost use Rattle.std.specs.Prelude.{◌≡◌};
ghost use Rattle.aes.specs.Inverse.{inv_cipher};
ghost use Rattle.aes.specs.KeyExpansion.{key_expansion};
ghost use Rattle.aes.specs.Rounds.{cipher as aes_cipher};
ghost use Rattle.des.specs.Cipher.{enciphered, deciphered};
ghost use Rattle.des.specs.Schedule.{key_schedule};
ghost use Rattle.profile.specs.Ciphers.{aes_laws, des_laws};
ghost use Rattle.profile.specs.Keys.{des_key};
ghost use Rattle.word.specs.Words.{word_bytes};
ghost use Rattle.std.proofs.Common.{rules};

use cipher::Cipher;
use word::Word;

/// AES with a key of 128 bits (FIPS 197): the word is the key.
#[derive(Clone, Copy)]
pub struct Aes128;

impl Cipher for Aes128 {
    const WIDTH: usize = aes::BLOCK_LEN;

    const SCHEDULE: usize = aes::SCHEDULE_LEN;

    ghost WIDTH = { 16 };

    ghost SCHEDULE = { 176 };

    ghost schedule = { λ s w. key_expansion (word_bytes w) };

    ghost E = { λ s w b. aes_cipher (key_expansion (word_bytes w)) b };

    ghost D = { λ s w b. inv_cipher (key_expansion (word_bytes w)) b };

    ghost sizes = { Prim.search rules };

    ghost inverts = { λ s. aes_laws };

    fn prepare(&self, word: Word, area: &mut [u8]) {
        aes::key_expansion(&word.to_bytes(), area);
    }

    fn encrypt(&self, area: &[u8], block: &mut [u8]) {
        aes::cipher(area, block);
    }

    fn decrypt(&self, area: &[u8], block: &mut [u8]) {
        aes::inv_cipher(area, block);
    }
}

/// DES (FIPS 46-3): the key is the first eight bytes of the word, without the lowest bit of each.
#[derive(Clone, Copy)]
pub struct Des;

impl Cipher for Des {
    const WIDTH: usize = des::BLOCK_LEN;

    const SCHEDULE: usize = des::SCHEDULE_LEN;

    ghost WIDTH = { 8 };

    ghost SCHEDULE = { 128 };

    ghost schedule = { λ s w. key_schedule (des_key w) };

    ghost E = { λ s w b. enciphered (key_schedule (des_key w)) b };

    ghost D = { λ s w b. deciphered (key_schedule (des_key w)) b };

    ghost sizes = { Prim.search rules };

    ghost inverts = { λ s. des_laws };

    fn prepare(&self, word: Word, area: &mut [u8]) {
        let [a, b, c, d, e, f, g, h, ..] = word.to_bytes();
        des::key_schedule(&[a, b, c, d, e, f, g, h], area);
    }

    fn encrypt(&self, area: &[u8], block: &mut [u8]) {
        des::encipher(area, block);
    }

    fn decrypt(&self, area: &[u8], block: &mut [u8]) {
        des::decipher(area, block);
    }
}
