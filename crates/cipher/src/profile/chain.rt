// Cipher block chaining, a block at a time.
ghost use Rattle.std.specs.Prelude.{◌≡◌, ◌<◌, ◌≤◌, length, take};
ghost use Rattle.cipher.specs.Turns.{turned_block, next_value};
ghost use Rattle.word.specs.declared.word.Word.{Word};

use crate::bytes::xor_into;
use crate::cipher::Cipher;
use crate::direction::Direction;

/// A cipher, the schedule of a word, and the chain value: the first bytes of `value`, as many as a block has.
#[derive(Drop)]
pub struct Chain<'a, C: Cipher> {
    pub cipher: &'a C,
    pub schedule: &'a [u8],
    // 16 is the widest block: no array has a length that hangs on a type parameter.
    pub value: [u8; 16],
    ghost width: { (0 < C.Cipher.WIDTH) × (C.Cipher.WIDTH ≤ 16) },
    ghost schedule_long: { length schedule.now ≡ C.Cipher.SCHEDULE },
    ghost value_long: { length value ≡ 16 },
}

impl<'a, C: Cipher> Chain<'a, C> {
    /// The chain value starts as the initial vector in every payload, whatever stood there.
    pub fn start(&mut self, iv: &[u8; 16])
        ensures value { self.new.value ≡ iv.now }
        ensures keeps { (self.new.cipher ≡ self.old.cipher) × (self.new.schedule ≡ self.old.schedule) }
    {
        self.value = *iv;
    }

    /// Scrambles or descrambles the next block; the scrambled block is the next chain value.
    pub fn turn(&mut self, direction: Direction, block: &mut [u8])
        requires { length block.old ≡ C.Cipher.WIDTH }
        ensures block { (w : Word) → self.old.schedule.now ≡ C.Cipher.schedule self.old.cipher.now w → block.new ≡ turned_block direction (C.Cipher.E self.old.cipher.now w) (C.Cipher.D self.old.cipher.now w) (take C.Cipher.WIDTH self.old.value) block.old }
        ensures value { take C.Cipher.WIDTH self.new.value ≡ next_value direction block.old block.new }
        ensures keeps { (self.new.cipher ≡ self.old.cipher) × (self.new.schedule ≡ self.old.schedule) }
    {
        match direction {
            Direction::Scramble => {
                xor_into(block, &self.value[..C::WIDTH]);
                self.cipher.encrypt(self.schedule, block);
                self.value = value_of(block);
            }
            Direction::Descramble => {
                let next = value_of(block);
                self.cipher.decrypt(self.schedule, block);
                xor_into(block, &self.value[..C::WIDTH]);
                self.value = next;
            }
        }
    }

    /// The mask of the tail, in both directions: E of the last chain value.
    pub fn mask(&self) -> [u8; 16]
        ensures long { length result ≡ 16 }
        ensures value { (w : Word) → self.now.schedule.now ≡ C.Cipher.schedule self.now.cipher.now w → take C.Cipher.WIDTH result ≡ C.Cipher.E self.now.cipher.now w (take C.Cipher.WIDTH self.now.value) }
    {
        let mut mask = self.value;
        self.cipher.encrypt(self.schedule, &mut mask[..C::WIDTH]);
        mask
    }
}

// A chain value, from the bytes of a block.
fn value_of(block: &[u8]) -> [u8; 16]
    requires { length block.now ≤ 16 }
    ensures value { take (length block.now) result ≡ block.now }
    ensures long { length result ≡ 16 }
{
    let mut value = [0; 16];
    value[..block.len()].copy_from_slice(block);
    value
}
