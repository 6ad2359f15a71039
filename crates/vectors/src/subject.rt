// The parts of the element that are held to vectors.
ghost use Rattle.std.specs.Prelude.{◌≡◌, ℕ, List, Ok, Result};
ghost use Rattle.batch.specs.Batches.{payload_after};
ghost use Rattle.cipher.specs.declared.direction.Direction.{Direction};
ghost use Rattle.cipher.specs.Profiles.{meaning};
ghost use Rattle.word.specs.declared.word.Word.{Word};
ghost use Rattle.vectors.specs.Keyring.{one_word};
ghost use Rattle.vectors.specs.Subjects.{block_turned, one_changed, packet_answer, packet_turned};
ghost use Rattle.vectors.specs.declared.mismatch.Mismatch.{Mismatch};

use crate::keyring::OneWord;
use crate::mismatch::Mismatch;
use batch::{BatchFault, Direction};
use cipher::{Cipher, Profile, TailRule};
use word::{Parity, Word};

// The longest schedule that a cipher may have. A turn cuts an array of it to length: no array's length may hang
// on a type parameter, a caller is asked for no area, and for want of memory a turn has no answer.
const LONGEST_SCHEDULE: usize = 4096;

/// What scrambles bytes under a word, and descrambles them.
pub trait Subject {
    // What the bytes become.
    ghost turned: { Self → Direction → Word → List ℕ → List ℕ };

    // What is wrong, whatever they become.
    ghost objection: { Self → Direction → Word → List ℕ → Result (Unit {0}) Mismatch };

    fn turn(&self, direction: Direction, word: Word, bytes: &mut [u8]) -> Result<(), Mismatch>
        ensures value { result ≡ objection self.now direction word bytes.old }
        ensures after { bytes.new ≡ turned self.now direction word bytes.old };
}

/// A block of a cipher; bytes of another length stay as they are.
#[derive(Drop)]
pub struct Block<C>(pub C);

impl<C: Cipher> Subject for Block<C> {
    ghost turned = { λ s d w b. block_turned C.Cipher.WIDTH (C.Cipher.E s.0 w) (C.Cipher.D s.0 w) d b };

    ghost objection = { λ s d w b. Ok tt };

    fn turn(&self, direction: Direction, word: Word, bytes: &mut [u8]) -> Result<(), Mismatch> {
        if bytes.len() != C::WIDTH {
            return Ok(());
        }
        let mut room = [0; LONGEST_SCHEDULE];
        let area = &mut room[0..C::SCHEDULE];
        self.0.prepare(word, area);
        match direction {
            Direction::Scramble => self.0.encrypt(area, bytes),
            Direction::Descramble => self.0.decrypt(area, bytes),
        }
        Ok(())
    }
}

/// A payload under a profile.
#[derive(Drop)]
pub struct Payload<C, T>(pub Profile<C, T>);

impl<C: Cipher, T: TailRule> Subject for Payload<C, T> {
    ghost turned = { λ s d w b. payload_after d (meaning C.Cipher T.TailRule s.0) w b };

    ghost objection = { λ s d w b. Ok tt };

    fn turn(&self, direction: Direction, word: Word, bytes: &mut [u8]) -> Result<(), Mismatch> {
        let mut room = [0; LONGEST_SCHEDULE];
        let area = &mut room[0..C::SCHEDULE];
        self.0.cipher.prepare(word, area);
        // The area is as long as a schedule, so it is not refused.
        let _ = self.0.process_payload(direction, area, bytes);
        Ok(())
    }
}

/// A batch of one packet under a profile: its PID is joined, and the word is held under one parity.
#[derive(Drop)]
pub struct Packet<'a, C, T> {
    pub profile: &'a Profile<C, T>,
    pub pid: u16,
    pub parity: Parity,
}

impl<C: Cipher, T: TailRule> Subject for Packet<'_, C, T> {
    ghost turned = { λ s d w b. packet_turned d (meaning C.Cipher T.TailRule s.profile.now) (one_word w s.pid s.parity) b };

    ghost objection = { λ s d w b. packet_answer d (meaning C.Cipher T.TailRule s.profile.now) (one_word w s.pid s.parity) b };

    fn turn(&self, direction: Direction, word: Word, bytes: &mut [u8]) -> Result<(), Mismatch> {
        let keys = OneWord {
            word,
            pid: self.pid,
            parity: self.parity,
        };
        let mut room = [0; LONGEST_SCHEDULE];
        let area = &mut room[0..C::SCHEDULE];
        one_changed(batch::process(direction, self.profile, &keys, area, bytes))
    }
}

// Whether one packet was changed and none passed.
fn one_changed(answer: Result<(usize, usize), BatchFault>) -> Result<(), Mismatch>
    ensures { result ≡ one_changed answer }
{
    match answer {
        Ok((1, 0)) => Ok(()),
        Ok((changed, passed)) => Err(Mismatch::Counts(changed, passed)),
        Err(fault) => Err(Mismatch::Refused(fault)),
    }
}
