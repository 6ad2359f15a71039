// Chaining under a profile: once, for every cipher and tail rule.
ghost use Rattle.std.specs.Prelude.{◌≡◌, ◌/◌, ◌≤◌, false, length, take, is_ok};
ghost use Rattle.cipher.specs.Profiles.{meaning, tested};
ghost use Rattle.cipher.specs.Turns.{turned, turned_blocks, turned_tail};
ghost use Rattle.word.specs.declared.word.Word.{Word};

use crate::cipher::Cipher;
use crate::direction::Direction;
use crate::profile::Profile;
use crate::profile::chain::Chain;
use crate::tail::TailRule;

/// The area is not as long as the cipher's schedule.
#[derive(Clone, Copy, Debug, PartialEq, Eq)]
pub struct ScheduleLength {
    pub length: usize,
}

impl<C: Cipher, T: TailRule> Profile<C, T> {
    /// Scrambles or descrambles a payload under the word whose schedule the area holds.
    pub fn process_payload(
        &self,
        direction: Direction,
        area: &[u8],
        payload: &mut [u8],
    ) -> Result<(), ScheduleLength>
        ensures value { result ≡ tested (length area.now) C.Cipher.SCHEDULE }
        ensures refused { is_ok result ≡ false → payload.new ≡ payload.old }
        ensures after { (w : Word) → area.now ≡ C.Cipher.schedule self.now.cipher w → payload.new ≡ turned direction (meaning C.Cipher T.TailRule self.now) w payload.old }
    {
        if area.len() != C::SCHEDULE {
            return Err(ScheduleLength { length: area.len() });
        }
        let mut chain = Chain {
            cipher: &self.cipher,
            schedule: area,
            value: [0; 16],
        };
        chain.start(&self.iv);
        self.turn_blocks(direction, chain, payload);
        Ok(())
    }

    // The blocks of the payload from its start, then its tail under the mask of the last chain value.
    fn turn_blocks(&self, direction: Direction, mut chain: Chain<C>, payload: &mut [u8])
        requires { chain.cipher.now ≡ self.now.cipher }
        ensures { (w : Word) → chain.entry.schedule.now ≡ C.Cipher.schedule self.now.cipher w → payload.new ≡ turned_blocks direction (meaning C.Cipher T.TailRule self.now) w (length payload.old / C.Cipher.WIDTH) (take C.Cipher.WIDTH chain.entry.value) payload.old }
    {
        let whole = payload.len() - payload.len() % C::WIDTH;
        // Starts and not chunks_exact_mut, after which a proof knows only the payload's length.
        for at in (0..whole).step_by(C::WIDTH) {
            chain.turn(direction, &mut payload[at..at + C::WIDTH]);
        }
        let mask = chain.mask();
        self.turn_tail(direction, &mask[..C::WIDTH], &mut payload[whole..]);
    }

    // The bytes after the last whole block.
    fn turn_tail(&self, direction: Direction, mask: &[u8], tail: &mut [u8])
        requires { length tail.old ≤ length mask.now }
        ensures { tail.new ≡ turned_tail direction (T.TailRule.on self.now.tail) (T.TailRule.off self.now.tail) mask.now tail.old }
    {
        match direction {
            Direction::Scramble => self.tail.scramble_tail(mask, tail),
            Direction::Descramble => self.tail.descramble_tail(mask, tail),
        }
    }
}
