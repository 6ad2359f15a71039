// What a block cipher is, whatever it is made of.
ghost use Rattle.std.specs.Prelude.{◌≡◌, ℕ, List, length};
ghost use Rattle.cipher.specs.Laws.{Sizes, CipherLaws};
ghost use Rattle.word.specs.declared.word.Word.{Word};

use word::Word;

/// A block cipher: two functions E and D of a word and a block, each of which undoes the other.
/// Its calls refuse nothing: whoever calls them brings an area and a block of exactly the lengths.
pub trait Cipher {
    /// The length of a block in bytes, 8 or 16.
    const WIDTH: usize;

    /// The length of a schedule in bytes, 1 to 4,096.
    const SCHEDULE: usize;

    // The two constants, as clauses and laws name them.
    ghost WIDTH: { ℕ };

    ghost SCHEDULE: { ℕ };

    // The schedule that `prepare` makes of a word.
    ghost schedule: { Self → Word → List ℕ };

    ghost E: { Self → Word → List ℕ → List ℕ };

    ghost D: { Self → Word → List ℕ → List ℕ };

    /// Fills the area with the word's schedule.
    fn prepare(&self, word: Word, area: &mut [u8])
        requires { length area.old ≡ SCHEDULE }
        ensures { area.new ≡ schedule self.now word };

    // Two functions, E and D, as the standards have a cipher, and not one with a direction.
    /// Turns the block into E of it, under the word whose schedule the area holds.
    fn encrypt(&self, area: &[u8], block: &mut [u8])
        requires { (length area.now ≡ SCHEDULE) × (length block.old ≡ WIDTH) }
        ensures { (w : Word) → area.now ≡ schedule self.now w → block.new ≡ E self.now w block.old };

    /// Turns the block into D of it, under the word whose schedule the area holds.
    fn decrypt(&self, area: &[u8], block: &mut [u8])
        requires { (length area.now ≡ SCHEDULE) × (length block.old ≡ WIDTH) }
        ensures { (w : Word) → area.now ≡ schedule self.now w → block.new ≡ D self.now w block.old };

    ghost sizes: { Sizes WIDTH SCHEDULE };

    ghost inverts: { (s : Self) → CipherLaws WIDTH SCHEDULE (schedule s) (E s) (D s) };
}
