// What becomes of the bytes of a payload after its last whole block.
ghost use Rattle.std.specs.Prelude.{◌≡◌, ℕ, ◌≤◌, List, length};
ghost use Rattle.cipher.specs.Bytes.{xors};
ghost use Rattle.cipher.specs.Laws.{TailLaws};
ghost use Rattle.std.proofs.Common.{rules};
ghost use Rattle.cipher.specs.Xors.{length_xors, xors_back};

use crate::bytes::xor_into;

/// A tail rule: two functions of a mask and a tail, on to scramble and off to descramble.
/// Both keep the tail's length, and each undoes the other under the same mask. Its calls refuse nothing.
pub trait TailRule {
    ghost on: { Self → List ℕ → List ℕ → List ℕ };

    ghost off: { Self → List ℕ → List ℕ → List ℕ };

    // Two functions, on and off, as docs/profiles.md has a tail rule, and not one with a direction.
    fn scramble_tail(&self, mask: &[u8], tail: &mut [u8])
        requires { length tail.old ≤ length mask.now }
        ensures { tail.new ≡ on self.now mask.now tail.old };

    fn descramble_tail(&self, mask: &[u8], tail: &mut [u8])
        requires { length tail.old ≤ length mask.now }
        ensures { tail.new ≡ off self.now mask.now tail.old };

    ghost inverts: { (s : Self) → TailLaws (on s) (off s) };
}

/// The clear rule: the tail stays as it is.
#[derive(Clone, Copy)]
pub struct ClearTail;

impl TailRule for ClearTail {
    ghost on = { λ s mask tail. tail };

    ghost off = { λ s mask tail. tail };

    ghost inverts = { Prim.search rules };

    fn scramble_tail(&self, _mask: &[u8], _tail: &mut [u8]) {}

    fn descramble_tail(&self, _mask: &[u8], _tail: &mut [u8]) {}
}

/// The masked rule: the tail XOR the leftmost bytes of the mask.
#[derive(Clone, Copy)]
pub struct MaskedTail;

impl TailRule for MaskedTail {
    ghost on = { λ s mask tail. xors tail mask };

    ghost off = { λ s mask tail. xors tail mask };

    ghost inverts = { λ s. record {
      on_long = λ mask tail. length_xors tail mask;
      off_long = λ mask tail. length_xors tail mask;
      off_on = λ mask tail h b. xors_back tail mask;
      on_off = λ mask tail h b. xors_back tail mask;
    } };

    fn scramble_tail(&self, mask: &[u8], tail: &mut [u8]) {
        xor_into(tail, mask);
    }

    fn descramble_tail(&self, mask: &[u8], tail: &mut [u8]) {
        self.scramble_tail(mask, tail);
    }
}
