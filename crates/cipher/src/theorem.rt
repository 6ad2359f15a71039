ghost use Rattle.cipher.specs.Restores.{Restores};

use crate::cipher::Cipher;
use crate::tail::TailRule;

/// States, as its contract, that for every cipher, tail rule, word and initial vector each of
/// scrambling and descrambling gives back the payload that the other changed, at its length.
pub fn descrambling_restores<C: Cipher, T: TailRule>()
    ensures { Restores C.Cipher T.TailRule }
{}
