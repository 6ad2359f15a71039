ghost use Rattle.restoring.specs.Restoring.{ProfilesRestore, ProfilesLeave};

use cipher::{Cipher, TailRule};

/// States, as its contract, that a packet which a scramble call changed comes out of a descramble call as it was, all
/// 188 bytes, if it meets the same word there: whatever else both batches hold, and wherever the packet stands in the second.
pub fn scrambled_packets_are_restored<C: Cipher, T: TailRule, R: Cipher, U: TailRule>()
    ensures { ProfilesRestore C.Cipher T.TailRule R.Cipher U.TailRule }
{}

/// States, as its contract, that an accepted call leaves every packet that it does not change as it was, and that the
/// two counts that it answers add up to the packets of the batch.
pub fn unchanged_packets_stay<C: Cipher, T: TailRule>()
    ensures { ProfilesLeave C.Cipher T.TailRule }
{}
