ghost use Rattle.std.specs.Prelude.{◌≡◌, length, replicate, if◌then◌else◌, nat_eq};
ghost use Rattle.batch.specs.Batches.{batch_answer};
ghost use Rattle.batch.specs.Plan.{keys_of};
ghost use Rattle.cipher.specs.declared.direction.Direction.TheVariants.{Scramble};
ghost use Rattle.cipher.specs.Profiles.{meaning};

use batch::{BatchFault, Direction, Keyring, process};
use cipher::{Cipher, Profile, TailRule, all_bytes};

/// Scrambles a batch and descrambles it again with the same keyring, which leaves it as it was.
/// Answers what scrambling it answers: the second call refuses nothing that the first accepts.
pub fn rehearse<C: Cipher, T: TailRule, K: Keyring>(
    profile: &Profile<C, T>,
    keys: &K,
    area: &mut [u8],
    batch: &mut [u8],
) -> Result<(usize, usize), BatchFault>
    ensures answer { result ≡ batch_answer Scramble (meaning C.Cipher T.TailRule profile.now) (keys_of K.Keyring keys.now) (length area.old) batch.old }
    ensures same { batch.new ≡ batch.old }
    ensures wiped { area.new ≡ (if nat_eq (length area.old) C.Cipher.SCHEDULE then replicate (length area.old) 0 else area.old) }
{
    all_bytes(&profile.iv);
    let counts = process(Direction::Scramble, profile, keys, area, batch)?;
    process(Direction::Descramble, profile, keys, area, batch)?;
    Ok(counts)
}
