// The two passes over a batch: the first tests every packet, the second changes them.
ghost use Rattle.std.specs.Prelude.{◌≡◌, ℕ, ◌+◌, ◌*◌, ◌/◌, ◌%◌, ◌<◌, ◌≤◌, Bool, ◌&&◌, length, replicate, is_ok, if◌then◌else◌, nat_eq};
ghost use Rattle.cipher.specs.Profiles.{meaning};
ghost use Rattle.packet.specs.Header.{header_of};
ghost use Rattle.batch.specs.Batches.{control_after, changed, batch_after, objection_at, batch_answer, Batched};
ghost use Rattle.batch.specs.Packets.{packets, first_fault, changes, followed, changed_count, passed_count};
ghost use Rattle.batch.specs.Plan.{keys_of, plan_of};
ghost use Rattle.batch.specs.Prepared.{Prepared};
ghost use Rattle.word.specs.declared.word.Word.{Word};

use crate::faults::BatchFault;
use crate::guard::KeyArea;
use crate::keyring::Keyring;
use crate::plan::{Change, Objection, plan};
use cipher::{Cipher, Direction, Profile, TailRule, all_bytes};
use packet::{Header, PACKET_LEN, PacketFault, ScramblingControl, set_control};
use word::{Parity, Word};

/// The most bytes of a batch, 64 packets.
pub const MAX_BATCH_LEN: usize = 64 * PACKET_LEN;

/// Scrambles the joined packets of a batch, each under the word of its service's picked parity,
/// or descrambles them, each under the word of the parity that it shows.
/// Answers how many packets were changed, and how many passed.
pub fn process<C: Cipher, T: TailRule, K: Keyring>(
    direction: Direction,
    profile: &Profile<C, T>,
    keys: &K,
    area: &mut [u8],
    batch: &mut [u8],
) -> Result<(usize, usize), BatchFault>
    ensures { Batched direction (meaning C.Cipher T.TailRule profile.now) (keys_of K.Keyring keys.now) area.old batch.old result area.new batch.new }
{
    all_bytes(batch);
    Pass {
        direction,
        profile,
        keys,
    }
    .run(area, batch)
}

// Which way packets go, under which profile, and under whose words.
#[derive_where(Clone, Copy)]
struct Pass<'a, C, T, K> {
    direction: Direction,
    profile: &'a Profile<C, T>,
    keys: &'a K,
}

impl<C: Cipher, T: TailRule, K: Keyring> Pass<'_, C, T, K> {
    // The tests of area and batch, then both passes. The guard wipes the area on every way out but the first.
    fn run(&self, area: &mut [u8], batch: &mut [u8]) -> Result<(usize, usize), BatchFault>
        ensures answer { result ≡ batch_answer self.now.direction (meaning C.Cipher T.TailRule self.now.profile.now) (keys_of K.Keyring self.now.keys.now) (length area.old) batch.old }
        ensures after { batch.new ≡ (if is_ok result then batch_after self.now.direction (meaning C.Cipher T.TailRule self.now.profile.now) (keys_of K.Keyring self.now.keys.now) batch.old else batch.old) }
        ensures wiped { area.new ≡ (if nat_eq (length area.old) C.Cipher.SCHEDULE then replicate (length area.old) 0 else area.old) }
    {
        if area.len() != C::SCHEDULE {
            return Err(BatchFault::KeyArea { length: area.len() });
        }
        let guard = KeyArea { bytes: area };
        if batch.len() % PACKET_LEN != 0 || batch.len() > MAX_BATCH_LEN {
            return Err(BatchFault::BatchLength {
                length: batch.len(),
            });
        }
        self.test_all(batch)?;
        let counts = self.change_all(guard.bytes, batch);
        Ok(counts)
    }

    // The fault of the first packet that is refused.
    fn test_all(&self, batch: &[u8]) -> Result<(), BatchFault>
        ensures { result ≡ first_fault (plan_of self.now.direction (keys_of K.Keyring self.now.keys.now)) objection_at 0 (packets batch.now) }
    {
        let (packets, _) = batch.as_chunks::<PACKET_LEN>();
        for (i, packet) in packets.iter().enumerate() {
            if let Err(objection) = plan(self.direction, self.keys, header_of(packet)) {
                return Err(objection_at(i, objection));
            }
        }
        Ok(())
    }

    // Does to every packet what its plan says, and counts those changed and those passed.
    fn change_all(&self, area: &mut [u8], batch: &mut [u8]) -> (usize, usize)
        requires long { length area.old ≡ C.Cipher.SCHEDULE }
        requires whole { length batch.old % 188 ≡ 0 }
        ensures after { batch.new ≡ batch_after self.now.direction (meaning C.Cipher T.TailRule self.now.profile.now) (keys_of K.Keyring self.now.keys.now) batch.old }
        ensures value { result ≡ (changed_count (plan_of self.now.direction (keys_of K.Keyring self.now.keys.now)) (packets batch.old), passed_count (plan_of self.now.direction (keys_of K.Keyring self.now.keys.now)) (packets batch.old)) }
    {
        let mut prepared = None;
        let mut changed = 0;
        let mut passed = 0;
        // By place: of what is written through `chunks_exact_mut` and `as_chunks_mut` the proof knows nothing.
        for i in 0..batch.len() / PACKET_LEN {
            let at = PACKET_LEN * i;
            if self.follow(&mut prepared, area, &mut batch[at..at + PACKET_LEN]) {
                changed += 1;
            } else {
                passed += 1;
            }
        }
        (changed, passed)
    }

    // Does to a packet what its plan says, and answers whether that changed it.
    fn follow(&self, prepared: &mut Option<Word>, area: &mut [u8], packet: &mut [u8]) -> bool
        requires long { length area.old ≡ C.Cipher.SCHEDULE }
        requires prepared { Prepared (C.Cipher.schedule self.now.profile.now.cipher) prepared.old area.old }
        requires size { length packet.old ≡ 188 }
        ensures after { packet.new ≡ followed (plan_of self.now.direction (keys_of K.Keyring self.now.keys.now)) (changed self.now.direction (meaning C.Cipher T.TailRule self.now.profile.now)) packet.old }
        ensures value { result ≡ changes (plan_of self.now.direction (keys_of K.Keyring self.now.keys.now) packet.old) }
        ensures prepared { Prepared (C.Cipher.schedule self.now.profile.now.cipher) prepared.new area.new }
    {
        let Ok(Some(how)) = plan(self.direction, self.keys, header_of(packet)) else {
            return false;
        };
        // The schedule of the word may be in the area already.
        if *prepared != Some(how.word) {
            self.profile.cipher.prepare(how.word, area);
            *prepared = Some(how.word);
        }
        self.change(how, area, packet);
        true
    }

    // Changes a packet under the word whose schedule the area holds.
    fn change(&self, how: Change, area: &[u8], packet: &mut [u8])
        requires size { length packet.old ≡ 188 }
        requires low { 4 ≤ how.start }
        requires high { how.start ≤ 188 }
        requires prepared { area.now ≡ C.Cipher.schedule self.now.profile.now.cipher how.word }
        ensures { packet.new ≡ changed self.now.direction (meaning C.Cipher T.TailRule self.now.profile.now) how packet.old }
    {
        set_control(packet, control_after(self.direction, how.parity));
        // The area is as long as a schedule, so it is not refused.
        let _ = self
            .profile
            .process_payload(self.direction, area, &mut packet[how.start..]);
    }
}

// The header of a packet.
fn header_of(packet: &[u8]) -> Header
    requires { 5 ≤ length packet.now }
    ensures { result ≡ header_of packet.now }
{
    Header::from_bytes(*packet.first_chunk().unwrap())
}

// The objection to the packet at that place of the batch.
fn objection_at(packet: usize, objection: Objection) -> BatchFault
    ensures { result ≡ objection_at packet objection }
{
    match objection {
        Objection::BadHeader(cause) => BatchFault::Packet(PacketFault { packet, cause }),
        Objection::NoWord => BatchFault::NoWord { packet },
    }
}

// The control bits of a packet after it was changed.
fn control_after(direction: Direction, parity: Parity) -> ScramblingControl
    ensures { result ≡ control_after direction parity }
{
    match (direction, parity) {
        (Direction::Scramble, Parity::Even) => ScramblingControl::Even,
        (Direction::Scramble, Parity::Odd) => ScramblingControl::Odd,
        (Direction::Descramble, _) => ScramblingControl::Clear,
    }
}
