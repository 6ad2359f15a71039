// What is to become of a packet, by its header.
ghost use Rattle.std.specs.Prelude.{◌≡◌, length};
ghost use Rattle.batch.specs.Plan.{keys_of, with_word, scramble_plan, descramble_plan, plan_for};
ghost use Rattle.batch.specs.declared.plan.Objection.TheVariants.{BadHeader};

use crate::keyring::Keyring;
use cipher::Direction;
use packet::{Header, HeaderFault, SYNC_BYTE, ScramblingControl};
use word::{Parity, Service, Word};

/// How a packet is to be changed: under which word, and from which byte on.
#[derive(Clone, Copy)]
pub struct Change {
    pub word: Word,
    pub parity: Parity,
    pub start: usize,
}

/// Why a packet is refused, wherever it stands in its batch.
#[derive(Clone, Copy, Debug, PartialEq, Eq)]
pub enum Objection {
    BadHeader(HeaderFault),
    NoWord,
}

impl From<HeaderFault> for Objection {
    ghost from_gives = { λ f r. r ≡ BadHeader f };

    fn from(fault: HeaderFault) -> Objection {
        Objection::BadHeader(fault)
    }
}

// The payload of a joined packet: where it starts, its service, and who holds the words.
#[derive_where(Clone, Copy)]
struct Payload<'a, K> {
    keys: &'a K,
    service: Service,
    start: usize,
}

impl<K: Keyring> Payload<'_, K> {
    // The change under the word that is held for a parity.
    fn under(&self, parity: Parity) -> Result<Option<Change>, Objection>
        ensures { result ≡ with_word parity self.now.start (K.Keyring.held self.now.keys.now self.now.service.number parity) }
    {
        let word = self
            .keys
            .word(self.service, parity)
            .ok_or(Objection::NoWord)?;
        Ok(Some(Change {
            word,
            parity,
            start: self.start,
        }))
    }

    fn plan_scramble(&self, control: ScramblingControl) -> Result<Option<Change>, Objection>
        ensures { result ≡ scramble_plan (keys_of K.Keyring self.now.keys.now) self.now.service.number control self.now.start }
    {
        match control {
            ScramblingControl::Clear => {
                let parity = self
                    .keys
                    .picked_parity(self.service)
                    .ok_or(Objection::NoWord)?;
                self.under(parity)
            }
            ScramblingControl::Reserved | ScramblingControl::Even | ScramblingControl::Odd => {
                Err(Objection::BadHeader(HeaderFault::Scrambled))
            }
        }
    }

    fn plan_descramble(&self, control: ScramblingControl) -> Result<Option<Change>, Objection>
        ensures { result ≡ descramble_plan (keys_of K.Keyring self.now.keys.now) self.now.service.number control self.now.start }
    {
        match control {
            ScramblingControl::Clear => Ok(None),
            ScramblingControl::Reserved => Err(Objection::BadHeader(HeaderFault::ReservedControl)),
            ScramblingControl::Even => self.under(Parity::Even),
            ScramblingControl::Odd => self.under(Parity::Odd),
        }
    }
}

// What is to become of a packet: refused, passed, or changed.
pub(crate) fn plan<K: Keyring>(
    direction: Direction,
    keys: &K,
    header: Header,
) -> Result<Option<Change>, Objection>
    ensures { result ≡ plan_for direction (keys_of K.Keyring keys.now) header }
{
    if header.sync != SYNC_BYTE {
        return Err(Objection::BadHeader(HeaderFault::Sync));
    }
    if header.error {
        return Ok(None);
    }
    let Some(service) = keys.service_of(header.pid) else {
        return Ok(None);
    };
    let Some(start) = header.payload_start()? else {
        return Ok(None);
    };
    let payload = Payload {
        keys,
        service,
        start,
    };
    match direction {
        Direction::Scramble => payload.plan_scramble(header.control),
        Direction::Descramble => payload.plan_descramble(header.control),
    }
}
