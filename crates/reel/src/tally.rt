// How many packets were read, changed and passed, in all and for each PID.
use packet::{Header, PACKET_LEN};
use std::alloc::{AllocError, Global};
use std::collections::BTreeMap;
use std::fmt;

/// The packets of one PID, or of a whole stream.
#[derive(Clone, Copy, Default)]
pub struct Count {
    pub read: u64,
    changed: u64,
}

impl Count {
    fn add(&mut self, changed: bool) {
        self.read = self.read.saturating_add(1);
        self.changed = self.changed.saturating_add(u64::from(changed));
    }
}

impl fmt::Display for Count {
    fn fmt<W: fmt::Write>(&self, f: &mut fmt::Formatter<W>) -> fmt::Result {
        let Count { read, changed } = *self;
        let passed = read.saturating_sub(changed);
        write!(f, "{read} read, {changed} changed, {passed} passed")
    }
}

#[derive(Drop)]
pub struct Tally {
    pub all: Count,
    pub pids: BTreeMap<u16, Count>,
}

impl Tally {
    pub fn new(heap: Global) -> Tally {
        Tally {
            all: Count::default(),
            pids: BTreeMap::new(heap),
        }
    }

    /// Counts the packets of a batch, from their control bits before and after: those of a changed packet differ.
    pub fn add(&mut self, before: &[u8], after: &[u8]) -> Result<(), AllocError> {
        let (before, _) = before.as_chunks::<PACKET_LEN>();
        let (after, _) = after.as_chunks::<PACKET_LEN>();
        for (was, is) in before.iter().zip(after) {
            let was = header_of(was);
            self.note(was.pid, was.control != header_of(is).control)?;
        }
        Ok(())
    }

    fn note(&mut self, pid: u16, changed: bool) -> Result<(), AllocError> {
        self.all.add(changed);
        let count = self.pids.entry(pid)?.or_insert(Count::default());
        count.add(changed);
        Ok(())
    }
}

fn header_of(packet: &[u8; PACKET_LEN]) -> Header {
    let [a, b, c, d, e, ..] = *packet;
    Header::from_bytes([a, b, c, d, e])
}
