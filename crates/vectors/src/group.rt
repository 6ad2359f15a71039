ghost use Rattle.std.specs.Prelude.{◌≡◌, ◌+◌, ◌-◌, ◌^◌, min, ◌&&◌, if◌then◌else◌, ◌==◌};

use crate::mismatch::Mismatch;
use crate::subject::Subject;
use crate::vector::{Vector, mismatch};
use batch::Direction;
use std::io;

/// The vectors of one source, and how many of them the element met each way.
#[derive(Drop)]
pub struct Group {
    name: String,
    cases: u64,
    // A count by name for each direction: `finish` prints each under its name, so a pair by `Direction` is no plainer.
    scrambled: u64,
    descrambled: u64,
}

impl Group {
    pub fn new(name: String) -> Group
        ensures { result ≡ record { name = name; cases = 0; scrambled = 0; descrambled = 0 } }
    {
        Group {
            name,
            cases: 0,
            scrambled: 0,
            descrambled: 0,
        }
    }

    /// Tries a vector both ways, and prints each mismatch.
    pub fn try_vector<S: Subject>(
        &mut self,
        rt: &HostRuntime,
        subject: &S,
        vector: &Vector,
    ) -> anyhow::Result<()> {
        let heap = rt.alloc();
        let word = vector.word;
        let clear = vector.clear.as_slice();
        let noise = vector.scrambled.as_slice();
        let scrambled = mismatch(heap, subject, Direction::Scramble, word, clear, noise)?;
        let descrambled = mismatch(heap, subject, Direction::Descramble, word, noise, clear)?;
        self.print_mismatch(rt, "scrambled", scrambled)?;
        self.print_mismatch(rt, "descrambled", descrambled)?;
        self.count(scrambled.is_none(), descrambled.is_none());
        Ok(())
    }

    fn print_mismatch(
        &self,
        rt: &HostRuntime,
        way: &str,
        found: Option<Mismatch>,
    ) -> io::Result<()> {
        let Some(mismatch) = found else {
            return Ok(());
        };
        let name = self.name.as_str();
        let case = self.cases;
        println!(rt; "{name}: case {case}, {way}: {mismatch}")
    }

    // One more case, and whether it was met each way.
    fn count(&mut self, scrambled: bool, descrambled: bool)
        ensures { self.new ≡ record { name = self.old.name; cases = min (self.old.cases + 1) (2 ^ 64 - 1); scrambled = (if scrambled then min (self.old.scrambled + 1) (2 ^ 64 - 1) else self.old.scrambled); descrambled = (if descrambled then min (self.old.descrambled + 1) (2 ^ 64 - 1) else self.old.descrambled) } }
    {
        self.cases = self.cases.saturating_add(1);
        self.scrambled = self.scrambled.saturating_add(u64::from(scrambled));
        self.descrambled = self.descrambled.saturating_add(u64::from(descrambled));
    }

    // Whether every case was met both ways.
    fn is_met(&self) -> bool
        ensures { result ≡ (self.now.scrambled == self.now.cases && self.now.descrambled == self.now.cases) }
    {
        self.scrambled == self.cases && self.descrambled == self.cases
    }

    /// Prints the counts, and answers whether every case was met both ways.
    pub fn finish(&self, rt: &HostRuntime) -> io::Result<bool> {
        let name = self.name.as_str();
        let cases = self.cases;
        let scrambled = self.scrambled;
        let descrambled = self.descrambled;
        println!(rt;
            "{name}: cases {cases}, scrambled as expected {scrambled}, descrambled as expected {descrambled}"
        )?;
        Ok(self.is_met())
    }
}
