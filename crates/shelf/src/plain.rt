// A shelf that is a table and takes a word at any moment.
ghost use Rattle.std.specs.Prelude.{◌≡◌, ℕ, Some, None};
ghost use Rattle.word.specs.declared.parity.Parity.{Parity};
ghost use Rattle.shelf.specs.Rows.{plain_meaning};
ghost use Rattle.std.proofs.Common.{rules};

use crate::faults::ShelfFault;
use crate::shelf::Shelf;
use word::{Moment, Parity, Service, Word};

/// The two words of a service.
#[derive(Clone, Copy, Default)]
struct Row {
    even: Option<Word>,
    odd: Option<Word>,
}

/// One row for each of the 32 services.
#[derive(Drop)]
pub struct PlainShelf {
    rows: [Row; 32],
}

impl PlainShelf {
    /// A shelf that holds nothing.
    pub fn new() -> PlainShelf
        ensures { (k : ℕ) (q : Parity) → (plain_meaning result).held k q ≡ None }
    {
        PlainShelf {
            rows: [Row::default(); 32],
        }
    }
}

impl Shelf for PlainShelf {
    ghost reads = { λ s. (plain_meaning s).reads };

    ghost held = { λ s. (plain_meaning s).held };

    ghost next = { λ s. (plain_meaning s).next };

    ghost next_after = { λ s. Some (λ k moments. 0) };

    ghost low = { Prim.search rules };

    ghost present = { Prim.search rules };

    fn put(
        &mut self,
        service: Service,
        parity: Parity,
        entry: &[u8; 16],
        _moment: Moment,
    ) -> Result<(), ShelfFault> {
        let word = Some(Word::from_bytes(entry));
        let row = &mut self.rows[usize::from(service.number())];
        // A match of its own: a method that lends a side would need a clause on what is written through it.
        match parity {
            Parity::Even => row.even = word,
            Parity::Odd => row.odd = word,
        }
        Ok(())
    }

    fn word(&self, service: Service, parity: Parity) -> Option<Word> {
        let row = self.rows[usize::from(service.number())];
        match parity {
            Parity::Even => row.even,
            Parity::Odd => row.odd,
        }
    }

    fn next_load(&self, _service: Service) -> u64 {
        0
    }

    fn wipe(&mut self, service: Service) {
        self.rows[usize::from(service.number())] = Row::default();
    }
}
