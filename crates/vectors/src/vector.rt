ghost use Rattle.std.specs.Prelude.{◌≡◌, ◌==◌, not, IfOk};
ghost use Rattle.std.specs.List.{position_from, zip};
ghost use Rattle.vectors.specs.Vectors.{differs_from, mismatch_of};

use crate::mismatch::Mismatch;
use crate::subject::Subject;
use batch::Direction;
use std::alloc::{AllocError, Global};
use word::Word;

/// Clear bytes and what they become under a word, by other software.
#[derive(Drop)]
pub struct Vector {
    pub word: Word,
    pub clear: Vec<u8>,
    pub scrambled: Vec<u8>,
}

/// How what the subject makes of the bytes before differs from the bytes after, if it does.
pub fn mismatch<S: Subject>(
    heap: Global,
    subject: &S,
    direction: Direction,
    word: Word,
    before: &[u8],
    after: &[u8],
) -> Result<Option<Mismatch>, AllocError>
    ensures { IfOk result (λ m. m ≡ mismatch_of (S.Subject.objection subject.now direction word before.now) (differs_from 0 (S.Subject.turned subject.now direction word before.now) after.now)) }
{
    let mut bytes = before.to_vec(heap)?;
    let answer = subject.turn(direction, word, bytes.as_mut_slice());
    Ok(mismatch_of(answer, first_difference(bytes.as_slice(), after)))
}

fn mismatch_of(answer: Result<(), Mismatch>, place: Option<usize>) -> Option<Mismatch>
    ensures { result ≡ mismatch_of answer place }
{
    answer.err().or(place.map(Mismatch::Byte))
}

// The first place at which two lists of bytes differ, which may be the end of the shorter.
fn first_difference(found: &[u8], expected: &[u8]) -> Option<usize>
    ensures { result ≡ differs_from 0 found.now expected.now }
{
    let shorter = found.len().min(expected.len());
    let ends = (found.len() != expected.len()).then_some(shorter);
    first_unequal(found, expected).or(ends)
}

// The first place at which both have a byte, and these differ.
fn first_unequal(found: &[u8], expected: &[u8]) -> Option<usize>
    ensures { result ≡ position_from (λ p. not (p.0 == p.1)) 0 (zip found.now expected.now) }
{
    found.iter().zip(expected).position(|(a, b)| a != b)
}
