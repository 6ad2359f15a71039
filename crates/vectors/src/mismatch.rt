use batch::BatchFault;
use fault::Refusal;
use std::fmt;

/// How an answer of the element differs from the expected one.
#[derive(Clone, Copy)]
pub enum Mismatch {
    /// The first byte that differs.
    Byte(usize),
    /// How many packets were changed and passed, in place of 1 and 0.
    Counts(usize, usize),
    Refused(BatchFault),
}

impl fmt::Display for Mismatch {
    fn fmt<W: fmt::Write>(&self, f: &mut fmt::Formatter<W>) -> fmt::Result {
        match *self {
            Mismatch::Byte(place) => write!(f, "byte {place}"),
            Mismatch::Counts(changed, passed) => write!(f, "changed {changed}, passed {passed}"),
            Mismatch::Refused(fault) => {
                write!(f, "refused with {}", Refusal::from(fault).number)
            }
        }
    }
}
