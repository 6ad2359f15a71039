// A line of the log.
ghost use Rattle.std.specs.Prelude.{◌≡◌, IfOk, MatchResult};
ghost use Rattle.log_file.specs.Columns.{Spelled};
ghost use Rattle.log_file.specs.Lines.{is_for};

use crate::columns::{further_pids_of, moment_of, service_of};
use crate::faults::{Cause, LogFault};
use entry::enter_word;
use std::alloc::Global;
use word::{Moment, Parity, Service};

/// How the words of a log are given: as they are, or encrypted under a receiver's identifier.
#[derive(Clone, Copy, Debug, PartialEq, Eq)]
pub enum Kind {
    Word,
    Encrypted,
}

/// A word that was loaded, with the PIDs that were joined for it. It holds a key, so nothing prints it.
#[derive(Drop)]
pub struct LogLine {
    /// Where the line stands in the log, from 1.
    pub number: usize,
    pub service: Service,
    pub pids: Vec<u16>,
    pub parity: Parity,
    pub kind: Kind,
    /// What was put on the shelf.
    pub entry: [u8; 16],
    pub moment: Moment,
}

impl LogLine {
    /// Whether the word is of that service and parity.
    pub(crate) fn is_for(&self, service: Service, parity: Parity) -> bool
        ensures { result ≡ is_for service.number parity self.now }
    {
        self.service == service && self.parity == parity
    }
}

/// The line of that number.
pub(crate) fn parse(heap: Global, number: usize, text: &str) -> Result<LogLine, LogFault>
    ensures { MatchResult result (λ line. line.number ≡ number) (λ f. f.line ≡ number) }
{
    from_text(heap, number, text).map_err(|cause| LogFault {
        line: number,
        cause,
    })
}

fn from_text(heap: Global, number: usize, text: &str) -> Result<LogLine, Cause>
    ensures { IfOk result (λ line. line.number ≡ number) }
{
    let columns: Vec<&str> = text.split_ascii_whitespace().collect(heap)?;
    Columns::try_from(columns.as_slice())?.line(heap, number)
}

// The nine columns of a line, as they stand in the text.
#[derive(Clone, Copy)]
struct Columns<'a> {
    service: &'a str,
    pids: &'a str,
    parity: &'a str,
    kind: &'a str,
    first: &'a str,
    second: &'a str,
    third: &'a str,
    fourth: &'a str,
    moment: &'a str,
}

impl<'a> TryFrom<&[&'a str]> for Columns<'a> {
    type Error = Cause;

    fn try_from(columns: &[&'a str]) -> Result<Columns<'a>, Cause> {
        match columns {
            [
                service,
                pids,
                parity,
                kind,
                first,
                second,
                third,
                fourth,
                moment,
            ] => Ok(Columns {
                service,
                pids,
                parity,
                kind,
                first,
                second,
                third,
                fourth,
                moment,
            }),
            _ => Err(Cause::Columns),
        }
    }
}

impl Columns<'_> {
    // The line that they spell; the first column that is wrong decides.
    fn line(self, heap: Global, number: usize) -> Result<LogLine, Cause>
        ensures number { IfOk result (λ line. line.number ≡ number) }
        ensures spelled { IfOk result (λ line. Spelled self.entry.service.now self.entry.parity.now self.entry.kind.now self.entry.first.now self.entry.second.now self.entry.third.now self.entry.fourth.now self.entry.moment.now line) }
    {
        Ok(LogLine {
            number,
            service: service_of(self.service)?,
            pids: further_pids_of(heap, self.pids)?,
            parity: self.parity.parse()?,
            kind: self.kind.parse()?,
            entry: enter_word(self.first, self.second, self.third, self.fourth)?.to_bytes(),
            moment: moment_of(self.moment)?,
        })
    }
}
