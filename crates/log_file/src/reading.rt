// A log as a whole.
ghost use Rattle.std.specs.Prelude.{◌≡◌, ◌<◌, true, false, [], ◌∷◌, ◌++◌, is_some, IfSome, IfOk, IfErr, if◌then◌else◌, Some, None, vec_len, OnOk, slice_index_or};
ghost use Rattle.std.specs.List.{AllByRecursion};
ghost use Rattle.log_file.specs.Lines.{counted, is_for, goes_with, misfit_cause, Sound};

use crate::faults::{Cause, LogFault};
use crate::line;
use crate::line::{Kind, LogLine};
use std::alloc::Global;
use thiserror::Error;
use word::{Moment, Parity, Service};

/// The lines that count, in their order, and how their words are given.
#[derive(Drop)]
pub struct Log {
    pub kind: Kind,
    pub lines: Vec<LogLine>,
}

impl Log {
    /// The first line, if the words are encrypted and no identifier is given for them, or the other way round.
    // An Option, and no Result: it is what callers outside have, and `misfit_cause` answers as an Option too.
    pub fn misfit(&self, given: bool) -> Option<LogFault>
        ensures fits { misfit_cause self.now.kind given ≡ None → result ≡ None }
        ensures cause { IfSome result (λ f. Some f.cause ≡ misfit_cause self.now.kind given) }
        ensures line { IfSome result (λ f. (d : LogLine) → f.line ≡ (slice_index_or self.now.lines.items 0 d).number) }
        ensures found { (c : Cause) → 0 < vec_len self.now.lines → misfit_cause self.now.kind given ≡ Some c → is_some result ≡ true }
    {
        let cause = match (self.kind, given) {
            (Kind::Encrypted, false) => Cause::NoIdentifier,
            (Kind::Word, true) => Cause::IdleIdentifier,
            (Kind::Word, false) | (Kind::Encrypted, true) => return None,
        };
        let line = self.lines.first()?.number;
        Some(LogFault { line, cause })
    }
}

/// Why a text is no log.
#[derive(Clone, Copy, Debug, Error)]
pub enum BadLog {
    #[error(transparent)]
    Line(#[from] LogFault),
    #[error("the log has no line to load")]
    NoLine,
}

// A log that is being read.
// `Sound` stands in the clauses of each method: a ghost field would need a proof that its recursive facts have one proof each.
#[derive(Drop)]
struct Reading {
    at: Option<Moment>,
    kind: Option<Kind>,
    lines: Vec<LogLine>,
}

impl Reading {
    // Takes the next line, if it goes with those before it and its moment counts.
    fn take(&mut self, line: LogLine) -> Result<(), LogFault>
        requires { Sound self.old.at self.old.kind self.old.lines.items }
        ensures sound { Sound self.old.at self.new.kind self.new.lines.items }
        ensures same { self.new.at ≡ self.old.at }
        ensures fault { IfErr result (λ f. f.line ≡ line.number) }
    {
        let number = line.number;
        self.admit(line).map_err(|cause| LogFault {
            line: number,
            cause,
        })
    }

    fn admit(&mut self, line: LogLine) -> Result<(), Cause>
        requires { Sound self.old.at self.old.kind self.old.lines.items }
        ensures sound { Sound self.old.at self.new.kind self.new.lines.items }
        ensures same { self.new.at ≡ self.old.at }
    {
        self.test(&line)?;
        self.add(line)
    }

    // Keeps a line that goes with those before it, if its moment counts.
    fn add(&mut self, line: LogLine) -> Result<(), Cause>
        requires sound { Sound self.old.at self.old.kind self.old.lines.items }
        requires kind { goes_with self.old.kind line.kind ≡ true }
        requires apart { self.old.at ≡ None → AllByRecursion (λ m. is_for line.service.number line.parity m ≡ false) self.old.lines.items }
        ensures kept { OnOk result (self.new.lines.items ≡ self.old.lines.items ++ (if counted self.old.at line.moment then line ∷ [] else [])) }
        ensures sound { Sound self.old.at self.new.kind self.new.lines.items }
        ensures same { self.new.at ≡ self.old.at }
    {
        self.kind = Some(line.kind);
        if !counts(self.at, line.moment) {
            return Ok(());
        }
        self.lines.push(line)?;
        Ok(())
    }

    // Refuses a line that does not go with those before it.
    fn test(&self, line: &LogLine) -> Result<(), Cause>
        ensures kind { OnOk result (goes_with self.now.kind line.now.kind ≡ true) }
        ensures apart { OnOk result (self.now.at ≡ None → AllByRecursion (λ m. is_for line.now.service.number line.now.parity m ≡ false) self.now.lines.items) }
    {
        if !goes_with(self.kind, line.kind) {
            return Err(Cause::Mixed);
        }
        if self.at.is_none() && self.has(line.service, line.parity) {
            return Err(Cause::Repeated);
        }
        Ok(())
    }

    fn has(&self, service: Service, parity: Parity) -> bool
        ensures { result ≡ false → AllByRecursion (λ m. is_for service.number parity m ≡ false) self.now.lines.items }
    {
        self.lines.iter().any(|line| line.is_for(service, parity))
    }
}

// Whether a kind goes with that of the lines before, if there are any.
fn goes_with(before: Option<Kind>, kind: Kind) -> bool
    ensures { result ≡ goes_with before kind }
{
    before.is_none_or(|other| other == kind)
}

// Whether a line of that moment counts: all do, or those at a moment or before it.
fn counts(at: Option<Moment>, moment: Moment) -> bool
    ensures { result ≡ counted at moment }
{
    at.is_none_or(|last| moment <= last)
}

// A line that says nothing.
fn is_idle(text: &str) -> bool {
    let text = text.trim();
    text.is_empty() || text.starts_with('#')
}

fn read_lines(heap: Global, text: &str, reading: &mut Reading) -> Result<(), LogFault>
    requires { Sound reading.old.at reading.old.kind reading.old.lines.items }
    ensures { Sound reading.old.at reading.new.kind reading.new.lines.items }
{
    for (index, text) in text.lines().enumerate() {
        if !is_idle(text) {
            let line = line::parse(heap, index.saturating_add(1), text)?;
            reading.take(line)?;
        }
    }
    Ok(())
}

/// Reads a log. After `at`, lines count up to that moment, and a later line of the same service and parity
/// stands for an earlier one; otherwise no service has two lines of the same parity.
pub fn read_log(heap: Global, text: &str, at: Option<Moment>) -> Result<Log, BadLog>
    ensures sound { IfOk result (λ log. Sound at (Some log.kind) log.lines.items) }
    ensures some { IfOk result (λ log. 0 < vec_len log.lines) }
{
    let mut reading = Reading {
        at,
        kind: None,
        lines: Vec::new(heap),
    };
    read_lines(heap, text, &mut reading)?;
    let Reading { at: _, kind, lines } = reading;
    match kind {
        Some(kind) if !lines.is_empty() => Ok(Log { kind, lines }),
        _ => Err(BadLog::NoLine),
    }
}
