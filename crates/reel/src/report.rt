// What the program prints.
use crate::command::{Command, Task};
use crate::tally::Tally;
use batch::BatchFault;
use engine::EngineFault;
use entry::EntryFault;
use fault::Refusal;
use packet::PACKET_LEN;
use std::{fmt, io};
use word::Parity;

/// How the program is called.
pub fn print_usage(rt: &HostRuntime) -> io::Result<()> {
    eprintln!(rt; "reel scramble   PROFILE KEYS IN OUT")?;
    eprintln!(rt; "reel descramble PROFILE KEYS IN OUT")?;
    eprintln!(rt; "reel rehearse   PROFILE KEYS IN [--packets]")?;
    eprintln!(rt; "  PROFILE  cissa, idsa or des")?;
    eprintln!(rt; "  KEYS     PARITY WORD PIDS, or")?;
    eprintln!(rt; "           --log LOG [--identifier FILE] [--at MOMENT]")?;
    print_key_usage(rt)?;
    eprintln!(rt; "  IN, OUT  transport stream files, or - for standard input and output;")?;
    eprintln!(rt; "           a rehearsal writes none, and shows the scrambled packets")?;
    eprintln!(rt; "           after --packets")
}

fn print_key_usage(rt: &HostRuntime) -> io::Result<()> {
    eprintln!(rt; "  PARITY   even or odd")?;
    eprintln!(rt; "  WORD     four groups of eight hexadecimal digits, leftmost first")?;
    eprintln!(rt; "  PIDS     32 to 8190, with commas, decimal or after 0x")?;
    eprintln!(rt; "  LOG      a line for each word: SERVICE PIDS PARITY KIND WORD MOMENT")?;
    eprintln!(rt; "  FILE     the identifier of encrypted words, as four groups")?;
    eprintln!(rt; "  MOMENT   words of the log count up to here, 0 to 4000000000 seconds")
}

/// A refused word or identifier.
pub fn print_entry_refusal(rt: &HostRuntime, fault: EntryFault) -> io::Result<()> {
    let refusal = Refusal::from(fault);
    eprintln!(rt; "refused: {refusal}")?;
    eprintln!(rt; "at: {fault}")
}

/// A file that cannot be read, and why.
pub fn print_unreadable(rt: &HostRuntime, path: &str, error: &io::Error) -> io::Result<()> {
    eprintln!(rt; "{path}: {error}")
}

/// A refused call of the engine; `done` is how many packets came before a refused batch.
#[derive(Clone, Copy)]
pub struct RefusedCall {
    pub fault: EngineFault,
    pub done: u64,
}

impl fmt::Display for RefusedCall {
    fn fmt<W: fmt::Write>(&self, f: &mut fmt::Formatter<W>) -> fmt::Result {
        let refusal = Refusal::from(self.fault);
        let layer = refusal.layer;
        writeln!(f, "refused: {refusal}")?;
        writeln!(f, "layer: {layer}")?;
        match self.fault {
            EngineFault::Batch(BatchFault::BatchLength { length }) => {
                let packet = self.done.saturating_add((length / PACKET_LEN) as u64);
                writeln!(f, "at: packet {packet}, in which the stream ends")
            }
            EngineFault::Batch(_) => {
                let packet = self.done.saturating_add(refusal.first);
                let byte = refusal.second;
                writeln!(f, "at: packet {packet}, byte {byte}")
            }
            _ => Ok(()),
        }
    }
}

/// Where the words came from: one from the command line, or so many lines of a log.
#[derive(Clone, Copy)]
pub enum Source {
    Given(Parity),
    Logged(usize),
}

impl fmt::Display for Source {
    fn fmt<W: fmt::Write>(&self, f: &mut fmt::Formatter<W>) -> fmt::Result {
        match self {
            Source::Given(parity) => write!(f, "{parity} word"),
            Source::Logged(lines) => write!(f, "lines loaded from the log: {lines}"),
        }
    }
}

/// What became of a stream that was taken to its end.
#[derive(Clone, Copy)]
pub struct Report<'a> {
    pub command: &'a Command,
    pub source: Source,
    pub tally: &'a Tally,
}

impl fmt::Display for Report<'_> {
    fn fmt<W: fmt::Write>(&self, f: &mut fmt::Formatter<W>) -> fmt::Result {
        let task = &self.command.task;
        let profile = self.command.profile;
        let source = self.source;
        let all = self.tally.all;
        writeln!(f, "{task}: profile {profile}, {source}")?;
        writeln!(f, "packets: {all}")?;
        for (pid, count) in &self.tally.pids {
            writeln!(f, "PID {pid}: {count}")?;
        }
        match self.command.task {
            Task::Rehearse { .. } => writeln!(f, "every packet came back byte for byte"),
            Task::Convert { .. } => Ok(()),
        }
    }
}

/// A packet in hexadecimal, sixteen bytes to a line.
#[derive(Clone, Copy)]
pub struct Dump<'a> {
    pub number: u64,
    pub packet: &'a [u8],
}

impl fmt::Display for Dump<'_> {
    fn fmt<W: fmt::Write>(&self, f: &mut fmt::Formatter<W>) -> fmt::Result {
        let number = self.number;
        writeln!(f, "packet {number}:")?;
        for line in self.packet.chunks(16) {
            let line = DumpLine(line);
            writeln!(f, "{line}")?;
        }
        Ok(())
    }
}

#[derive(Clone, Copy)]
struct DumpLine<'a>(&'a [u8]);

impl fmt::Display for DumpLine<'_> {
    fn fmt<W: fmt::Write>(&self, f: &mut fmt::Formatter<W>) -> fmt::Result {
        for byte in self.0 {
            write!(f, " {byte:02x}")?;
        }
        Ok(())
    }
}
