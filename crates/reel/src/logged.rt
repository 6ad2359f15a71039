// The words of a log.
use crate::command::LogRequest;
use crate::report;
use crate::services::{Services, ServicesFault};
use anyhow::anyhow;
use cipher::{Cipher, TailRule};
use engine::EngineFault;
use entry::enter_identifier;
use log_file::{BadLog, Cause, Log, LogFault, LogLine, read_log};
use shelf::Shelf;
use std::alloc::AllocError;
use std::collections::BTreeMap;
use std::fs;
use word::Identifier;

/// The words to load, and the identifier that they are encrypted under, if they are.
#[derive(Drop)]
pub struct KeyRing {
    pub log: Log,
    pub identifier: Option<Identifier>,
}

/// Reads what the command names.
pub fn fetch(rt: &HostRuntime, request: &LogRequest) -> anyhow::Result<KeyRing> {
    let log = logged(rt, request)?;
    let identifier = match &request.identifier {
        Some(path) => Some(identifier_in(rt, path.as_str())?),
        None => None,
    };
    Ok(KeyRing { log, identifier })
}

// The log, whose words are as the request has them: encrypted if there is an identifier, else not.
fn logged(rt: &HostRuntime, request: &LogRequest) -> anyhow::Result<Log> {
    let text = text_of(rt, request.path.as_str())?;
    match read_log(rt.alloc(), text.as_str(), request.at) {
        Ok(log) => match log.misfit(request.identifier.is_some()) {
            None => Ok(log),
            Some(fault) => Err(refused(rt, &fault)),
        },
        Err(BadLog::Line(fault)) => Err(refused(rt, &fault)),
        Err(BadLog::NoLine) => Err(BadLog::NoLine.into()),
    }
}

// A refused line is printed whole; what is left to say is short.
fn refused(rt: &HostRuntime, fault: &LogFault) -> anyhow::Error {
    match eprintln!(rt; "{fault}") {
        Ok(()) => anyhow!("the log was refused, and nothing was written"),
        Err(error) => error.into(),
    }
}

// The whole of a small text file, or says why it cannot be read. Bytes that are no text become a
// character that no column has, so that a line with one is refused by its number.
fn text_of(rt: &HostRuntime, path: &str) -> anyhow::Result<String> {
    match fs::read(rt, path) {
        Ok(bytes) => Ok(String::from_utf8_lossy(rt.alloc(), bytes.as_slice())?),
        Err(error) => {
            report::print_unreadable(rt, path, &error)?;
            Err(anyhow!("a file cannot be read"))
        }
    }
}

// The identifier in a file. Nothing of it is printed.
fn identifier_in(rt: &HostRuntime, path: &str) -> anyhow::Result<Identifier> {
    let text = text_of(rt, path)?;
    let groups: Vec<&str> = text.as_str().split_ascii_whitespace().collect(rt.alloc())?;
    let [first, second, third, fourth] = groups.as_slice() else {
        return Err(anyhow!("an identifier is four groups of eight hexadecimal digits"));
    };
    match enter_identifier(first, second, third, fourth) {
        Ok(identifier) => Ok(identifier),
        Err(fault) => {
            report::print_entry_refusal(rt, fault)?;
            Err(anyhow!("the identifier was refused"))
        }
    }
}

/// Opens the services of a log, joins their PIDs and loads the words, or says which line was refused.
pub fn load_log<C: Cipher, T: TailRule, S: Shelf>(
    rt: &HostRuntime,
    services: &mut Services<C, T, S>,
    log: &Log,
) -> anyhow::Result<()> {
    let mut joined = BTreeMap::new(rt.alloc());
    for line in log.lines.as_slice() {
        if let Err(cause) = load_line(services, &mut joined, line) {
            let line = line.number;
            return Err(refused(rt, &LogFault { line, cause }));
        }
    }
    Ok(())
}

// `joined` has the service of each PID that is joined. The service scrambles under the latest line's parity.
fn load_line<C: Cipher, T: TailRule, S: Shelf>(
    services: &mut Services<C, T, S>,
    joined: &mut BTreeMap<u16, u8>,
    line: &LogLine,
) -> Result<(), Cause> {
    let service = line.service.number();
    open_once(services, service)?;
    for pid in line.pids.as_slice() {
        join_once(services, joined, service, *pid)?;
    }
    services.load_and_pick(service, line.parity, &line.entry, line.moment.seconds())?;
    Ok(())
}

// Opens a service unless it is open.
fn open_once<C: Cipher, T: TailRule, S: Shelf>(
    services: &mut Services<C, T, S>,
    service: u8,
) -> Result<(), Cause> {
    match services.open(service) {
        Ok(()) | Err(ServicesFault::Engine(EngineFault::AlreadyOpen)) => Ok(()),
        Err(ServicesFault::Engine(fault)) => Err(Cause::Engine(fault)),
        Err(ServicesFault::NoMemory) => Err(Cause::NoMemory(AllocError)),
    }
}

// Joins a PID to a service unless it is joined to this one.
fn join_once<C: Cipher, T: TailRule, S: Shelf>(
    services: &mut Services<C, T, S>,
    joined: &mut BTreeMap<u16, u8>,
    service: u8,
    pid: u16,
) -> Result<(), Cause> {
    if joined.get(&pid) == Some(&service) {
        return Ok(());
    }
    services.join(service, pid)?;
    joined.insert(pid, service)?;
    Ok(())
}
