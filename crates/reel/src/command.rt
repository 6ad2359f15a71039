// What the words of the command line ask for.
use batch::Direction;
use entry::{EntryFault, enter_word};
use log_file::{Cause, moment_of, pids_of};
use std::alloc::{AllocError, Global};
use std::fmt;
use std::str::FromStr;
use thiserror::Error;
use word::{Moment, Parity, Word};

#[derive(Clone, Copy)]
pub enum ProfileName {
    Cissa,
    Idsa,
    Des,
}

impl FromStr for ProfileName {
    type Err = Mistake;

    fn from_str(text: &str) -> Result<ProfileName, Mistake> {
        match text {
            "cissa" => Ok(ProfileName::Cissa),
            "idsa" => Ok(ProfileName::Idsa),
            "des" => Ok(ProfileName::Des),
            _ => Err(Mistake::Profile),
        }
    }
}

impl fmt::Display for ProfileName {
    fn fmt<W: fmt::Write>(&self, f: &mut fmt::Formatter<W>) -> fmt::Result {
        f.write_str(match self {
            ProfileName::Cissa => "CISSA",
            ProfileName::Idsa => "IDSA",
            ProfileName::Des => "DES",
        })
    }
}

/// The word, its parity and the PIDs that it is for.
#[derive(Drop)]
pub struct Keys {
    pub parity: Parity,
    pub word: Word,
    pub pids: Vec<u16>,
}

/// A log of loaded words, the file with the identifier that they are encrypted under, and up to which moment they count.
#[derive(Drop)]
pub struct LogRequest {
    pub path: String,
    pub identifier: Option<String>,
    pub at: Option<Moment>,
}

/// Where the words come from: the command line, or a log, which is asked for or read.
#[derive(Drop)]
pub enum KeySource<L> {
    Given(Keys),
    Logged(L),
}

/// Where a stream comes from, or where it goes.
#[derive(Drop)]
pub enum Place {
    /// Standard input or output.
    Standard,
    File(String),
}

impl Place {
    fn named(heap: Global, path: &str) -> Result<Place, AllocError> {
        match path {
            "-" => Ok(Place::Standard),
            _ => Ok(Place::File(String::from_str(heap, path)?)),
        }
    }
}

/// What to do with a stream.
#[derive(Drop)]
pub enum Task {
    /// Scrambles or descrambles it, and writes the result.
    Convert { direction: Direction, output: Place },
    /// Scrambles it in memory, and brings it back.
    Rehearse { shows_packets: bool },
}

impl fmt::Display for Task {
    fn fmt<W: fmt::Write>(&self, f: &mut fmt::Formatter<W>) -> fmt::Result {
        f.write_str(match self {
            Task::Convert {
                direction: Direction::Scramble,
                ..
            } => "scrambled",
            Task::Convert {
                direction: Direction::Descramble,
                ..
            } => "descrambled",
            Task::Rehearse { .. } => "rehearsed",
        })
    }
}

/// A task on a stream.
#[derive(Drop)]
pub struct Command {
    pub task: Task,
    pub profile: ProfileName,
    pub input: Place,
}

impl Command {
    /// Whether the changed stream goes to standard output.
    pub fn writes_to_pipe(&self) -> bool {
        matches!(
            &self.task,
            Task::Convert {
                output: Place::Standard,
                ..
            }
        )
    }
}

/// What was not understood.
#[derive(Clone, Copy, Debug, Error)]
pub enum Mistake {
    #[error("the first word is scramble, descramble or rehearse")]
    Task,
    #[error("the profile is cissa, idsa or des")]
    Profile,
    #[error("the parity is even or odd")]
    Parity,
    #[error("a PID is a number, decimal or after 0x")]
    Pid,
    #[error("the log is missing")]
    NoLog,
    #[error("the moment is 0 to 4000000000 seconds, decimal")]
    Moment,
    #[error("the stream to read is missing")]
    NoInput,
    #[error("the file to write is missing")]
    NoOutput,
    #[error("there is a word too many")]
    WordTooMany,
}

/// Why the words are no command.
#[derive(Clone, Copy, Debug, Error)]
pub enum BadCommand {
    #[error(transparent)]
    Usage(#[from] Mistake),
    #[error("the word was refused")]
    Word(#[from] EntryFault),
    #[error("there is no memory")]
    NoMemory(#[from(alloc)] AllocError),
}

// The words of a command, of which the first ones are taken.
#[derive(Drop)]
struct Words<'a> {
    rest: &'a [String],
}

impl<'a> Iterator for Words<'a> {
    type Item = &'a str;

    fn next(&mut self) -> Option<&'a str> {
        let (word, rest) = self.rest.split_first()?;
        self.rest = rest;
        Some(word.as_str())
    }
}

impl<'a> Words<'a> {
    // Takes the next word if it is this one.
    fn takes(&mut self, name: &str) -> bool {
        match self.rest {
            [word, rest @ ..] if word.as_str() == name => {
                self.rest = rest;
                true
            }
            _ => false,
        }
    }

    // The next word, if it is there and not empty.
    fn path(&mut self) -> Option<&'a str> {
        self.next().filter(|word| !word.is_empty())
    }

    // The next group of a word. One that is missing is refused as an empty one is.
    fn group(&mut self) -> &'a str {
        self.next().unwrap_or("")
    }
}

// The first word of a command.
#[derive(Clone, Copy)]
enum Verb {
    Convert(Direction),
    Rehearse,
}

impl FromStr for Verb {
    type Err = Mistake;

    fn from_str(text: &str) -> Result<Verb, Mistake> {
        match text {
            "scramble" => Ok(Verb::Convert(Direction::Scramble)),
            "descramble" => Ok(Verb::Convert(Direction::Descramble)),
            "rehearse" => Ok(Verb::Rehearse),
            _ => Err(Mistake::Task),
        }
    }
}

impl Verb {
    // The task, whose last word follows.
    fn task(self, heap: Global, words: &mut Words<'_>) -> Result<Task, BadCommand> {
        match self {
            Verb::Convert(direction) => {
                let output = Place::named(heap, words.path().ok_or(Mistake::NoOutput)?)?;
                Ok(Task::Convert { direction, output })
            }
            Verb::Rehearse => Ok(Task::Rehearse {
                shows_packets: packets_shown(words),
            }),
        }
    }
}

// Whether a rehearsal shows its packets. An empty word in that place says no.
fn packets_shown(words: &mut Words<'_>) -> bool {
    let shown = words.takes("--packets");
    if !shown {
        let _ = words.takes("");
    }
    shown
}

fn given_parity(words: &mut Words<'_>) -> Result<Parity, Mistake> {
    let text = words.next().ok_or(Mistake::Parity)?;
    text.parse().map_err(|_| Mistake::Parity)
}

fn given_pids(heap: Global, list: &str) -> Result<Vec<u16>, BadCommand> {
    pids_of(heap, list).map_err(|cause| match cause {
        Cause::NoMemory(error) => BadCommand::NoMemory(error),
        _ => BadCommand::Usage(Mistake::Pid),
    })
}

// Parity, the four groups of the word, PIDs.
fn given_keys(heap: Global, words: &mut Words<'_>) -> Result<Keys, BadCommand> {
    let parity = given_parity(words)?;
    let word = enter_word(words.group(), words.group(), words.group(), words.group())?;
    let pids = given_pids(heap, words.next().ok_or(Mistake::Pid)?)?;
    Ok(Keys { parity, word, pids })
}

fn given_moment(words: &mut Words<'_>) -> Result<Moment, Mistake> {
    let text = words.next().ok_or(Mistake::Moment)?;
    moment_of(text).map_err(|_| Mistake::Moment)
}

// The log's path, and the options that follow it in either order, each once.
fn log_request(heap: Global, words: &mut Words<'_>) -> Result<LogRequest, BadCommand> {
    let path = words.path();
    let mut identifier = None;
    let mut at = None;
    for _ in 0..2 {
        if identifier.is_none() && words.takes("--identifier") {
            identifier = words.next();
        } else if at.is_none() && words.takes("--at") {
            at = Some(given_moment(words)?);
        }
    }
    let path = String::from_str(heap, path.ok_or(Mistake::NoLog)?)?;
    let identifier = match identifier {
        Some(path) => Some(String::from_str(heap, path)?),
        None => None,
    };
    Ok(LogRequest {
        path,
        identifier,
        at,
    })
}

fn key_source(heap: Global, words: &mut Words<'_>) -> Result<KeySource<LogRequest>, BadCommand> {
    if words.takes("--log") {
        return Ok(KeySource::Logged(log_request(heap, words)?));
    }
    Ok(KeySource::Given(given_keys(heap, words)?))
}

/// The command of these words, which begin after the program's name, and where its keys come from.
pub fn parse(
    heap: Global,
    words: &[String],
) -> Result<(Command, KeySource<LogRequest>), BadCommand> {
    let mut words = Words { rest: words };
    let verb: Verb = words.next().ok_or(Mistake::Task)?.parse()?;
    let profile = words.next().ok_or(Mistake::Profile)?.parse()?;
    let keys = key_source(heap, &mut words)?;
    let input = Place::named(heap, words.path().ok_or(Mistake::NoInput)?)?;
    let task = verb.task(heap, &mut words)?;
    if words.next().is_some() {
        return Err(BadCommand::Usage(Mistake::WordTooMany));
    }
    let command = Command {
        task,
        profile,
        input,
    };
    Ok((command, keys))
}
