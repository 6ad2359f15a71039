// Scrambles, descrambles or rehearses a transport stream, and prints what happened.
#![tactic(auto)]

mod command;
mod element;
mod logged;
mod report;
mod services;
mod station;
mod stream;
mod tally;
mod task;

use command::{BadCommand, Command, KeySource, LogRequest, ProfileName};
use profile::{cissa_profile, des_profile, idsa_profile};
use std::env;
use task::Words;

fn main(rt: HostRuntime) -> anyhow::Result<()> {
    run(&rt)
}

fn run(rt: &HostRuntime) -> anyhow::Result<()> {
    let words: Vec<String> = env::args(rt)?.skip(1).collect(rt.alloc())?;
    match command::parse(rt.alloc(), words.as_slice()) {
        Ok((command, source)) => carry_out(rt, &command, source),
        Err(bad) => not_understood(rt, bad),
    }
}

fn carry_out(
    rt: &HostRuntime,
    command: &Command,
    source: KeySource<LogRequest>,
) -> anyhow::Result<()> {
    let words = fetch(rt, source)?;
    match command.profile {
        ProfileName::Cissa => task::carry_out(
            rt,
            cissa_profile(),
            cissa_profile(),
            command,
            &words,
        ),
        ProfileName::Idsa => task::carry_out(rt, idsa_profile(), idsa_profile(), command, &words),
        ProfileName::Des => task::carry_out(rt, des_profile(), des_profile(), command, &words),
    }
}

// Reads what the command names.
fn fetch(rt: &HostRuntime, source: KeySource<LogRequest>) -> anyhow::Result<Words> {
    match source {
        KeySource::Given(keys) => Ok(KeySource::Given(keys)),
        KeySource::Logged(request) => Ok(KeySource::Logged(logged::fetch(rt, &request)?)),
    }
}

fn not_understood(rt: &HostRuntime, bad: BadCommand) -> anyhow::Result<()> {
    match bad {
        BadCommand::Usage(_) => report::print_usage(rt)?,
        BadCommand::Word(fault) => report::print_entry_refusal(rt, fault)?,
        BadCommand::NoMemory(_) => {}
    }
    Err(bad.into())
}
