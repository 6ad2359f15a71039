// A task, at engines that hold the words.
ghost use Rattle.std.specs.Prelude.{◌≡◌, true, OnOk};
ghost use Rattle.engine.specs.Model.{is_open, slots_of};
ghost use Rattle.reel.specs.Ready.{ready};

use crate::command::{Command, KeySource, Keys, Task};
use crate::logged::{KeyRing, load_log};
use crate::report::Source;
use crate::services::{Services, ServicesFault};
use crate::station::Station;
use crate::stream::Run;
use anyhow::anyhow;
use cipher::{Cipher, Profile, TailRule};
use law::every_run_is_lawful;
use shelf::{PlainShelf, Shelf, Unwrapping};

/// The words that are to be loaded.
pub type Words = KeySource<KeyRing>;

/// Does what the command asks, over the shelf that the words ask for.
/// A rehearsal takes both profiles, any other task the near one.
pub fn carry_out<C: Cipher + Drop, T: TailRule + Drop>(
    rt: &HostRuntime,
    near: Profile<C, T>,
    far: Profile<C, T>,
    command: &Command,
    words: &Words,
) -> anyhow::Result<()> {
    let heap = rt.alloc();
    match words {
        KeySource::Logged(
            KeyRing {
                identifier: Some(identifier),
                ..
            },
        ) => over_services(
            rt,
            Services::new(heap, near, Unwrapping::new(*identifier, PlainShelf::new())),
            Services::new(heap, far, Unwrapping::new(*identifier, PlainShelf::new())),
            command,
            words,
        ),
        _ => over_services(
            rt,
            Services::new(heap, near, PlainShelf::new()),
            Services::new(heap, far, PlainShelf::new()),
            command,
            words,
        ),
    }
}

fn over_services<C: Cipher + Drop, T: TailRule + Drop, S: Shelf + Drop>(
    rt: &HostRuntime,
    mut near: Services<C, T, S>,
    mut far: Services<C, T, S>,
    command: &Command,
    words: &Words,
) -> anyhow::Result<()> {
    let result = with_words(rt, &mut near, &mut far, command, words);
    near.finish();
    far.finish();
    result
}

fn with_words<C: Cipher, T: TailRule, S: Shelf>(
    rt: &HostRuntime,
    near: &mut Services<C, T, S>,
    far: &mut Services<C, T, S>,
    command: &Command,
    words: &Words,
) -> anyhow::Result<()> {
    let mut run = Run::new(rt, command);
    let near = loaded(rt, &run, near, words)?;
    match &command.task {
        Task::Convert { direction, output } => run.convert(&near, *direction, output)?,
        Task::Rehearse { shows_packets } => {
            // That a stream comes back is proved of every stream: the contract says so.
            every_run_is_lawful::<C, T, S, C, T, S>();
            let far = loaded(rt, &run, far, words)?;
            run.rehearse(&near, &far, *shows_packets)?;
        }
    }
    run.report(words.source())?;
    Ok(())
}

// The services with the words loaded, or why that is refused.
fn loaded<'a, C: Cipher, T: TailRule, S: Shelf>(
    rt: &HostRuntime,
    run: &Run<'_>,
    services: &'a mut Services<C, T, S>,
    words: &'a Words,
) -> anyhow::Result<Station<'a, C, T, S>> {
    load(rt, run, services, words)?;
    Ok(Station { services, words })
}

// Opens the services, joins the PIDs and loads the words, or says what was refused.
fn load<C: Cipher, T: TailRule, S: Shelf>(
    rt: &HostRuntime,
    run: &Run<'_>,
    services: &mut Services<C, T, S>,
    words: &Words,
) -> anyhow::Result<()>
    ensures { OnOk result (ready words.now (slots_of services.new.engine.desk) ≡ true) }
{
    match words {
        KeySource::Given(keys) => match load_keys(services, keys) {
            Ok(()) => Ok(()),
            Err(ServicesFault::Engine(fault)) => Err(run.refused(fault)),
            Err(ServicesFault::NoMemory) => Err(anyhow!("there is no memory")),
        },
        KeySource::Logged(ring) => load_log(rt, services, &ring.log),
    }
}

// The word of the command line is that of service 0.
fn load_keys<C: Cipher, T: TailRule, S: Shelf>(
    services: &mut Services<C, T, S>,
    keys: &Keys,
) -> Result<(), ServicesFault>
    ensures { OnOk result (is_open (slots_of services.new.engine.desk 0) ≡ true) }
{
    services.open(0)?;
    services.load_and_pick(0, keys.parity, &keys.word.to_bytes(), 0)?;
    services.join_all(0, keys.pids.as_slice())?;
    Ok(())
}

impl Words {
    fn source(&self) -> Source {
        match self {
            KeySource::Given(keys) => Source::Given(keys.parity),
            KeySource::Logged(ring) => Source::Logged(ring.log.lines.len()),
        }
    }
}
