// Measures the library: how long a session of `wire` takes to scramble or descramble batches of 64 packets.
#![tactic(auto)]

use anyhow::anyhow;
use batch::{Direction, MAX_BATCH_LEN};
use packet::{PACKET_LEN, SYNC_BYTE};
use std::time::{Duration, Instant};
use std::{array, env, io};
use wire::{Session, Tag};

/// Even, the word 00112233 44556677 8899aabb ccddeeff, moment 0.
const LOADED: [u8; 21] = [
    0, 0x00, 0x11, 0x22, 0x33, 0x44, 0x55, 0x66, 0x77, 0x88, 0x99, 0xaa, 0xbb, 0xcc, 0xdd, 0xee,
    0xff, 0, 0, 0, 0,
];

const USAGE: &str = "bench scramble|descramble BATCHES
scrambles or descrambles that many batches of 64 packets under CISSA, and prints
the microseconds and the last packet; bench/run compares it with other software";

fn main(rt: HostRuntime) -> anyhow::Result<()> {
    run(&rt)
}

fn run(rt: &HostRuntime) -> anyhow::Result<()> {
    let words: Vec<String> = env::args(rt)?.skip(1).collect(rt.alloc())?;
    match words.as_slice() {
        [] => Ok(println!(rt; "{USAGE}")?),
        [direction, batches] => {
            let direction = direction_of(direction.as_str())?;
            measure(rt, direction, batches.as_str().parse::<u64>()?)
        }
        _ => Err(anyhow!("two words are wanted: scramble or descramble, and a number")),
    }
}

// The two words of the command line; a `FromStr` would give `Direction` a spelling wherever it is used.
fn direction_of(text: &str) -> anyhow::Result<Direction> {
    match text {
        "scramble" => Ok(Direction::Scramble),
        "descramble" => Ok(Direction::Descramble),
        _ => Err(anyhow!("the direction is scramble or descramble")),
    }
}

// The byte at that place of a batch of clear packets of PID 128; byte n of the payload of packet k is k + n.
fn clear_byte(place: usize) -> u8 {
    let packet = place / PACKET_LEN;
    match place % PACKET_LEN {
        0 => SYNC_BYTE,
        1 => 0x00,
        2 => 0x80,
        3 => 0x10,
        other => ((packet % 256 + other - 4) % 256) as u8,
    }
}

fn clear_batch() -> [u8; MAX_BATCH_LEN] {
    array::from_fn(clear_byte)
}

fn measure(rt: &HostRuntime, direction: Direction, batches: u64) -> anyhow::Result<()> {
    let mut session = Session::start();
    let mut batch = clear_batch();
    let taken = repeat(rt, &mut session, direction, &mut batch, batches);
    session.end();
    let micros = taken?.as_micros();
    println!(rt; "{micros}")?;
    print_last(rt, &batch)?;
    Ok(())
}

// Joins PID 128, and loads and picks the word.
fn set_up(session: &mut Session) -> anyhow::Result<()> {
    ask(session, Tag::Join, &mut [0x00, 0x80])?;
    let mut loaded = LOADED;
    ask(session, Tag::Load, &mut loaded)?;
    ask(session, Tag::Pick, &mut [0])
}

fn ask(session: &mut Session, tag: Tag, value: &mut [u8]) -> anyhow::Result<()> {
    if session.answer(tag as u8, value).number() != 0 {
        return Err(anyhow!("a field was refused"));
    }
    Ok(())
}

// Changes the batch again and again, each time from the bytes that it had at first.
fn repeat(
    rt: &HostRuntime,
    session: &mut Session,
    direction: Direction,
    batch: &mut [u8; MAX_BATCH_LEN],
    batches: u64,
) -> anyhow::Result<Duration> {
    set_up(session)?;
    if direction == Direction::Descramble {
        ask(session, Tag::Scramble, batch)?;
    }
    let tag = match direction {
        Direction::Scramble => Tag::Scramble,
        Direction::Descramble => Tag::Descramble,
    };
    let source = *batch;
    let start = Instant::now(rt)?;
    for _ in 0..batches {
        *batch = source;
        ask(session, tag, batch)?;
    }
    Ok(start.elapsed(rt)?)
}

fn print_last(rt: &HostRuntime, batch: &[u8; MAX_BATCH_LEN]) -> io::Result<()> {
    for byte in &batch[MAX_BATCH_LEN - PACKET_LEN..] {
        print!(rt; "{byte:02x}")?;
    }
    println!(rt)
}
