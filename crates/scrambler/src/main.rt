// Reads tagged fields from standard input and writes the answer to each to standard output.
#![tactic(auto)]

use anyhow::anyhow;
use std::io;
use std::io::{BufReader, Read, Stdin, Stdout, Write};
use wire::{Session, missing};

fn main(rt: HostRuntime) -> anyhow::Result<()> {
    run(&rt)
}

fn run(rt: &HostRuntime) -> anyhow::Result<()> {
    let mut session = Session::start();
    let result = serve(rt, &mut session);
    session.end();
    result
}

// A field in, its answer out, until the input ends, between two fields or inside one. The buffers are used again, so
// memory does not grow.
fn serve(rt: &HostRuntime, session: &mut Session) -> anyhow::Result<()> {
    let mut input = BufReader::new(rt.alloc(), rt.stdin())?;
    let mut output = rt.stdout();
    let mut buffer = Vec::new(rt.alloc());
    let mut answer = Vec::new(rt.alloc());
    // No input has so many fields: a loop that reads to the end of its input has a bound.
    for _ in 0..u64::MAX {
        let next = read_field(&mut input, &mut buffer).map_err(|error| failed(
            rt,
            "standard input cannot be read",
            &error,
        ))?;
        let Some(field) = next else {
            break;
        };
        answer.clear();
        session.answer_all(rt.alloc(), field, &mut answer)?;
        write_answer(&mut output, answer.as_slice()).map_err(|error| failed(
            rt,
            "standard output cannot be written",
            &error,
        ))?;
        if missing(field) > 0 {
            break;
        }
    }
    Ok(())
}

// Says what failed and why; what is left to say is short.
fn failed(rt: &HostRuntime, what: &'static str, error: &io::Error) -> anyhow::Error {
    match eprintln!(rt; "{what}: {error}") {
        Ok(()) => anyhow!("the run ended before its input did"),
        Err(other) => other.into(),
    }
}

fn write_answer(output: &mut Stdout, answer: &[u8]) -> io::Result<()> {
    output.write_all(answer)?;
    output.flush()
}

// The next field, if the input goes on; it is less than a field only where the input ends.
fn read_field<'a>(
    input: &mut BufReader<Stdin>,
    buffer: &'a mut Vec<u8>,
) -> io::Result<Option<&'a [u8]>> {
    buffer.clear();
    read_more(input, buffer)?;
    if buffer.len() >= 3 {
        read_more(input, buffer)?;
    }
    Ok((!buffer.is_empty()).then_some(buffer.as_slice()))
}

// Reads what the field lacks, as far as the input has it.
fn read_more(input: &mut BufReader<Stdin>, field: &mut Vec<u8>) -> io::Result<()> {
    let more = missing(field.as_slice()) as u64;
    let _ = input.take(more).read_to_end(field)?;
    Ok(())
}
