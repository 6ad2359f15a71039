// A stream, in batches of 64 packets, so that memory does not grow with it.
ghost use Rattle.std.specs.Prelude.{◌≤◌, length, IfOk};

use crate::command::{Command, Place};
use crate::element::Element;
use crate::report;
use crate::report::{Dump, RefusedCall, Report, Source};
use crate::tally::Tally;
use anyhow::anyhow;
use batch::{Direction, MAX_BATCH_LEN};
use engine::EngineFault;
use packet::PACKET_LEN;
use std::fs::File;
use std::io;
use std::io::{Read, Write};
use std::rt::Files;

// After so many packets a line on standard error says how far the run is.
const PROGRESS: u64 = 1 << 20;

/// A task on its way through a stream.
#[derive(Drop)]
pub struct Run<'a> {
    rt: &'a HostRuntime,
    command: &'a Command,
    tally: Tally,
    // The packets of the batches before this one.
    done: u64,
}

impl<'a> Run<'a> {
    pub fn new(rt: &'a HostRuntime, command: &'a Command) -> Run<'a> {
        Run {
            rt,
            command,
            tally: Tally::new(rt.alloc()),
            done: 0,
        }
    }

    /// Scrambles or descrambles the stream.
    pub fn convert<E: Element>(
        &mut self,
        element: &E,
        direction: Direction,
        output: &Place,
    ) -> anyhow::Result<()> {
        match output {
            Place::Standard => self.convert_into(element, direction, &mut self.rt.stdout()),
            Place::File(path) => self.convert_safely(element, direction, path.as_str()),
        }
    }

    /// Scrambles the stream in memory at one element, brings it back at the other and compares every byte.
    pub fn rehearse<E: Element>(
        &mut self,
        near: &E,
        far: &E,
        shows_packets: bool,
    ) -> anyhow::Result<()> {
        self.through(|run, batch| run.rehearse_batch(near, far, shows_packets, batch))
    }

    /// Says what became of the stream: on standard output, unless the stream itself is there.
    pub fn report(&self, source: Source) -> io::Result<()> {
        let report = Report {
            command: self.command,
            source,
            tally: &self.tally,
        };
        if self.command.writes_to_pipe() {
            return eprint!(self.rt; "{report}");
        }
        print!(self.rt; "{report}")
    }

    /// A refusal is printed whole; what is left to say is short.
    pub fn refused(&self, fault: EngineFault) -> anyhow::Error {
        let done = self.done;
        let refused = RefusedCall { fault, done };
        match eprint!(self.rt; "{refused}") {
            Ok(()) if self.command.writes_to_pipe() && done > 0 => {
                anyhow!("the stream was refused, and the packets before are written")
            }
            Ok(()) => anyhow!("the stream was refused, and nothing was written"),
            Err(error) => error.into(),
        }
    }

    // Writes the changed stream beside the output, and gives it its name once all of it is there.
    fn convert_safely<E: Element>(
        &mut self,
        element: &E,
        direction: Direction,
        output: &str,
    ) -> anyhow::Result<()> {
        let rt = self.rt;
        let part = format!(in rt.alloc(); "{output}.part")?;
        match self.convert_to_file(element, direction, part.as_str()) {
            Ok(()) => {
                rt.rename(part.as_str(), output)?;
                Ok(())
            }
            Err(error) => {
                let _ = rt.remove_file(part.as_str());
                Err(error)
            }
        }
    }

    fn convert_to_file<E: Element>(
        &mut self,
        element: &E,
        direction: Direction,
        part: &str,
    ) -> anyhow::Result<()> {
        let mut file = File::create(self.rt, part)?;
        self.convert_into(element, direction, &mut file)
    }

    fn convert_into<E: Element, W: Write>(
        &mut self,
        element: &E,
        direction: Direction,
        output: &mut W,
    ) -> anyhow::Result<()> {
        self.through(|run, batch| run.convert_batch(element, direction, output, batch))?;
        output.flush()?;
        Ok(())
    }

    // Does the work on each batch of the stream. One that holds no packet is refused: it is no recording.
    fn through<F>(&mut self, work: F) -> anyhow::Result<()>
    where
        F: FnMut(&mut Run<'a>, &mut [u8]) -> anyhow::Result<()> + Drop,
        requires { F.IsAlwaysCallable work }
    {
        match &self.command.input {
            Place::Standard => self.each_batch(&mut self.rt.stdin(), work)?,
            Place::File(path) => self.each_batch(&mut opened(self.rt, path.as_str())?, work)?,
        }
        if self.done == 0 {
            return Err(anyhow!("the stream is empty"));
        }
        Ok(())
    }

    fn each_batch<R: Read, F>(&mut self, input: &mut R, mut work: F) -> anyhow::Result<()>
    where
        F: FnMut(&mut Run<'a>, &mut [u8]) -> anyhow::Result<()> + Drop,
        requires { F.IsAlwaysCallable work }
    {
        let mut buffer = [0; MAX_BATCH_LEN];
        // No stream has so many batches: a loop that reads to the end of its input has a bound, so that every call ends.
        for _ in 0..u64::MAX {
            let n = fill(input, &mut buffer)?;
            if n == 0 {
                break;
            }
            work(self, &mut buffer[0..n])?;
            self.advance()?;
        }
        Ok(())
    }

    // A batch is done. Shows progress each time another million packets or so are.
    fn advance(&mut self) -> io::Result<()> {
        let before = self.done;
        let done = self.tally.all.read;
        self.done = done;
        if before / PROGRESS < done / PROGRESS {
            return eprintln!(self.rt; "{done} packets");
        }
        Ok(())
    }

    // Scrambles or descrambles a batch in place, with a key area of its own.
    fn change<E: Element>(
        &self,
        element: &E,
        direction: Direction,
        batch: &mut [u8],
    ) -> anyhow::Result<()> {
        let mut area = vec![in self.rt.alloc(); 0; element.area_len()]?;
        match element.change(direction, area.as_mut_slice(), batch) {
            Ok(_) => Ok(()),
            Err(fault) => Err(self.refused(fault)),
        }
    }

    fn convert_batch<E: Element, W: Write>(
        &mut self,
        element: &E,
        direction: Direction,
        output: &mut W,
        batch: &mut [u8],
    ) -> anyhow::Result<()> {
        let before = batch.to_vec(self.rt.alloc())?;
        self.change(element, direction, batch)?;
        output.write_all(batch)?;
        self.tally.add(before.as_slice(), batch)?;
        Ok(())
    }

    // Scrambles a batch in memory, brings it back at the other element and compares every byte.
    fn rehearse_batch<E: Element>(
        &mut self,
        near: &E,
        far: &E,
        shows_packets: bool,
        batch: &mut [u8],
    ) -> anyhow::Result<()> {
        let clear = batch.to_vec(self.rt.alloc())?;
        self.change(near, Direction::Scramble, batch)?;
        self.tally.add(clear.as_slice(), batch)?;
        if shows_packets {
            self.show_changed(clear.as_slice(), batch)?;
        }
        self.change(far, Direction::Descramble, batch)?;
        if clear.as_slice() != &*batch {
            return Err(anyhow!("a packet did not come back"));
        }
        Ok(())
    }

    // Prints the packets that differ.
    fn show_changed(&self, before: &[u8], after: &[u8]) -> io::Result<()> {
        let packets = before.chunks(PACKET_LEN).zip(after.chunks(PACKET_LEN));
        for (index, (was, packet)) in packets.enumerate() {
            if was != packet {
                let number = self.done.saturating_add(index as u64);
                let dump = Dump { number, packet };
                print!(self.rt; "{dump}")?;
            }
        }
        Ok(())
    }
}

// Opens the stream, or says why that cannot be.
fn opened(rt: &HostRuntime, path: &str) -> anyhow::Result<File> {
    match File::open(rt, path) {
        Ok(file) => Ok(file),
        Err(error) => {
            report::print_unreadable(rt, path, &error)?;
            Err(anyhow!("the stream cannot be opened"))
        }
    }
}

// Reads until the buffer is full or the input ends, and answers how many bytes came.
// A pipe gives a few bytes at a time. Not by `read_to_end`, of which no clause says that a batch is not longer.
fn fill<R: Read>(input: &mut R, buffer: &mut [u8]) -> io::Result<usize>
    ensures { IfOk result (λ n. n ≤ length buffer.old) }
{
    let mut filled = 0;
    while filled < buffer.len() {
        let n = input.read(&mut buffer[filled..])?;
        if n == 0 {
            break;
        }
        filled += n;
    }
    Ok(filled)
}
