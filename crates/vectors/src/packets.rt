// Packets of every payload length under a profile.
ghost use Rattle.std.specs.Prelude.{◌≡◌};
ghost use Rattle.vectors.specs.Vectors.{parity_of};

use crate::group::Group;
use crate::subject::Packet;
use crate::vector::Vector;
use anyhow::Context;
use cipher::{Cipher, Profile, TailRule};
use packet::PACKET_LEN;
use std::alloc::Global;
use std::fs::File;
use std::io;
use std::io::{BufReader, Read};
use word::{Parity, Word};

// Each payload length, 1 to 184, under both parities.
const CASES: usize = 368;

/// Tries the packets of a file, and answers whether the element met them all.
pub fn try_packets<C: Cipher, T: TailRule>(
    rt: &HostRuntime,
    path: &str,
    profile: &Profile<C, T>,
) -> anyhow::Result<bool> {
    let heap = rt.alloc();
    let mut file = BufReader::new(heap, File::open(rt, path)?)?;
    let mut group = Group::new(String::from_str(heap, path)?);
    for _ in 0..CASES {
        try_record(rt, &mut group, profile, &read_record(heap, &mut file)?)?;
    }
    Ok(group.finish(rt)?)
}

fn try_record<C: Cipher, T: TailRule>(
    rt: &HostRuntime,
    group: &mut Group,
    profile: &Profile<C, T>,
    record: &Record,
) -> anyhow::Result<()> {
    let packet = Packet {
        profile,
        pid: record.pid,
        parity: record.parity,
    };
    group.try_vector(rt, &packet, &record.vector)
}

// A packet, clear and scrambled, with the word, the PID and the parity.
#[derive(Drop)]
struct Record {
    pid: u16,
    parity: Parity,
    vector: Vector,
}

fn read_record(heap: Global, file: &mut BufReader<File>) -> anyhow::Result<Record> {
    let word = read_array(file)?;
    let pid = read_array(file)?;
    let [control] = read_array::<1>(file)?;
    Ok(Record {
        pid: u16::from_be_bytes(pid),
        parity: parity_of(control).context("no parity")?,
        vector: Vector {
            word: Word::from_bytes(&word),
            clear: read_packet(heap, file)?,
            scrambled: read_packet(heap, file)?,
        },
    })
}

fn read_array<const N: usize>(file: &mut BufReader<File>) -> io::Result<[u8; N]> {
    let mut bytes = [0; N];
    file.read_exact(&mut bytes)?;
    Ok(bytes)
}

fn read_packet(heap: Global, file: &mut BufReader<File>) -> anyhow::Result<Vec<u8>> {
    let mut packet = vec![in heap; 0; PACKET_LEN]?;
    file.read_exact(packet.as_mut_slice())?;
    Ok(packet)
}

/// The parity that the two control bits of a scrambled packet stand for.
// Not the parity byte of wire, 0 or 1: these are a packet's control bits, and two of the four stand for no parity.
pub fn parity_of(control: u8) -> Option<Parity>
    ensures { result ≡ parity_of control }
{
    match control {
        2 => Some(Parity::Even),
        3 => Some(Parity::Odd),
        _ => None,
    }
}
