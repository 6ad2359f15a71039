// Vectors that standards publish: a file for each source, whose first line is the source's name.
ghost use Rattle.std.specs.Prelude.{IfOk};
ghost use Rattle.vectors.specs.Hex.{SpelledVector};

use crate::group::Group;
use crate::hex::{decode, decode_16};
use crate::packets::parity_of;
use crate::subject::{Block, Packet, Payload};
use crate::vector::Vector;
use anyhow::{Context, anyhow};
use cipher::{Cipher, ClearTail, Profile};
use profile::{Aes128, Des, cissa_profile};
use std::alloc::Global;
use std::fs::File;
use std::io::{BufRead, BufReader};
use word::Word;

const SOURCES: [&str; 9] = [
    "fips-197-b.txt",
    "fips-197-c1.txt",
    "sp-800-38a.txt",
    "ts-103-127.txt",
    "tech-3292.txt",
    "sp-500-20-plaintext.txt",
    "sp-500-20-key.txt",
    "sp-500-20-permutation.txt",
    "sp-500-20-substitution.txt",
];

/// Tries every source, and answers whether the element met all of it.
pub fn try_published(rt: &HostRuntime) -> anyhow::Result<bool> {
    SOURCES
        .into_iter()
        .try_fold(true, |met, path| Ok(try_source(rt, path)? && met))
}

fn try_source(rt: &HostRuntime, path: &str) -> anyhow::Result<bool> {
    let mut lines = BufReader::new(rt.alloc(), File::open(rt, path)?)?.lines(rt.alloc());
    let Some(name) = lines.next() else {
        return Err(anyhow!("a source with no name"));
    };
    let mut group = Group::new(name?);
    for line in lines {
        try_line(rt, &mut group, line?.as_str())?;
    }
    Ok(group.finish(rt)?)
}

fn try_line(rt: &HostRuntime, group: &mut Group, line: &str) -> anyhow::Result<()> {
    let Some((kind, rest)) = line.split_once(' ') else {
        return Err(anyhow!("a line that is no vector"));
    };
    let fields: Vec<&str> = rest.split(' ').collect(rt.alloc())?;
    match kind {
        "aes" => try_block(rt, group, Aes128, fields.as_slice()),
        "des" => try_block(rt, group, Des, fields.as_slice()),
        "cbc" => try_chain(rt, group, fields.as_slice()),
        "cissa" => try_cissa(rt, group, fields.as_slice()),
        _ => Err(anyhow!("no such kind of vector")),
    }
}

// One block of a cipher.
fn try_block<C: Cipher + Drop>(
    rt: &HostRuntime,
    group: &mut Group,
    cipher: C,
    fields: &[&str],
) -> anyhow::Result<()> {
    let [word, clear, scrambled] = fields else {
        return Err(anyhow!("a block has a word, a clear and a scrambled side"));
    };
    let vector = vector_of(rt.alloc(), word, clear, scrambled)?;
    group.try_vector(rt, &Block(cipher), &vector)
}

// AES chained from an initial vector, with the clear rule.
fn try_chain(rt: &HostRuntime, group: &mut Group, fields: &[&str]) -> anyhow::Result<()> {
    let [word, iv, clear, scrambled] = fields else {
        return Err(anyhow!("a chain has a word, a vector, a clear and a scrambled side"));
    };
    let profile = Profile {
        cipher: Aes128,
        tail: ClearTail,
        iv: decode_16(rt.alloc(), iv)?,
    };
    let vector = vector_of(rt.alloc(), word, clear, scrambled)?;
    group.try_vector(rt, &Payload(profile), &vector)
}

// A packet under CISSA.
fn try_cissa(rt: &HostRuntime, group: &mut Group, fields: &[&str]) -> anyhow::Result<()> {
    let [word, pid, control, clear, scrambled] = fields else {
        return Err(anyhow!("a packet has a word, a PID, a control, a clear and a scrambled side"));
    };
    let packet = Packet {
        profile: &cissa_profile(),
        pid: pid.parse::<u16>()?,
        parity: parity_of(control.parse::<u8>()?).context("no parity")?,
    };
    let vector = vector_of(rt.alloc(), word, clear, scrambled)?;
    group.try_vector(rt, &packet, &vector)
}

fn vector_of(heap: Global, word: &str, clear: &str, scrambled: &str) -> anyhow::Result<Vector>
    ensures { IfOk result (λ v. SpelledVector word.now clear.now scrambled.now v.word v.clear.items v.scrambled.items) }
{
    Ok(Vector {
        word: Word::from_bytes(&decode_16(heap, word)?),
        clear: decode(heap, clear)?,
        scrambled: decode(heap, scrambled)?,
    })
}
