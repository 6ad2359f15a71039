// Holds the element to bytes that other software made: vectors that standards publish, and packets of
// every payload length. Prints a line for each group of them, and a line for each mismatch.
#![tactic(auto)]

mod group;
mod hex;
mod keyring;
mod mismatch;
mod packets;
mod published;
mod subject;
mod vector;

use anyhow::anyhow;
use profile::{cissa_profile, des_profile, idsa_profile};

fn main(rt: HostRuntime) -> anyhow::Result<()> {
    run(&rt)
}

// Fails where any group disagrees, once all were tried.
fn run(rt: &HostRuntime) -> anyhow::Result<()> {
    let published = published::try_published(rt)?;
    let cissa = packets::try_packets(rt, "cissa.packets", &cissa_profile())?;
    let idsa = packets::try_packets(rt, "idsa.packets", &idsa_profile())?;
    let des = packets::try_packets(rt, "des.packets", &des_profile())?;
    if published && cissa && idsa && des {
        return Ok(());
    }
    Err(anyhow!("the element disagrees with other software"))
}
