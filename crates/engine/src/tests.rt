use crate::{Engine, EngineFault, Grant, Unclosed};
use batch::Direction;
use cipher::{Cipher, ClearTail, TailRule};
use profile::{Aes128, cissa_profile};
use shelf::{Pacing, PlainShelf, Shelf};
use std::test::Fail;
use word::Parity;

const PID: u16 = 0x0101;

const ENTRY: [u8; 16] = [0, 1, 2, 3, 4, 5, 6, 7, 8, 9, 10, 11, 12, 13, 14, 15];

/// An engine with the CISSA profile over a pacing shelf.
fn cissa_engine(tag: u16) -> Engine<Aes128, ClearTail, Pacing<PlainShelf>> {
    let profile = cissa_profile();
    Engine::make(
        profile.cipher,
        profile.tail,
        profile.iv,
        Pacing::new(PlainShelf::new()),
        tag,
    )
}

/// Closes a service, or fails: only this crate can take a grant apart that is handed back.
fn closed<C: Cipher, T: TailRule, S: Shelf>(
    engine: &mut Engine<C, T, S>,
    grant: Grant,
) -> Result<(), Fail> {
    engine.close(grant).map_err(|unclosed| {
        let Unclosed { grant, fault: _ } = unclosed;
        let Grant { tag: _, service: _ } = grant;
        Fail::new("the grant was refused")
    })
}

/// Loads and picks a word of an open service, joins the PID to it, and has a batch go through.
fn pass<C: Cipher, T: TailRule, S: Shelf>(
    engine: &mut Engine<C, T, S>,
    service: u8,
    direction: Direction,
    batch: &mut [u8],
) -> Result<(usize, usize), EngineFault> {
    engine.load(service, Parity::Odd, &ENTRY, 1000)?;
    engine.pick(service, Parity::Odd)?;
    engine.join(service, PID)?;
    let mut area = [0; 176];
    match direction {
        Direction::Scramble => engine.scramble(&mut area, batch),
        Direction::Descramble => engine.descramble(&mut area, batch),
    }
}

/// The same from the service's opening to its close.
fn session<C: Cipher, T: TailRule, S: Shelf>(
    engine: &mut Engine<C, T, S>,
    service: u8,
    direction: Direction,
    batch: &mut [u8],
) -> Result<(usize, usize), Fail> {
    let grant = engine.open(service)?;
    let counts = pass(engine, service, direction, batch);
    closed(engine, grant)?;
    Ok(counts?)
}

/// A clear packet of the PID with a payload of 184 equal bytes.
fn packet(pid: u16, value: u8) -> [u8; 188] {
    let [high, low] = pid.to_be_bytes();
    let mut packet = [value; 188];
    packet[..4].copy_from_slice(&[0x47, high, low, 0x15]);
    packet
}

#[test]
fn a_packet_comes_back_at_another_engine(rt: HostRuntime) -> Result<(), Fail> {
    let clear = packet(PID, 7);
    let mut batch = clear;
    assert_eq!(rt;
        session(&mut cissa_engine(1), 3, Direction::Scramble, &mut batch)?,
        (1, 0)
    );
    assert_eq!(rt; batch[3], 0xd5);
    assert!(rt; batch[4] != 7 || batch[5] != 7);
    assert_eq!(rt;
        session(&mut cissa_engine(2), 5, Direction::Descramble, &mut batch)?,
        (1, 0)
    );
    assert_eq!(rt; batch, clear);
    Ok(())
}

#[test]
fn an_empty_batch_is_answered_0_and_0(rt: HostRuntime) {
    let engine = cissa_engine(1);
    let mut area = [1; 176];
    assert_eq!(rt; engine.scramble(&mut area, &mut []), Ok((0, 0)));
    assert_eq!(rt; area, [0; 176]);
    assert_eq!(rt; engine.descramble(&mut area, &mut []), Ok((0, 0)));
}

#[test]
fn another_engine_hands_a_grant_back(rt: HostRuntime) -> Result<(), Fail> {
    let mut engine = cissa_engine(1);
    let mut other = cissa_engine(2);
    let grant = engine.open(3)?;
    let Err(unclosed) = other.close(grant) else {
        return Err(Fail::new("the grant was taken"));
    };
    let Unclosed { grant, fault } = unclosed;
    closed(&mut engine, grant)?;
    assert_eq!(rt; fault, EngineFault::BadGrant);
    Ok(())
}
