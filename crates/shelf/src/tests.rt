use crate::{Pacing, PlainShelf, Shelf, ShelfFault, Unwrapping, examine};
use fault::{Layer, Refusal};
use std::process::Abort;
use std::test::Fail;
use word::{Identifier, Moment, Parity, Service, Word};

// The example of FIPS 197, appendix C.1: a key, an encrypted block, and the block itself as a word.
const KEY: [u8; 16] = [0, 1, 2, 3, 4, 5, 6, 7, 8, 9, 10, 11, 12, 13, 14, 15];

const ENCRYPTED: [u8; 16] = [
    0x69, 0xc4, 0xe0, 0xd8, 0x6a, 0x7b, 0x04, 0x30, 0xd8, 0xcd, 0xb7, 0x80, 0x70, 0xb4, 0xc5, 0x5a,
];

fn clear_word() -> Word {
    Word::new(0x0011_2233_4455_6677, 0x8899_aabb_ccdd_eeff)
}

fn service_3() -> Service {
    Service::new(3).unwrap()
}

/// What a put of the encrypted block for service 3, even, answers at that moment.
fn put_at<S: Shelf>(shelf: &mut S, seconds: u32) -> Result<Result<(), ShelfFault>, Fail> {
    let Some(moment) = Moment::new(seconds) else {
        return Err(Fail::new("no such moment"));
    };
    Ok(shelf.put(service_3(), Parity::Even, &ENCRYPTED, moment))
}

/// The bytes that service 3 holds.
fn held<S: Shelf>(shelf: &S, parity: Parity) -> Option<[u8; 16]> {
    shelf.word(service_3(), parity).map(|word| word.to_bytes())
}

fn too_soon(next: u64) -> Result<(), ShelfFault> {
    Err(ShelfFault::TooSoon { service: 3, next })
}

#[test]
fn words_are_ten_seconds_apart(rt: HostRuntime) -> Result<(), Fail> {
    let mut shelf = Pacing::new(PlainShelf::new());
    assert_eq!(rt; put_at(&mut shelf, 1000)?, Ok(()));
    assert_eq!(rt; put_at(&mut shelf, 1009)?, too_soon(1010));
    assert_eq!(rt; put_at(&mut shelf, 1010)?, Ok(()));
    Ok(())
}

#[test]
fn ten_words_fill_a_span(rt: HostRuntime) -> Result<(), Fail> {
    let mut shelf = Pacing::new(PlainShelf::new());
    for i in 0..10 {
        assert_eq!(rt; put_at(&mut shelf, 1200 + 10 * i)?, Ok(()));
    }
    assert_eq!(rt; put_at(&mut shelf, 1300)?, too_soon(1500));
    assert_eq!(rt; put_at(&mut shelf, 1500)?, Ok(()));
    Ok(())
}

/// A shelf that unwraps and paces, whichever is above.
fn unwraps_and_paces<S: Shelf + Drop>(rt: &impl Abort, mut shelf: S) -> Result<(), Fail> {
    assert_eq!(rt; examine(&shelf), Ok(()));
    assert_eq!(rt; put_at(&mut shelf, 1000)?, Ok(()));
    assert_eq!(rt; held(&shelf, Parity::Even), Some(clear_word().to_bytes()));
    assert_eq!(rt; held(&shelf, Parity::Odd), None);
    assert_eq!(rt; put_at(&mut shelf, 1009)?, too_soon(1010));
    assert_eq!(rt; examine(&shelf), Err(ShelfFault::HoldsWord));
    shelf.wipe(service_3());
    assert_eq!(rt; held(&shelf, Parity::Even), None);
    assert_eq!(rt; examine(&shelf), Err(ShelfFault::Loaded));
    assert_eq!(rt; put_at(&mut shelf, 1009)?, too_soon(1010));
    Ok(())
}

#[test]
fn unwrapping_above_pacing(rt: HostRuntime) -> Result<(), Fail> {
    let identifier = Identifier::from_bytes(&KEY);
    unwraps_and_paces(
        &rt,
        Unwrapping::new(identifier, Pacing::new(PlainShelf::new())),
    )
}

#[test]
fn pacing_above_unwrapping(rt: HostRuntime) -> Result<(), Fail> {
    let identifier = Identifier::from_bytes(&KEY);
    unwraps_and_paces(
        &rt,
        Pacing::new(Unwrapping::new(identifier, PlainShelf::new())),
    )
}

#[test]
fn a_plain_shelf_takes_an_entry_as_it_is(rt: HostRuntime) -> Result<(), Fail> {
    let mut shelf = PlainShelf::new();
    assert_eq!(rt; put_at(&mut shelf, 1000)?, Ok(()));
    assert_eq!(rt; put_at(&mut shelf, 999)?, Ok(()));
    assert_eq!(rt; held(&shelf, Parity::Even), Some(ENCRYPTED));
    shelf.wipe(service_3());
    assert_eq!(rt; examine(&shelf), Ok(()));
    Ok(())
}

#[test]
fn faults_say_their_number_and_places(rt: HostRuntime) {
    assert_eq!(rt;
        Refusal::from(ShelfFault::TooSoon {
            service: 3,
            next: 1010,
        }),
        Refusal {
            number: 10,
            layer: Layer::Shelf,
            first: 3,
            second: 1010,
        }
    );
    assert_eq!(rt; Refusal::from(ShelfFault::HoldsWord).number, 22);
    assert_eq!(rt; Refusal::from(ShelfFault::Loaded).number, 23);
}
