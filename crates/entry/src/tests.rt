use crate::{EntryFault, NoGroups, enter_identifier, enter_word};
use fault::{Layer, Refusal};
use std::test::Fail;
use word::Word;

/// Why a second group is refused, after a first that is right.
fn second_fault(text: &str) -> Option<EntryFault> {
    match enter_word("00112233", text, "8899aabb", "ccddeeff") {
        Ok(_) => None,
        Err(fault) => Some(fault),
    }
}

#[test]
fn groups_make_a_word(rt: HostRuntime) -> Result<(), Fail> {
    let word = enter_word("00112233", "44556677", "8899aabb", "ccddeeff")?;
    assert_eq!(rt;
        word.to_bytes(),
        Word::new(0x0011_2233_4455_6677, 0x8899_aabb_ccdd_eeff).to_bytes()
    );
    Ok(())
}

#[test]
fn digits_of_both_cases(rt: HostRuntime) -> Result<(), Fail> {
    let word = enter_word("01234567", "89abcdef", "89ABCDEF", "fFaA09Bc")?;
    assert_eq!(rt;
        word.to_bytes(),
        Word::new(0x0123_4567_89ab_cdef, 0x89ab_cdef_ffaa_09bc).to_bytes()
    );
    Ok(())
}

#[test]
fn other_lengths_are_refused(rt: HostRuntime) {
    assert_eq!(rt;
        second_fault(""),
        Some(EntryFault::Length {
            group: 1,
            length: 0,
        })
    );
    assert_eq!(rt;
        second_fault("4455667"),
        Some(EntryFault::Length {
            group: 1,
            length: 7,
        })
    );
    assert_eq!(rt;
        second_fault("445566778"),
        Some(EntryFault::Length {
            group: 1,
            length: 9,
        })
    );
    // Seven characters, of which one takes two bytes.
    assert_eq!(rt;
        second_fault("445566é"),
        Some(EntryFault::Digit {
            group: 1,
            position: 6,
        })
    );
}

#[test]
fn the_first_other_character_is_refused(rt: HostRuntime) {
    assert_eq!(rt;
        second_fault("g455667x"),
        Some(EntryFault::Digit {
            group: 1,
            position: 0,
        })
    );
    assert_eq!(rt;
        second_fault("4455667:"),
        Some(EntryFault::Digit {
            group: 1,
            position: 7,
        })
    );
    assert_eq!(rt;
        second_fault("44 56677"),
        Some(EntryFault::Digit {
            group: 1,
            position: 2,
        })
    );
    assert_eq!(rt; second_fault("44556677"), None);
}

#[test]
fn a_refused_group_is_tried_again(rt: HostRuntime) -> Result<(), Fail> {
    let Ok(one) = NoGroups.group("00112233") else {
        return Err(Fail::new("the first group"));
    };
    let Err(refused) = one.group("4455667") else {
        return Err(Fail::new("the short group"));
    };
    assert_eq!(rt;
        refused.fault,
        EntryFault::Length {
            group: 1,
            length: 7,
        }
    );
    let Ok(two) = refused.entry.group("44556677") else {
        return Err(Fail::new("the second group"));
    };
    let Ok(three) = two.group("8899AABB") else {
        return Err(Fail::new("the third group"));
    };
    let Err(again) = three.word("ccddeefg") else {
        return Err(Fail::new("the fourth group with a bad digit"));
    };
    assert_eq!(rt;
        again.fault,
        EntryFault::Digit {
            group: 3,
            position: 7,
        }
    );
    let Ok(word) = again.entry.word("CCDDEEFF") else {
        return Err(Fail::new("the fourth group"));
    };
    assert_eq!(rt;
        word.to_bytes(),
        enter_word("00112233", "44556677", "8899aabb", "ccddeeff")?.to_bytes()
    );
    Ok(())
}

#[test]
fn faults_say_their_number_and_places(rt: HostRuntime) -> Result<(), Fail> {
    let Err(fault) = enter_identifier("00112233", "44556677", "8899aabb", "ccddeef") else {
        return Err(Fail::new("the short group"));
    };
    assert_eq!(rt;
        Refusal::from(fault),
        Refusal {
            number: 18,
            layer: Layer::Entry,
            first: 3,
            second: 7,
        }
    );
    assert_eq!(rt;
        Refusal::from(EntryFault::Digit {
            group: 2,
            position: 5,
        }),
        Refusal {
            number: 19,
            layer: Layer::Entry,
            first: 2,
            second: 5,
        }
    );
    Ok(())
}
