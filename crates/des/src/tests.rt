// A worked example, and known answers of NIST SP 800-17 (which has those of SP 500-20); all confirmed with OpenSSL.
use super::{SCHEDULE_LEN, decipher, encipher, key_schedule};
use std::process::Abort;

// Under the key, `plain` enciphers to `cipher`, and that deciphers to it.
fn answer(rt: &impl Abort, key: u64, plain: u64, cipher: u64) {
    let mut schedule = [0; SCHEDULE_LEN];
    key_schedule(&key.to_be_bytes(), &mut schedule);
    let mut block = plain.to_be_bytes();
    encipher(&schedule, &mut block);
    assert_eq!(rt; u64::from_be_bytes(block), cipher);
    decipher(&schedule, &mut block);
    assert_eq!(rt; u64::from_be_bytes(block), plain);
}

#[test]
fn worked_example(rt: HostRuntime) {
    answer(
        &rt,
        0x133457799bbcdff1,
        0x0123456789abcdef,
        0x85e813540f0ab405,
    );
}

#[test]
fn variable_plaintext(rt: HostRuntime) {
    answer(
        &rt,
        0x0101010101010101,
        0x8000000000000000,
        0x95f8a5e5dd31d900,
    );
    answer(
        &rt,
        0x0101010101010101,
        0x0000000080000000,
        0xe943d7568aec0c5c,
    );
    answer(
        &rt,
        0x0101010101010101,
        0x0000000000000001,
        0x166b40b44aba4bd6,
    );
}

#[test]
fn variable_key(rt: HostRuntime) {
    answer(
        &rt,
        0x8001010101010101,
        0x0000000000000000,
        0x95a8d72813daa94d,
    );
    answer(
        &rt,
        0x0101010120010101,
        0x0000000000000000,
        0xb7265f7f447ac6f3,
    );
    answer(
        &rt,
        0x0101010101010102,
        0x0000000000000000,
        0x869efd7f9f265a09,
    );
}

#[test]
fn permutation_operation(rt: HostRuntime) {
    answer(
        &rt,
        0x1046913489980131,
        0x0000000000000000,
        0x88d55e54f54c97b4,
    );
    answer(
        &rt,
        0x1007103489988020,
        0x0000000000000000,
        0x0c0cc00c83ea48fd,
    );
    answer(
        &rt,
        0x10071034c8980120,
        0x0000000000000000,
        0x83bc8ef3a6570183,
    );
}

#[test]
fn substitution_table(rt: HostRuntime) {
    answer(
        &rt,
        0x7ca110454a1a6e57,
        0x01a1d6d039776742,
        0x690f5b0d9a26939b,
    );
    answer(
        &rt,
        0x0131d9619dc1376e,
        0x5cd54ca83def57da,
        0x7a389d10354bd271,
    );
    answer(
        &rt,
        0x07a1133e4a0b2686,
        0x0248d43806f67172,
        0x868ebb51cab4599a,
    );
    answer(
        &rt,
        0x1c587f1c13924fef,
        0x305532286d6f295a,
        0x63fac0d034d9f793,
    );
}
