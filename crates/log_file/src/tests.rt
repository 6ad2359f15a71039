use crate::{BadLog, Kind, moment_of, read_log};
use std::alloc::Global;
use std::test::Fail;
use word::{Moment, Parity};

const LOG: &str = "# service 3 has two words\n\n\
    3\t0x100,257 even word 00112233 44556677 8899aabb ccddeeff 1000\r\n\
    3 - odd word ffeeddcc bbaa9988 77665544 33221100 1300\n\
    # the end\n";

const TWICE: &str = "3 256 even word 00112233 44556677 8899aabb ccddeeff 1000\n\
    3 256 even word ffeeddcc bbaa9988 77665544 33221100 1300\n";

// What is said of a log that is refused at a line.
fn refusal(heap: Global, text: &str) -> Result<String, Fail> {
    match read_log(heap, text, None) {
        Err(BadLog::Line(fault)) => Ok(fault.to_string(heap)?),
        Err(BadLog::NoLine) => Err(Fail::new("the log has no line")),
        Ok(_) => Err(Fail::new("the log was read")),
    }
}

// How many lines count up to a moment.
fn counted(heap: Global, text: &str, at: Option<Moment>) -> usize {
    match read_log(heap, text, at) {
        Ok(log) => log.lines.len(),
        Err(_) => 0,
    }
}

#[test]
fn reads_columns(rt: HostRuntime) -> Result<(), Fail> {
    let Ok(log) = read_log(rt.alloc(), LOG, None) else {
        return Err(Fail::new("the log was refused"));
    };
    assert!(rt; matches!(log.kind, Kind::Word));
    let [first, second] = log.lines.as_slice() else {
        return Err(Fail::new("the log has two lines"));
    };
    assert_eq!(rt; (first.number, second.number), (3, 4));
    assert_eq!(rt; first.service.number(), 3);
    assert_eq!(rt; first.pids.as_slice(), [256, 257].as_slice());
    assert_eq!(rt; second.pids.len(), 0);
    assert_eq!(rt; second.parity, Parity::Odd);
    assert_eq!(rt; second.moment.seconds(), 1300);
    assert_eq!(rt;
        u128::from_be_bytes(second.entry),
        0xffeeddccbbaa99887766554433221100
    );
    Ok(())
}

#[test]
fn says_what_is_wrong(rt: HostRuntime) -> Result<(), Fail> {
    let heap = rt.alloc();
    let parity = refusal(
        heap,
        "#\n0 32 Odd word 00112233 44556677 8899aabb ccddeeff 0",
    )?;
    assert_eq!(rt; parity.as_str(), "log line 2: the parity is even or odd");
    let digit = refusal(heap, "0 32 odd word 00112233 4455667g 8899aabb ccddeeff 0")?;
    assert_eq!(rt;
        digit.as_str(),
        "log line 1: refused: 19 (a character of the word is no hexadecimal digit), group 1, position 7"
    );
    let twice = refusal(heap, TWICE)?;
    assert_eq!(rt;
        twice.as_str(),
        "log line 2: the service has a word of this parity already, and no --at says which one counts"
    );
    Ok(())
}

#[test]
fn counts_up_to_a_moment(rt: HostRuntime) {
    let heap = rt.alloc();
    assert_eq!(rt; counted(heap, TWICE, moment_of("999").ok()), 0);
    assert_eq!(rt; counted(heap, TWICE, moment_of("1000").ok()), 1);
    assert_eq!(rt; counted(heap, TWICE, moment_of("4000000000").ok()), 2);
    assert!(rt; moment_of("4000000001").is_err());
    assert!(rt; moment_of("+5").is_err());
}

#[test]
fn wants_the_right_identifier(rt: HostRuntime) -> Result<(), Fail> {
    let Ok(log) = read_log(rt.alloc(), LOG, None) else {
        return Err(Fail::new("the log was refused"));
    };
    assert!(rt; log.misfit(false).is_none());
    let Some(fault) = log.misfit(true) else {
        return Err(Fail::new("an identifier has no use here"));
    };
    assert_eq!(rt; fault.line, 3);
    Ok(())
}
