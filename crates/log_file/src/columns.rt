// What the columns of a line stand for.
ghost use Rattle.std.specs.Prelude.{◌≡◌, IfSome, IfOk};
ghost use Rattle.std.specs.Str.Parse.{digits_value, without_leading_plus};
ghost use Rattle.log_file.specs.Columns.{NamesKind};

use crate::faults::Cause;
use crate::line::Kind;
use std::alloc::Global;
use std::str::FromStr;
use word::{Moment, Service};

// A number of decimal digits and nothing else.
fn decimal(text: &str) -> Option<u32>
    ensures { IfSome result (λ n. n ≡ digits_value 10 (without_leading_plus text.now)) }
{
    if !text.bytes().all(|byte| byte.is_ascii_digit()) {
        return None;
    }
    text.parse().ok()
}

// These are functions and no `FromStr`: the types are `word`'s and std's, and what is refused is a column of a line.

pub(crate) fn service_of(text: &str) -> Result<Service, Cause>
    ensures { IfOk result (λ s. s.number ≡ digits_value 10 (without_leading_plus text.now)) }
{
    decimal(text)
        .and_then(|number| u8::try_from(number).ok())
        .and_then(Service::new)
        .ok_or(Cause::Service)
}

/// A moment in decimal.
pub fn moment_of(text: &str) -> Result<Moment, Cause>
    ensures { IfOk result (λ m. m.seconds ≡ digits_value 10 (without_leading_plus text.now)) }
{
    decimal(text).and_then(Moment::new).ok_or(Cause::Moment)
}

impl FromStr for Kind {
    type Err = Cause;

    ghost from_str_gives = { NamesKind };

    fn from_str(text: &str) -> Result<Kind, Cause> {
        match text {
            "word" => Ok(Kind::Word),
            "encrypted" => Ok(Kind::Encrypted),
            _ => Err(Cause::Kind),
        }
    }
}

// A PID in decimal, or in hexadecimal after 0x.
fn pid_of(text: &str) -> Result<u16, Cause> {
    let pid = match text.strip_prefix("0x") {
        Some(digits) => u16::from_str_radix(digits, 16),
        None => text.parse(),
    };
    pid.map_err(|_| Cause::Pid)
}

/// The PIDs of a list with commas.
pub fn pids_of(heap: Global, list: &str) -> Result<Vec<u16>, Cause> {
    list.split(',').map(pid_of).try_collect(heap)
}

/// The PIDs of a line; a dash stands for none.
pub(crate) fn further_pids_of(heap: Global, list: &str) -> Result<Vec<u16>, Cause> {
    if list == "-" {
        return Ok(Vec::new(heap));
    }
    pids_of(heap, list)
}
