// The fields of an input, one behind the other.
ghost use Rattle.std.specs.Prelude.{◌≡◌, ◌+◌, true, false, List, [], ◌∷◌, ◌++◌, drop, IfOk, MatchOption, OnOk};
ghost use Rattle.engine.specs.Model.{Given};
ghost use Rattle.engine.specs.Runs.{Call, Run};
ghost use Rattle.law.specs.Law.{After};
ghost use Rattle.wire.specs.Answered.{Answered, field_of};
ghost use Rattle.wire.specs.Fields.{stated, lacking, holds_field, first_field, fields_in, rest_in, state_through, calls_through, cut_answer, output_to};
ghost use Rattle.wire.specs.Programs.{view_of, state_of};

use crate::faults::ProgramFault;
use crate::reply::Reply;
use crate::session::Session;
use cipher::ClearTail;
use law::every_run_is_lawful;
use profile::Aes128;
use shelf::{Pacing, PlainShelf};
use std::alloc::{AllocError, Global};

/// A field of an input.
#[derive(Clone, Copy)]
struct Field<'a> {
    tag: u8,
    value: &'a [u8],
}

// The field at the start of an input and what is behind it, if all of the field is there.
fn split_field(input: &[u8]) -> Option<(Field<'_>, &[u8])>
    ensures { MatchOption result (holds_field input.now ≡ false) (λ split. (holds_field input.now ≡ true) × (field_of split.0.tag split.0.value.now ≡ first_field input.now) × (split.1.now ≡ drop (3 + stated input.now) input.now)) }
{
    let [tag, high, low, behind @ ..] = input else {
        return None;
    };
    let length = usize::from(u16::from_be_bytes([*high, *low]));
    let (value, rest) = behind.split_at_checked(length)?;
    Some((Field { tag: *tag, value }, rest))
}

/// How many bytes more a field that begins so has at least: those of its tag and length, and then those of its value.
pub fn missing(field: &[u8]) -> usize
    ensures { result ≡ lacking field.now }
{
    let [_, high, low, value @ ..] = field else {
        return 3 - field.len();
    };
    let length = usize::from(u16::from_be_bytes([*high, *low]));
    length.saturating_sub(value.len())
}

impl Session {
    // Answers one field behind what is written.
    fn answer_one(
        &mut self,
        heap: Global,
        field: Field<'_>,
        out: &mut Vec<u8>,
    ) -> Result<(), AllocError>
        ensures { OnOk result (Answered self.old.engine out.old.items (field_of field.entry.tag field.entry.value.now ∷ []) self.new.engine out.new.items) }
    {
        let mut left = Vec::from_slice(heap, field.value)?;
        let reply = self.answer(field.tag, left.as_mut_slice());
        reply.write(left.as_slice(), out)
    }

    // Answers the whole fields of an input, and hands back the bytes behind them.
    fn answer_whole<'a>(
        &mut self,
        heap: Global,
        input: &'a [u8],
        out: &mut Vec<u8>,
    ) -> Result<&'a [u8], AllocError>
        ensures rest { IfOk result (λ rest. rest.now ≡ rest_in input.now) }
        ensures answered { OnOk result (Answered self.old.engine out.old.items (fields_in input.now) self.new.engine out.new.items) }
    {
        let mut rest = input;
        while let Some((field, behind)) = split_field(rest) {
            self.answer_one(heap, field, out)?;
            rest = behind;
        }
        Ok(rest)
    }

    /// Answers every field of an input, one behind the other, behind what is written; where the input ends inside a field,
    /// that is answered last. The law of every run holds of the calls that the fields make.
    /// Without memory it stops: what it wrote until then is no answer, and the session can only be ended.
    pub fn answer_all(
        &mut self,
        heap: Global,
        input: &[u8],
        out: &mut Vec<u8>,
    ) -> Result<(), AllocError>
        ensures out { OnOk result (out.new.items ≡ out.old.items ++ output_to (state_of self.old.engine) input.now) }
        ensures state { OnOk result (state_of self.new.engine ≡ state_through (state_of self.old.engine) (fields_in input.now)) }
        ensures runs { OnOk result ((given : Given) (calls : List Call) → Run view_of given calls self.old.engine → Run view_of given (calls_through (state_of self.old.engine) (fields_in input.now) calls) self.new.engine) }
        ensures lawful { OnOk result ((given : Given) (calls : List Call) → Run view_of given calls self.old.engine → After given (calls_through (state_of self.old.engine) (fields_in input.now) calls) (view_of self.new.engine)) }
    {
        every_run_is_lawful::<
            Aes128,
            ClearTail,
            Pacing<PlainShelf>,
            Aes128,
            ClearTail,
            Pacing<PlainShelf>,
        >();
        let rest = self.answer_whole(heap, input, out)?;
        answer_rest(rest, out)?;
        Ok(())
    }
}

// Answers the bytes behind the last whole field: nothing if there are none.
fn answer_rest(rest: &[u8], out: &mut Vec<u8>) -> Result<(), AllocError>
    ensures { OnOk result (out.new.items ≡ out.old.items ++ cut_answer rest.now) }
{
    if rest.is_empty() {
        return Ok(());
    }
    let cut = Reply {
        tag: 255,
        outcome: Err(ProgramFault::CutShort),
        with_value: false,
    };
    cut.write(&[], out)
}
