// An entry as states that move: each group given leads to the next state, and only the fourth group yields a value.
ghost use Rattle.std.specs.Prelude.{◌≡◌};
ghost use Rattle.entry.specs.Entered.{given, first_given, second_given, third_given, halves_given, word_given, identifier_given, entered_three, entered_word, entered_identifier};
ghost use Rattle.entry.specs.Groups.{group_of};

use crate::digits::{group_number, half};
use crate::faults::EntryFault;
use word::{Identifier, Word};

/// A refused group: the entry as it was, to be tried again, and why.
#[derive(Drop)]
pub struct Refused<State> {
    pub entry: State,
    pub fault: EntryFault,
}

/// The start of an entry.
#[derive(Drop)]
pub struct NoGroups;

/// An entry with its leftmost group.
#[derive(Drop)]
pub struct OneGroup {
    first: u32,
}

#[derive(Drop)]
pub struct TwoGroups {
    first: u32,
    second: u32,
}

/// An entry that wants only its rightmost group.
#[derive(Drop)]
pub struct ThreeGroups {
    first: u32,
    second: u32,
    third: u32,
}

// The number of the next group beside the state, or the state handed back with the fault.
fn taken<State>(entry: State, group: u8, text: &str) -> Result<(State, u32), Refused<State>>
    ensures { result ≡ given entry (λ n. (entry, n)) (group_of group text.now) }
{
    match group_number(group, text.as_bytes()) {
        Ok(number) => Ok((entry, number)),
        Err(fault) => Err(Refused { entry, fault }),
    }
}

impl NoGroups {
    pub fn group(self, text: &str) -> Result<OneGroup, Refused<NoGroups>>
        ensures { result ≡ first_given self text.now }
    {
        let (_, first) = taken(self, 0, text)?;
        Ok(OneGroup { first })
    }
}

impl OneGroup {
    pub fn group(self, text: &str) -> Result<TwoGroups, Refused<OneGroup>>
        ensures { result ≡ second_given self text.now }
    {
        let (OneGroup { first }, second) = taken(self, 1, text)?;
        Ok(TwoGroups { first, second })
    }
}

impl TwoGroups {
    pub fn group(self, text: &str) -> Result<ThreeGroups, Refused<TwoGroups>>
        ensures { result ≡ third_given self text.now }
    {
        let (TwoGroups { first, second }, third) = taken(self, 2, text)?;
        Ok(ThreeGroups {
            first,
            second,
            third,
        })
    }
}

impl ThreeGroups {
    /// The two halves of the value, the more significant first.
    fn halves(self, text: &str) -> Result<(u64, u64), Refused<ThreeGroups>>
        ensures { result ≡ halves_given self text.now }
    {
        let (entry, fourth) = taken(self, 3, text)?;
        let high = half(entry.first, entry.second);
        let low = half(entry.third, fourth);
        Ok((high, low))
    }

    /// The word, once the fourth group is given.
    // Beside `identifier`, and not generic: what is left in each, over `halves`, is the type that it makes.
    pub fn word(self, text: &str) -> Result<Word, Refused<ThreeGroups>>
        ensures { result ≡ word_given self text.now }
    {
        let (high, low) = self.halves(text)?;
        Ok(Word::new(high, low))
    }

    /// The identifier, once the fourth group is given.
    pub fn identifier(self, text: &str) -> Result<Identifier, Refused<ThreeGroups>>
        ensures { result ≡ identifier_given self text.now }
    {
        let (high, low) = self.halves(text)?;
        Ok(Identifier::new(high, low))
    }
}

impl<State: Drop> From<Refused<State>> for EntryFault {
    ghost from_gives = { λ refused r. r ≡ refused.fault };

    fn from(refused: Refused<State>) -> EntryFault {
        refused.fault
    }
}

/// The entry of three groups; the first that is refused decides.
fn three_groups(first: &str, second: &str, third: &str) -> Result<ThreeGroups, EntryFault>
    ensures { result ≡ entered_three first.now second.now third.now }
{
    Ok(NoGroups.group(first)?.group(second)?.group(third)?)
}

/// The word of four groups; the first that is refused decides.
// Beside `enter_identifier`, and not generic, as `ThreeGroups::word`.
pub fn enter_word(first: &str, second: &str, third: &str, fourth: &str) -> Result<Word, EntryFault>
    ensures { result ≡ entered_word first.now second.now third.now fourth.now }
{
    Ok(three_groups(first, second, third)?.word(fourth)?)
}

/// The identifier of four groups; the first that is refused decides.
pub fn enter_identifier(
    first: &str,
    second: &str,
    third: &str,
    fourth: &str,
) -> Result<Identifier, EntryFault>
    ensures { result ≡ entered_identifier first.now second.now third.now fourth.now }
{
    Ok(three_groups(first, second, third)?.identifier(fourth)?)
}
