// Filters, and the games that they accept. bstr finds bytes in texts.
ghost use Rattle.std.specs.Prelude.{◌≡◌, ◌↔◌, ◌≤ℤ◌, IfOk, IsSomeAnd, IsTrue};
ghost use Rattle.game_tree.specs.Result.{outcome_of};
ghost use Rattle.info_filter.specs.Day.{IsDayOf};
ghost use Rattle.info_filter.specs.Filter.{Accepts, HasBytes, IsMetBy};

use crate::{Condition, ConditionList, day_of};
use bstr::ByteSlice;
use game_tree::{Bytes, Info};
use kb_geometry::{NoMemory, Outcome};
use std::alloc::Global;

/// Conditions that are joined by *and*. Without any condition a filter accepts every game.
#[derive(Debug, Drop)]
pub struct Filter {
    pub conditions: ConditionList,
}

impl Filter {
    /// An equal filter. The only error is `NoMemory`.
    pub fn copy(&self, alloc: Global) -> Result<Filter, NoMemory>
        ensures { IfOk result (λ copied. copied ≡ self.now) }
    {
        let mut conditions = Vec::new(alloc);
        for condition in self.conditions.as_slice() {
            conditions.push(condition.copy(alloc)?)?;
        }
        Ok(Filter {
            conditions: ConditionList::new(conditions),
        })
    }
}

/// Whether a filter accepts the game of this information: whether it meets each of the filter's
/// conditions.
pub fn accepts(filter: &Filter, info: &Info) -> bool
    ensures { IsTrue result ↔ Accepts filter.now info.now }
{
    accepts_known(filter, info, day_of(info.date()), info.outcome())
}

/// The same for a game whose day and outcome are known, as where they are kept beside its tree: the
/// day that [`day_of`] gives for its date, and the class of its result.
pub fn accepts_known(filter: &Filter, info: &Info, day: Option<i32>, outcome: Outcome) -> bool
    requires day { IsDayOf info.now.date day }
    requires outcome { outcome ≡ outcome_of info.now.outcome_text }
    ensures { IsTrue result ↔ Accepts filter.now info.now }
{
    for condition in filter.conditions.as_slice() {
        if !is_met(condition, info, day, outcome) {
            return false;
        }
    }
    true
}

// Whether a condition is met by a game of this information, day and outcome.
fn is_met(condition: &Condition, info: &Info, day: Option<i32>, outcome: Outcome) -> bool
    requires day { IsDayOf info.now.date day }
    requires outcome { outcome ≡ outcome_of info.now.outcome_text }
    ensures { IsTrue result ↔ IsMetBy condition.now info.now }
{
    match condition {
        Condition::Player(name) => has_bytes(info.black(), name) || has_bytes(info.white(), name),
        Condition::Black(name) => has_bytes(info.black(), name),
        Condition::White(name) => has_bytes(info.white(), name),
        Condition::Event(name) => has_bytes(info.event(), name),
        Condition::Place(name) => has_bytes(info.place(), name),
        Condition::Result(wanted) => outcome == *wanted,
        Condition::From(first) => is_from(day, first),
        Condition::To(last) => is_to(day, last),
    }
}

// Whether there is a day, which is the first one or a later one.
fn is_from(day: Option<i32>, first: &i32) -> bool
    ensures { IsTrue result ↔ IsSomeAnd day (λ number. first.now ≤ℤ number) }
{
    day.is_some_and(|number| *first <= number)
}

// Whether there is a day, which is the last one or an earlier one.
fn is_to(day: Option<i32>, last: &i32) -> bool
    ensures { IsTrue result ↔ IsSomeAnd day (λ number. number ≤ℤ last.now) }
{
    day.is_some_and(|number| number <= *last)
}

// Whether these bytes stand somewhere in a text.
fn has_bytes(text: &[u8], bytes: &Bytes) -> bool
    ensures { IsTrue result ↔ HasBytes text.now bytes.now }
{
    text.contains_str(bytes.as_slice())
}
