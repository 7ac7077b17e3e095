// The conditions of a search.
ghost use Rattle.std.specs.Prelude.{
  ◌≡◌,
  ◌≢◌,
  ◌++◌,
  ◌⊎◌,
  List,
  [],
  ◌∷◌,
  All,
  Option,
  None,
  codes,
  IfOk,
  IfSome,
  IfNone,
};
ghost use Rattle.info_filter.specs.declared.condition.Condition.{Condition};
ghost use Rattle.kb_geometry.specs.declared.stone.Outcome.{Outcome};
ghost use Rattle.query_script.specs.declared.word.Word.{Word};
ghost use Rattle.query_script.specs.declared.word.Word.TheVariants as word;
ghost use Rattle.query_script.specs.Conditions.{AreConditions, IsCondition, outcome_word};
ghost use Rattle.query_script.specs.Reading.{BeginsWithWhere};
ghost use Rattle.query_script.specs.Words.{bare};

use crate::search_words::{behind_name, two_words};
use crate::word::Word;
use game_tree::Bytes;
use info_filter::{Condition, ConditionList, Filter, written_day};
use kb_geometry::{NoMemory, Outcome};
use std::alloc::Global;

// The words before `where`, and the words from it on; without it these are none.
pub(crate) fn parted_at_where(words: &[Word]) -> (&[Word], &[Word])
    ensures split { words.now ≡ result.0.now ++ result.1.now }
    ensures before { All (λ (w : Word). w ≢ bare (codes "where")) result.0.now }
    ensures from { (result.1.now ≡ []) ⊎ BeginsWithWhere result.1.now }
{
    match words.iter().position(|word| word.is_bare(b"where")) {
        Some(at) => words.split_at(at),
        None => (words, &[]),
    }
}

// The filter of `where COND` and any number of `and COND`; of no word, the filter without a
// condition. The only error is `NoMemory`.
pub(crate) fn filter_of(alloc: Global, words: &[Word]) -> Result<Option<Filter>, NoMemory>
    ensures some { IfOk result (λ found. IfSome found (λ filter.
        AreConditions (codes "where") filter.conditions words.now)) }
    ensures none { IfOk result (λ found. IfNone found ((conditions : List Condition) →
        ¬ AreConditions (codes "where") conditions words.now)) }
{
    let mut conditions = Vec::new(alloc);
    let mut joining: &[u8] = b"where";
    let mut rest = words;
    while !rest.is_empty() {
        match first_condition(alloc, joining, rest) {
            Ok(Some((condition, behind))) => {
                conditions.push(condition)?;
                joining = b"and";
                rest = behind;
            }
            Ok(None) => return Ok(None),
            Err(error) => return Err(error),
        }
    }
    Ok(Some(Filter {
        conditions: ConditionList::new(conditions),
    }))
}

// The condition with which the words begin, behind a joining word, and the words behind it. The
// only error is `NoMemory`.
fn first_condition<'a>(
    alloc: Global,
    joining: &[u8],
    words: &'a [Word],
) -> Result<Option<(Condition, &'a [Word])>, NoMemory>
    ensures some { IfOk result (λ found. IfSome found (λ r. (kind value : Word)
        × (words.now ≡ bare joining.now ∷ kind ∷ value ∷ r.1.now) × IsCondition r.0 kind value)) }
    ensures none { IfOk result (λ found. IfNone found ((c : Condition) (kind value : Word)
        (rest : List Word) → words.now ≡ bare joining.now ∷ kind ∷ value ∷ rest →
        ¬ IsCondition c kind value)) }
{
    let Some(behind) = behind_name(words, joining) else {
        return Ok(None);
    };
    let Some((kind, value, rest)) = two_words(behind) else {
        return Ok(None);
    };
    match condition_of(alloc, kind, value)? {
        Some(condition) => Ok(Some((condition, rest))),
        None => Ok(None),
    }
}

// The condition that two words spell. The only error is `NoMemory`.
fn condition_of(alloc: Global, kind: &Word, value: &Word) -> Result<Option<Condition>, NoMemory>
    ensures some { IfOk result (λ found. IfSome found (λ c. IsCondition c kind.now value.now)) }
    ensures none { IfOk result (λ found. IfNone found ((c : Condition) →
        ¬ IsCondition c kind.now value.now)) }
{
    match value {
        Word::Quoted(text) => Ok(text_condition(kind, text.copy(alloc)?)),
        Word::Bare(bytes) => Ok(bare_condition(kind, bytes.as_slice())),
    }
}

// The condition of this kind that asks for a text.
fn text_condition(kind: &Word, text: Bytes) -> Option<Condition>
    ensures some { IfSome result (λ c. IsCondition c kind.now (word.Quoted text)) }
    ensures none { IfNone result ((c : Condition) → ¬ IsCondition c kind.now (word.Quoted text)) }
{
    if kind.is_bare(b"player") {
        return Some(Condition::Player(text));
    }
    if kind.is_bare(b"black") {
        return Some(Condition::Black(text));
    }
    if kind.is_bare(b"white") {
        return Some(Condition::White(text));
    }
    if kind.is_bare(b"event") {
        return Some(Condition::Event(text));
    }
    if kind.is_bare(b"place") {
        return Some(Condition::Place(text));
    }
    None
}

// The condition of this kind that asks for a result or a day.
fn bare_condition(kind: &Word, value: &[u8]) -> Option<Condition>
    ensures some { IfSome result (λ c. IsCondition c kind.now (bare value.now)) }
    ensures none { IfNone result ((c : Condition) → ¬ IsCondition c kind.now (bare value.now)) }
{
    if kind.is_bare(b"result") {
        return Some(Condition::Result(outcome_named(value)?));
    }
    if kind.is_bare(b"from") {
        return Some(Condition::From(written_day(value)?));
    }
    if kind.is_bare(b"to") {
        return Some(Condition::To(written_day(value)?));
    }
    None
}

// The class of a result with this name.
fn outcome_named(name: &[u8]) -> Option<Outcome>
    ensures some { IfSome result (λ o. name.now ≡ outcome_word o) }
    ensures none { result ≡ None → (o : Outcome) → name.now ≢ outcome_word o }
{
    if name == b"black".as_slice() {
        Some(Outcome::Black)
    } else if name == b"white".as_slice() {
        Some(Outcome::White)
    } else if name == b"draw".as_slice() {
        Some(Outcome::Draw)
    } else if name == b"void".as_slice() {
        Some(Outcome::Void)
    } else if name == b"unknown".as_slice() {
        Some(Outcome::Unknown)
    } else if name == b"other".as_slice() {
        Some(Outcome::Other)
    } else {
        None
    }
}
