// Texts and numbers that stand next in a record.
ghost use Rattle.std.specs.Prelude.{
  ◌≡◌,
  ◌≢◌,
  ◌↔◌,
  ◌+◌,
  ◌*◌,
  ◌++◌,
  ◌<◌,
  ◌≤◌,
  ◌^◌,
  ℕ,
  IfOk,
  IfSome,
  IsErrOf,
  IsTrue,
  List,
  None,
  OnOk,
  drop,
  length,
  slice_index_or,
  take,
};
ghost use Rattle.std.specs.Char.{digit_value};
ghost use Rattle.std.specs.Fmt.{decimal};
ghost use Rattle.std.specs.Str.Parse.{AllDigits, digits_value};
ghost use Rattle.run_audit.specs.Chosen.{IsChosen, StandsAt};
ghost use Rattle.run_audit.specs.Standing.{BeginsNoNumber, DepartsIn, DepartsInNumber, IsWithin};
ghost use Rattle.run_audit.specs.declared.stop.Stop.TheVariants as stop;

use crate::stop::Stop;
use kb_geometry::append_decimal;
use std::alloc::Global;

// The most digits of a number of 64 bits.
const MAX_DIGITS: usize = 20;

// What is left of a record behind a text that is to stand next.
pub(crate) fn behind<'a>(left: &'a [u8], text: &[u8]) -> Result<&'a [u8], Stop>
    ensures ok { IfOk result (λ rest. left.now ≡ text.now ++ rest.now) }
    ensures departs { (count : ℕ) → IsErrOf result (stop.Departs count) →
        DepartsIn left.now text.now count }
    ensures within { (count : ℕ) → IsErrOf result (stop.Departs count) → count ≤ length left.now }
    ensures shorter { IfOk result (λ rest. length rest.now ≤ length left.now) }
    ensures folder { ¬ IsErrOf result stop.FolderUnread }
    ensures memory { ¬ IsErrOf result stop.NoMemory }
{
    let same = same_len(left, text);
    if same < text.len() {
        return Err(Stop::Departs {
            left: left.len() - same,
        });
    }
    Ok(&left[same..])
}

// How many bytes two texts have in common from the front on.
fn same_len(one: &[u8], other: &[u8]) -> usize
    ensures within { (result ≤ length one.now) × (result ≤ length other.now) }
    ensures same { take result one.now ≡ take result other.now }
    ensures apart { result < length one.now → result < length other.now →
        (d : ℕ) → slice_index_or one.now result d ≢ slice_index_or other.now result d }
{
    let most = one.len().min(other.len());
    for at in 0..most {
        if one[at] != other[at] {
            return at;
        }
    }
    most
}

// The number that a record has next, if it is one of these, or else the least of them, at which the
// record departs.
pub(crate) fn number_named(alloc: Global, left: &[u8], least: u64, last: u64) -> Result<u64, Stop>
    requires { least ≤ last }
    ensures there { IfOk result (λ number. IsWithin least last number × StandsAt left.now number) }
    ensures departs { (count : ℕ) → IsErrOf result (stop.Departs count) →
        IsChosen (IsWithin least last) left.now least × DepartsInNumber left.now least count }
    ensures folder { ¬ IsErrOf result stop.FolderUnread }
{
    match number_among(left, least, last) {
        Some(number) => Ok(number),
        None => no_number(alloc, left, least),
    }
}

// That a record departs from this number, which doesn't stand next.
fn no_number(alloc: Global, left: &[u8], number: u64) -> Result<u64, Stop>
    ensures none { OnOk result ⊥ }
    ensures departs { (count : ℕ) → IsErrOf result (stop.Departs count) →
        ¬ StandsAt left.now number → DepartsInNumber left.now number count }
    ensures folder { ¬ IsErrOf result stop.FolderUnread }
{
    let mut digits = Vec::new(alloc);
    append_decimal(&mut digits, number)?;
    // What stands behind the digits here is another digit or nothing, and so not what is printed.
    let rest = behind(left, &digits)?;
    Err(Stop::Departs { left: rest.len() })
}

// The number that stands at the front of these bytes, if it is one of these.
fn number_among(bytes: &[u8], least: u64, last: u64) -> Option<u64>
    ensures some { IfSome result (λ number. IsWithin least last number × StandsAt bytes.now number) }
    ensures none { result ≡ None → (number : ℕ) → IsWithin least last number →
        ¬ StandsAt bytes.now number }
{
    let number = number_at(bytes)?;
    if number < least {
        return None;
    }
    if last < number {
        return None;
    }
    Some(number)
}

// The number of 64 bits that stands at the front of these bytes, if one does.
fn number_at(bytes: &[u8]) -> Option<u64>
    ensures some { IfSome result (λ number. StandsAt bytes.now number × (number < 2 ^ 64)) }
    ensures none { result ≡ None → (number : ℕ) → number < 2 ^ 64 → ¬ StandsAt bytes.now number }
{
    let (number, rest) = split_number(bytes)?;
    if rest.is_empty() {
        return None;
    }
    Some(number)
}

// The number of 64 bits with whose decimal digits these bytes begin, without leading zeros, and what is
// left behind the digits, which doesn't begin with one.
pub(crate) fn split_number(bytes: &[u8]) -> Option<(u64, &[u8])>
    ensures some { IfSome result (λ split. (bytes.now ≡ decimal split.0 ++ split.1.now)
        × BeginsNoNumber split.1.now × (split.0 < 2 ^ 64)) }
    ensures none { result ≡ None → (number : ℕ) (rest : List ℕ) → number < 2 ^ 64 →
        BeginsNoNumber rest → bytes.now ≢ decimal number ++ rest }
{
    let (digits, rest) = bytes.split_at(digit_count(bytes));
    if !is_written(digits) {
        return None;
    }
    let number = value_of(digits)?;
    Some((number, rest))
}

// How many digits stand at the front, counted up to one more than a number of 64 bits has.
fn digit_count(bytes: &[u8]) -> usize
    ensures within { result ≤ length bytes.now }
    ensures digits { AllDigits 10 (take result bytes.now) }
    ensures most { result ≤ 21 }
    ensures ended { result ≤ 20 → BeginsNoNumber (drop result bytes.now) }
{
    let most = bytes.len().min(MAX_DIGITS + 1);
    for at in 0..most {
        if !bytes[at].is_ascii_digit() {
            return at;
        }
    }
    most
}

// Whether digits are there, and none of several is a zero that leads the others.
fn is_written(digits: &[u8]) -> bool
    ensures { IsTrue result ↔ ((0 < length digits.now)
        × (slice_index_or digits.now 0 0 ≡ 48 → length digits.now ≡ 1)) }
{
    match digits {
        [] => false,
        [first, ..] => *first != b'0' || digits.len() == 1,
    }
}

// The value of decimal digits, if it is one of 64 bits.
fn value_of(digits: &[u8]) -> Option<u64>
    requires { AllDigits 10 digits.now }
    ensures some { IfSome result (λ number. (digits_value 10 digits.now ≡ number)
        × (number < 2 ^ 64)) }
    ensures none { result ≡ None → 2 ^ 64 ≤ digits_value 10 digits.now }
{
    let mut value = 0;
    let mut rest = digits;
    while let [digit, others @ ..] = rest {
        value = with_digit(value, *digit)?;
        rest = others;
    }
    Some(value)
}

// The number that has the digits of this one and one more behind them, if it is one of 64 bits.
fn with_digit(number: u64, digit: u8) -> Option<u64>
    requires { digit_value digit < 10 }
    ensures some { IfSome result (λ more. more ≡ number * 10 + digit_value digit) }
    ensures none { result ≡ None → 2 ^ 64 ≤ number * 10 + digit_value digit }
{
    number.checked_mul(10)?.checked_add(u64::from(digit - b'0'))
}
