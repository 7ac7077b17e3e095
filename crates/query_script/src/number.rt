// Numbers in words.
ghost use Rattle.std.specs.Prelude.{◌≡◌, ◌+◌, ◌<◌, ◌≤◌, ◌⊎◌, ℕ, length, Option, None, IfSome};
ghost use Rattle.std.specs.Str.Parse.{AllDigits, digits_value};
ghost use Rattle.query_script.specs.Words.{IsNumber};

use crate::word::Word;

// The most digits of a number.
const MAX_DIGITS: usize = 10;

// The number that a word writes with one to ten decimal digits, if it is at most this one.
pub(crate) fn number_up_to(word: &Word, most: u64) -> Option<u64>
    ensures some { IfSome result (λ n. IsNumber word.now n × (n ≤ most)) }
    ensures none { result ≡ None → (n : ℕ) → n ≤ most → ¬ IsNumber word.now n }
{
    let number = number_of(word)?;
    if number <= most { Some(number) } else { None }
}

// The number that a word writes with one to ten decimal digits.
fn number_of(word: &Word) -> Option<u64>
    ensures some { IfSome result (λ n. IsNumber word.now n) }
    ensures none { result ≡ None → (n : ℕ) → ¬ IsNumber word.now n }
{
    let Word::Bare(digits) = word else {
        return None;
    };
    let digits = digits.as_slice();
    if digits.is_empty() || digits.len() > MAX_DIGITS {
        return None;
    }
    value_of(digits)
}

// The value of decimal digits.
pub(crate) fn value_of(digits: &[u8]) -> Option<u64>
    requires { length digits.now ≤ 10 }
    ensures some { IfSome result (λ n. AllDigits 10 digits.now × (digits_value 10 digits.now ≡ n)) }
    ensures none { result ≡ None → ¬ AllDigits 10 digits.now }
{
    let mut value = 0;
    let mut rest = digits;
    while let [byte, others @ ..] = rest {
        value = value * 10 + digit_of(*byte)?;
        rest = others;
    }
    Some(value)
}

// The value of a decimal digit.
fn digit_of(byte: u8) -> Option<u64>
    ensures some { IfSome result (λ d. (d ≤ 9) × (byte ≡ 48 + d)) }
    ensures none { result ≡ None → (byte < 48) ⊎ (57 < byte) }
{
    match byte {
        b'0'..=b'9' => Some(u64::from(byte - b'0')),
        _ => None,
    }
}
