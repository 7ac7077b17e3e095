// The day of a game. jiff knows which dates there are, and their numbers.
ghost use Rattle.std.specs.Prelude.{
  ◌≡◌,
  ◌++◌,
  ◌<◌,
  ◌≤◌,
  ◌↔◌,
  ℕ,
  List,
  [],
  ◌∷◌,
  All,
  length,
  take,
  slice_index,
  pos,
  ℤ,
  IfSome,
  IsNone,
  IsTrue,
};
ghost use Rattle.std.specs.Char.{digit_value};
ghost use Rattle.jiff_core.specs.Calendar.{IsCivilDate, days_from_civil};
ghost use Rattle.sgf_reader.specs.Bytes.{space};
ghost use Rattle.info_filter.specs.DateParts.{BeginsWithNumber, BeginsWithPart, BeginsWithYear};
ghost use Rattle.info_filter.specs.Day.{
  IsDateByte,
  IsDateText,
  IsDayOf,
  IsFirstDate,
  IsNumberOfDigits,
  IsWrittenDay,
};

use jiff::civil::Date;

// How many bytes YYYY-MM-DD has.
const WRITTEN_DAY: usize = 10;

/// The day that the text of a game's date (property DT) names first, as the number of days since
/// 1970-01-01. None exactly where the text names no day.
///
/// White space at the beginning is skipped. The longest run of digits and hyphens from there has to
/// be a day of the proleptic Gregorian calendar, as YYYY-MM-DD, YYYY-MM or YYYY, with a year from
/// 0000 to 9999; 01 stands for a part that is missing. SGF FF[4], game information, has dates of
/// these forms, and lists of them.
pub fn day_of(date: &[u8]) -> Option<i32>
    ensures { IsDayOf date.now result }
{
    let (year, month, day) = date_parts(first_date(date))?;
    day_number(year, month, day)
}

/// The day that a text writes as YYYY-MM-DD, as the number of days since 1970-01-01; it is a day of
/// the calendar of [`day_of`]. None exactly where the text is no such day. Nothing is allocated.
pub fn written_day(text: &[u8]) -> Option<i32>
    ensures some { IfSome result (λ number. IsWrittenDay text.now number) }
    ensures none { IsNone result → (number : ℤ) → ¬ IsWrittenDay text.now number }
{
    if text.len() != WRITTEN_DAY {
        return None;
    }
    let (year, month, day) = date_parts(text)?;
    day_number(year, month, day)
}

// The number of a day, if the calendar has it.
fn day_number(year: u16, month: u8, day: u8) -> Option<i32>
    requires year { year ≤ 9999 }
    requires month { month ≤ 99 }
    requires day { day ≤ 99 }
    ensures some { IfSome result (λ number. IsCivilDate (pos year) month day
        × (number ≡ days_from_civil (pos year) month day)) }
    ensures none { IsNone result → ¬ IsCivilDate (pos year) month day }
{
    let date = Date::new(year as i16, month as i8, day as i8).ok()?;
    Some(date.to_plain().to_unix_epoch_day())
}

// The first date of a text, which may be empty.
fn first_date(text: &[u8]) -> &[u8]
    ensures { IsFirstDate text.now result.now }
{
    let shown = behind_white(text);
    &shown[..date_end(shown)]
}

// How many bytes at the beginning of a text dates are made of.
fn date_end(text: &[u8]) -> usize
    ensures within { result ≤ length text.now }
    ensures made { All IsDateByte (take result text.now) }
    ensures longest { result < length text.now → ¬ IsDateByte (slice_index text.now result) }
{
    let mut end = 0;
    while end < text.len() && is_date_byte(text[end]) {
        end += 1;
    }
    end
}

// A text without the white space before it.
fn behind_white(text: &[u8]) -> &[u8]
    ensures split { (white : List ℕ) × (text.now ≡ white ++ result.now)
        × All (λ (b : ℕ). b ≤ space) white }
    ensures first { (b : ℕ) (more : List ℕ) → result.now ≡ b ∷ more → space < b }
{
    let mut rest = text;
    while let [b, more @ ..] = rest {
        if *b > b' ' {
            return rest;
        }
        rest = more;
    }
    rest
}

// Whether dates are made of this byte.
fn is_date_byte(b: u8) -> bool
    ensures { IsTrue result ↔ IsDateByte b }
{
    b.is_ascii_digit() || b == b'-'
}

// The year, the month and the day of the month that a date is of. A part that is missing is 1.
fn date_parts(date: &[u8]) -> Option<(u16, u8, u8)>
    ensures some { IfSome result (λ parts. IsDateText date.now parts.0 parts.1 parts.2) }
    ensures small { IfSome result (λ parts.
        (parts.0 ≤ 9999) × (parts.1 ≤ 99) × (parts.2 ≤ 99)) }
    ensures none { IsNone result → (y m d : ℕ) → ¬ IsDateText date.now y m d }
{
    let (year, behind_year) = leading_year(date)?;
    let (month, behind_month) = leading_part(behind_year)?;
    let (day, rest) = leading_part(behind_month)?;
    if rest.is_empty() {
        Some((year, month, day))
    } else {
        None
    }
}

// The year at the beginning of a date, and what stands behind it.
fn leading_year(date: &[u8]) -> Option<(u16, &[u8])>
    ensures some { IfSome result (λ read. BeginsWithYear date.now read.0 read.1.now) }
    ensures small { IfSome result (λ read. read.0 ≤ 9999) }
    ensures none { IsNone result → (n : ℕ) (rest : List ℕ) → ¬ BeginsWithYear date.now n rest }
{
    let [a, b, c, d, rest @ ..] = date else {
        return None;
    };
    Some((year_of(*a, *b, *c, *d)?, rest))
}

// The month or the day of the month that stands next in a date, and what stands behind it. At the
// end of the date it is 1.
fn leading_part(text: &[u8]) -> Option<(u8, &[u8])>
    ensures some { IfSome result (λ read. BeginsWithPart text.now read.0 read.1.now) }
    ensures small { IfSome result (λ read. read.0 ≤ 99) }
    ensures none { IsNone result → (n : ℕ) (rest : List ℕ) → ¬ BeginsWithPart text.now n rest }
{
    if text.is_empty() {
        return Some((1, text));
    }
    written_part(text)
}

// The month or the day of the month that stands next in a date.
fn written_part(text: &[u8]) -> Option<(u8, &[u8])>
    ensures some { IfSome result (λ read. BeginsWithNumber text.now read.0 read.1.now) }
    ensures small { IfSome result (λ read. read.0 ≤ 99) }
    ensures none { IsNone result → (n : ℕ) (rest : List ℕ) → ¬ BeginsWithNumber text.now n rest }
{
    let [b'-', tens, ones, rest @ ..] = text else {
        return None;
    };
    Some((two_digits(*tens, *ones)?, rest))
}

// The year that four digits write.
fn year_of(a: u8, b: u8, c: u8, d: u8) -> Option<u16>
    ensures some { IfSome result (λ n. IsNumberOfDigits (a ∷ b ∷ c ∷ d ∷ []) 4 n) }
    ensures small { IfSome result (λ n. n ≤ 9999) }
    ensures none { IsNone result → (n : ℕ) → ¬ IsNumberOfDigits (a ∷ b ∷ c ∷ d ∷ []) 4 n }
{
    let century = two_digits(a, b)?;
    let year = two_digits(c, d)?;
    Some(u16::from(century) * 100 + u16::from(year))
}

// The number that two digits write.
fn two_digits(tens: u8, ones: u8) -> Option<u8>
    ensures some { IfSome result (λ n. IsNumberOfDigits (tens ∷ ones ∷ []) 2 n) }
    ensures small { IfSome result (λ n. n ≤ 99) }
    ensures none { IsNone result → (n : ℕ) → ¬ IsNumberOfDigits (tens ∷ ones ∷ []) 2 n }
{
    Some(digit_of(tens)? * 10 + digit_of(ones)?)
}

// A decimal digit.
fn digit_of(b: u8) -> Option<u8>
    ensures some { IfSome result (λ digit. (digit ≤ 9) × (digit_value b ≡ digit)) }
    ensures none { IsNone result → 10 ≤ digit_value b }
{
    let digit = b.checked_sub(b'0')?;
    if digit <= 9 { Some(digit) } else { None }
}
