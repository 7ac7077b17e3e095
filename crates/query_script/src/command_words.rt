// The words of the command line.
ghost use Rattle.std.specs.Prelude.{◌≡◌, ◌↔◌};
ghost use Rattle.std.specs.Prelude.{
  ℕ,
  map,
  codes,
  string_bytes,
  Option,
  None,
  option_map,
  Err,
  IfOk,
  IfSome,
};
ghost use Rattle.std.specs.List.{list_any};
ghost use Rattle.std.specs.Str.{bytes_eq};
ghost use Rattle.clap.specs.Words.{app_of, first_of, found_of, kind_of, rows_of};
ghost use Rattle.query_script.specs.declared.command_words.WordsError.TheVariants.{
  BadWords,
  NoMemory,
};
ghost use Rattle.query_script.specs.CommandWords.{AreLawful, IsBatch};
ghost use Rattle.query_script.specs.CommandLine.{SayOptions, SaysBatch, command_line};

use crate::number::value_of;
use clap::error::ErrorKind;
use clap::{Arg, ArgAction, ArgMatches, Command};
use std::alloc::{AllocError, Global};
use std::error::Error;
use std::fmt;

// How many files come into the base at a time, where the words don't say it.
const DEFAULT_BATCH: u32 = 64;

// The most files that may come into the base at a time, and the most digits of their number.
const MAX_BATCH: u32 = 4096;

const MAX_DIGITS: usize = 4;

/// What the words of the command line say.
#[derive(Clone, Copy, Debug, PartialEq, Eq)]
pub struct Words {
    /// How many files of an import come into the base at a time, from 1 to 4,096.
    pub batch: u32,
    /// Whether the statements are answered one after another, with no import beside them.
    pub serial: bool,
}

/// Why the words of the command line were not read.
#[derive(Clone, Copy, Debug, PartialEq, Eq)]
pub enum WordsError {
    /// They are not lawful.
    BadWords,
    /// An allocation was refused.
    NoMemory,
}

impl fmt::Display for WordsError {
    fn fmt<W: fmt::Write>(&self, f: &mut fmt::Formatter<W>) -> fmt::Result {
        match *self {
            WordsError::BadWords => f.write_str("the words are not lawful"),
            WordsError::NoMemory => f.write_str("out of memory"),
        }
    }
}

impl Error for WordsError {}

impl From<AllocError> for WordsError {
    ghost from_gives = { λ _ e. e ≡ NoMemory };

    fn from(_: AllocError) -> Self {
        WordsError::NoMemory
    }
}

/// Reads the words of the command line, without the program's name: `--serial`, and `--batch N` or
/// `--batch=N` with a number from 1 to 4,096 in one to four decimal digits, each at most once and
/// in any order. Without `--batch` the number is 64. Other words are `BadWords`.
pub fn read_words(alloc: Global, words: &[String]) -> Result<Words, WordsError>
    ensures read { IfOk result (λ read. AreLawful (map string_bytes words.now) read) }
    ensures bad { result ≡ Err BadWords → (read : Words) →
        ¬ AreLawful (map string_bytes words.now) read }
{
    if has_double_hyphen(words) {
        return Err(WordsError::BadWords);
    }
    let command = command_line(alloc)?;
    match command.try_get_matches_from(words) {
        Ok(matches) => words_of(&matches),
        Err(error) => Err(refusal_of(&error)),
    }
}

// Whether one of the words is `--`, behind which the library would read no options.
fn has_double_hyphen(words: &[String]) -> bool
    ensures { result ≡ list_any (λ word. bytes_eq (string_bytes word) (codes "--")) words.now }
{
    words.iter().any(|word| word.as_str() == "--")
}

// The command line with its two options, without help and version.
fn command_line<'a>(alloc: Global) -> Result<Command<'a>, AllocError>
    ensures { IfOk result (λ command. app_of command ≡ command_line) }
{
    let serial = Arg::new(alloc, "serial")
        .long("serial")
        .action(ArgAction::SetTrue);
    let batch = Arg::new(alloc, "batch")
        .long("batch")
        .action(ArgAction::Set);
    Command::new(alloc, "gobase")
        .no_binary_name(true)
        .disable_help_flag(true)
        .arg(serial)?
        .arg(batch)
}

// What the options say that the library found. The only error is `BadWords`.
fn words_of(matches: &ArgMatches) -> Result<Words, WordsError>
    ensures read { IfOk result (SayOptions (rows_of (found_of matches.now))) }
    ensures bad { result ≡ Err BadWords → (batch : ℕ) →
        ¬ SaysBatch (first_of (codes "batch") (rows_of (found_of matches.now))) batch }
{
    let Some(batch) = batch_said(matches.get_str("batch")) else {
        return Err(WordsError::BadWords);
    };
    let serial = matches.get_flag("serial");
    Ok(Words { batch, serial })
}

// How many files come into the base at a time, by what stands behind `--batch`, if it is there.
fn batch_said(said: Option<&str>) -> Option<u32>
    ensures some { IfSome result (SaysBatch (option_map (λ digits. digits.now) said.entry)) }
    ensures none { result ≡ None → (batch : ℕ) →
        ¬ SaysBatch (option_map (λ digits. digits.now) said.entry) batch }
{
    match said {
        Some(digits) => batch_of(digits.as_bytes()),
        None => Some(DEFAULT_BATCH),
    }
}

// The number that a word writes with one to four decimal digits, if it is one from 1 to 4,096.
fn batch_of(digits: &[u8]) -> Option<u32>
    ensures some { IfSome result (IsBatch digits.now) }
    ensures none { result ≡ None → (batch : ℕ) → ¬ IsBatch digits.now batch }
{
    if digits.is_empty() || digits.len() > MAX_DIGITS {
        return None;
    }
    let batch = value_of(digits)?;
    if batch == 0 || batch > u64::from(MAX_BATCH) {
        return None;
    }
    Some(batch as u32)
}

// What an error of the library means.
fn refusal_of(error: &clap::Error) -> WordsError
    ensures { result ≡ NoMemory ↔ kind_of error.now ≡ ErrorKind.OutOfMemory }
{
    match error.kind() {
        ErrorKind::OutOfMemory => WordsError::NoMemory,
        _ => WordsError::BadWords,
    }
}
