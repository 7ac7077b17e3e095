// All short texts over some bytes, each read by the reader and by the slow recogniser.
use crate::recogniser::recognised;
use crate::text::append_line;
use case_files::{Case, CaseError};
use kb_geometry::append;
use sgf_reader::{ReadError, read_flat};
use std::alloc::Global;

// The longest text that the recogniser judges.
const LONGEST: usize = 8;

// The most texts of one case.
const MOST_TEXTS: u64 = 2_000_000;

// What all texts of a case have in common, and the bytes that they differ in, so many.
#[derive(Drop)]
struct Texts<'a> {
    before: &'a str,
    after: &'a str,
    bytes: &'a [u8],
    count: u32,
}

/// Compares the reader with the recogniser on all texts that have, in the place of the `*` of the
/// second word, so many of the bytes that are put in as the first word tells. The answer is how
/// many texts there are, and the first one on which both differ.
pub(crate) fn answer_all(
    alloc: Global,
    case: &Case<'_>,
    out: &mut Vec<u8>,
) -> Result<(), CaseError> {
    let count = case.need_word(0)?.parse::<u32>();
    let (before, after) = case
        .need_word(1)?
        .split_once("*")
        .ok_or(CaseError::Bad("no * in the second word"))?;
    let texts = Texts {
        before,
        after,
        bytes: case.text(),
        count: count.map_err(|_| CaseError::Bad("no number"))?,
    };
    compare(alloc, &texts, out)
}

fn compare(alloc: Global, texts: &Texts<'_>, out: &mut Vec<u8>) -> Result<(), CaseError> {
    let number_of_texts = how_many(texts)?;
    let mut text = Vec::new(alloc);
    for number in 0..number_of_texts {
        text.clear();
        append_text(&mut text, texts, number)?;
        if text.len() > LONGEST {
            return Err(CaseError::Bad("the texts are too long"));
        }
        if games_of(alloc, &text) != recognised(&text) {
            return append_line(out, &text);
        }
    }
    let line = format!(in alloc; "{number_of_texts} texts\n")?;
    Ok(append(out, line.as_bytes())?)
}

fn how_many(texts: &Texts<'_>) -> Result<u64, CaseError> {
    match (texts.bytes.len() as u64).checked_pow(texts.count) {
        Some(number) if number <= MOST_TEXTS => Ok(number),
        _ => Err(CaseError::Bad("too many texts")),
    }
}

// Appends the text with a number: the digits of the number are the places of its bytes, the last
// digit first.
fn append_text(text: &mut Vec<u8>, texts: &Texts<'_>, number: u64) -> Result<(), CaseError> {
    append(text, texts.before.as_bytes())?;
    let base = texts.bytes.len() as u64;
    let mut left = number;
    for _ in 0..texts.count {
        if base > 0 {
            if let Some(byte) = texts.bytes.get((left % base) as usize) {
                text.push(*byte)?;
            }
            left /= base;
        }
    }
    Ok(append(text, texts.after.as_bytes())?)
}

// How many games a text has by the reader, or its fault.
fn games_of(alloc: Global, text: &[u8]) -> Result<usize, ReadError> {
    match read_flat(alloc, text) {
        Ok(collection) => Ok(collection.game_count()),
        Err(error) => Err(error),
    }
}
