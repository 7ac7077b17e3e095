// Signatures of games, their canonical forms, and patterns.
use crate::text::append_line;
use crate::trees::faultless_trees;
use case_files::{Case, CaseError};
use dyer_signature::{SigPattern, Signature, canonical, matches, signature};
use game_tree::GameTree;
use kb_geometry::append;
use std::alloc::Global;
use std::collections::HashMap;

/// Appends the signature of a game and its canonical form.
pub(crate) fn append_signatures(tree: &GameTree, out: &mut Vec<u8>) -> Result<(), CaseError> {
    let told = signature(tree);
    append(out, &told.bytes)?;
    append(out, b" ")?;
    append_line(out, &canonical(&told, tree.shape()).bytes)
}

/// The canonical form of the signature that is put in, on the board that is the word.
pub(crate) fn answer_canonical(
    alloc: Global,
    case: &Case<'_>,
    out: &mut Vec<u8>,
) -> Result<(), CaseError> {
    let tree = told_tree(alloc, case.words, case.text())?;
    append_line(out, &canonical(&signature(&tree), tree.shape()).bytes)
}

/// Whether the pattern that is put in matches the signature that is the second word, on the board
/// that is the first.
pub(crate) fn answer_matches(
    alloc: Global,
    case: &Case<'_>,
    out: &mut Vec<u8>,
) -> Result<(), CaseError> {
    let told = case.need_word(1)?;
    let tree = told_tree(alloc, case.need_word(0)?, told.as_bytes())?;
    let pattern = pattern_of(case.text())?;
    let answer = if matches(&signature(&tree), tree.shape(), &pattern) {
        b"yes".as_slice()
    } else {
        b"no".as_slice()
    };
    append_line(out, answer)
}

/// For each of the signatures that are put in, on the board that is the word, how many of those
/// before it have its canonical form.
pub(crate) fn answer_doubles(
    alloc: Global,
    case: &Case<'_>,
    out: &mut Vec<u8>,
) -> Result<(), CaseError> {
    let mut counts: HashMap<Signature, u32> = HashMap::new(alloc);
    let mut shown = format!(in alloc; "seen")?;
    for told in case.text().split(|byte| *byte == b' ') {
        let tree = told_tree(alloc, case.words, told)?;
        let form = canonical(&signature(&tree), tree.shape());
        let before = counts.get(&form).copied().unwrap_or(0);
        counts.insert(form, before.saturating_add(1))?;
        shown = format!(in alloc; "{shown} {before}")?;
    }
    append_line(out, shown.as_bytes())
}

// A game on a board whose signature is this one.
fn told_tree(alloc: Global, size: &str, told: &[u8]) -> Result<GameTree, CaseError> {
    let text = text_telling(alloc, size, told)?;
    let tree = faultless_trees(alloc, &text)?
        .pop()
        .ok_or(CaseError::Bad("no game"))?;
    if signature(&tree).bytes.as_slice() == told {
        Ok(tree)
    } else {
        Err(CaseError::Bad("the game has another signature"))
    }
}

// The text of a game on a board whose moves of a signature are told, and whose others are passes.
fn text_telling(alloc: Global, size: &str, told: &[u8]) -> Result<Vec<u8>, CaseError> {
    let mut text = Vec::new(alloc);
    append(&mut text, b"(;SZ[")?;
    append(&mut text, size.as_bytes())?;
    append(&mut text, b"]")?;
    for number in 1..72u32 {
        append(&mut text, b";W[")?;
        append(&mut text, letters_of(told, number))?;
        append(&mut text, b"]")?;
    }
    append(&mut text, b")")?;
    Ok(text)
}

// The letters of the move with a number, none where it is told as `??` or not told.
fn letters_of(told: &[u8], number: u32) -> &[u8] {
    let letters = match number {
        20 => told.get(0..2),
        40 => told.get(2..4),
        60 => told.get(4..6),
        31 => told.get(6..8),
        51 => told.get(8..10),
        71 => told.get(10..12),
        _ => None,
    };
    match letters {
        Some(b"??") => &[],
        Some(letters) => letters,
        None => &[],
    }
}

// The pattern of a text of 12 bytes.
fn pattern_of(text: &[u8]) -> Result<SigPattern, CaseError> {
    if text.len() != 12 {
        return Err(CaseError::Bad("a pattern has 12 bytes"));
    }
    let mut bytes = [b'*'; 12];
    bytes.copy_from_slice(text);
    Ok(SigPattern { bytes })
}
