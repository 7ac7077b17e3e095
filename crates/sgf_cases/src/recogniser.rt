// A slow recogniser of texts, which is written from the definitions of the grammar: each part of a
// text is cut off from its front. The reader is compared with it.
use sgf_reader::{FaultKind, ReadError, SgfFault};

fn skip_white(text: &[u8]) -> &[u8] {
    for i in 0..text.len() {
        if text[i] > 32 {
            return &text[i..];
        }
    }
    &[]
}

fn after_value(text: &[u8]) -> Option<&[u8]> {
    let [b'[', rest @ ..] = text else {
        return None;
    };
    let mut is_hidden = false;
    for i in 0..rest.len() {
        if is_hidden {
            is_hidden = false;
        } else if rest[i] == b']' {
            return Some(&rest[i + 1..]);
        } else if rest[i] == b'\\' {
            is_hidden = true;
        }
    }
    None
}

// One value or more.
fn after_values(text: &[u8]) -> Option<&[u8]> {
    let mut rest = after_value(skip_white(text))?;
    for _ in 0..text.len() {
        match after_value(skip_white(rest)) {
            Some(next) => rest = next,
            None => return Some(rest),
        }
    }
    Some(rest)
}

// Letters, at least one of them upper-case.
fn after_identifier(text: &[u8]) -> Option<&[u8]> {
    let mut has_upper = false;
    for i in 0..text.len() {
        if !text[i].is_ascii_alphabetic() {
            return if has_upper { Some(&text[i..]) } else { None };
        }
        has_upper |= text[i].is_ascii_uppercase();
    }
    None
}

fn after_property(text: &[u8]) -> Option<&[u8]> {
    let rest = after_identifier(skip_white(text))?;
    after_values(rest)
}

fn after_node(text: &[u8]) -> Option<&[u8]> {
    let [b';', first @ ..] = skip_white(text) else {
        return None;
    };
    let mut rest = first;
    for _ in 0..first.len() {
        match after_property(rest) {
            Some(next) => rest = next,
            None => return Some(rest),
        }
    }
    Some(rest)
}

// One node or more.
fn after_nodes(text: &[u8]) -> Option<&[u8]> {
    let mut rest = after_node(text)?;
    for _ in 0..text.len() {
        match after_node(rest) {
            Some(next) => rest = next,
            None => return Some(rest),
        }
    }
    Some(rest)
}

// A tree of at most so many trees in one another.
fn after_tree(text: &[u8], depth: u8) -> Option<&[u8]> {
    if depth == 0 {
        return None;
    }
    let [b'(', inner @ ..] = text else {
        return None;
    };
    let mut rest = after_nodes(inner)?;
    for _ in 0..inner.len() {
        match after_tree(skip_white(rest), depth - 1) {
            Some(next) => rest = next,
            None => break,
        }
    }
    let [b')', behind @ ..] = skip_white(rest) else {
        return None;
    };
    Some(behind)
}

fn starts_tree(text: &[u8]) -> bool {
    let [b'(', rest @ ..] = text else {
        return false;
    };
    let [b';', ..] = skip_white(rest) else {
        return false;
    };
    true
}

// How many games the text has.
fn spelled_games(text: &[u8]) -> Option<usize> {
    let mut rest = text;
    let mut games = 0;
    for _ in 0..text.len() {
        if starts_tree(rest) {
            rest = after_tree(rest, 8)?;
            games += 1;
        } else if let [_, next @ ..] = rest {
            rest = next;
        }
    }
    Some(games)
}

fn has_tree_start(text: &[u8]) -> bool {
    for i in 0..text.len() {
        if starts_tree(&text[i..]) {
            return true;
        }
    }
    false
}

// What a text can lack: the rest of a value, of a property, of a node, and the brackets of its
// trees.
const ENDINGS: [&str; 25] = [
    "(;)", ";)", ")", "))", ")))", "))))", ";))", ";)))", ";))))", "])", "]))", "])))", "]))))",
    "[])", "[]))", "[])))", "[]))))", "A[])", "A[]))", "A[])))", "A[]))))", "a])", "a]))", "a])))",
    "a]))))",
];

fn is_spelled_with(text: &[u8], ending: &[u8]) -> bool {
    let mut whole = [b' '; 16];
    for (slot, byte) in whole.iter_mut().zip(text.iter().chain(ending)) {
        *slot = *byte;
    }
    match spelled_games(&whole) {
        Some(games) => games > 0,
        None => false,
    }
}

fn is_live(text: &[u8]) -> bool {
    for ending in ENDINGS {
        if is_spelled_with(text, ending.as_bytes()) {
            return true;
        }
    }
    false
}

fn fault(kind: FaultKind, at: usize) -> Result<usize, ReadError> {
    let at = u32::try_from(at).unwrap_or(u32::MAX);
    Err(ReadError::Fault(SgfFault { kind, at }))
}

/// How many games a text of at most eight bytes has, or its fault.
pub(crate) fn recognised(text: &[u8]) -> Result<usize, ReadError> {
    if let Some(games) = spelled_games(text) {
        if games > 0 {
            return Ok(games);
        }
    }
    for at in 0..text.len() {
        if !is_live(&text[..at + 1]) {
            return fault(FaultKind::Unexpected, at);
        }
    }
    if has_tree_start(text) {
        fault(FaultKind::Ended, text.len())
    } else {
        fault(FaultKind::NoGame, text.len())
    }
}
