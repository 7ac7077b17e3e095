// What stands in a text by its syntax alone: counts, and nodes with the places of their values.
use crate::text::{append_fault, text_of};
use case_files::{Case, CaseError};
use kb_geometry::append;
use sgf_reader::{FaultKind, FlatCollection, FlatGame, FlatNode, Pair, ReadError, Span, read_flat};
use std::alloc::Global;

/// How many games, nodes and values a text has, or its fault.
pub(crate) fn answer_syntax(
    alloc: Global,
    case: &Case<'_>,
    out: &mut Vec<u8>,
) -> Result<(), CaseError> {
    let text = text_of(alloc, case)?;
    match read_flat(alloc, &text) {
        Ok(collection) => append_counts(out, &collection),
        Err(error) => append_refusal(out, error),
    }
}

// Appends the line of a text that could not be read.
fn append_refusal(out: &mut Vec<u8>, error: ReadError) -> Result<(), CaseError> {
    match error {
        ReadError::Fault(fault) => append_fault(out, fault),
        ReadError::NoMemory => Err(CaseError::NoMemory),
    }
}

fn append_counts(out: &mut Vec<u8>, collection: &FlatCollection) -> Result<(), CaseError> {
    let games = collection.game_count();
    let mut nodes = 0usize;
    let mut values = 0usize;
    for number in 0..games {
        let game = collection.game(number);
        nodes = nodes.saturating_add(game.node_count());
        values = values.saturating_add(value_count(&game));
    }
    let line = format!(in *out.allocator(); "games {games}, nodes {nodes}, values {values}\n")?;
    Ok(append(out, line.as_bytes())?)
}

fn value_count(game: &FlatGame<'_>) -> usize {
    let mut values = 0usize;
    for number in 0..game.node_count() {
        values = values.saturating_add(game.node(number).pairs().len());
    }
    values
}

/// What the beginnings of a text are, from which length on each: read, or of this kind of fault at
/// their length, or of a fault before.
pub(crate) fn answer_beginnings(
    alloc: Global,
    case: &Case<'_>,
    out: &mut Vec<u8>,
) -> Result<(), CaseError> {
    let text = text_of(alloc, case)?;
    let mut last = None;
    for count in 0..=text.len() {
        let next = beginning_of(alloc, text.get(..count).unwrap_or(&[]))?;
        if last != Some(next) {
            let line = format!(in alloc; "{next:?} from {count}\n")?;
            append(out, line.as_bytes())?;
            last = Some(next);
        }
    }
    Ok(())
}

// What a beginning of a text is.
#[derive(Clone, Copy, Debug, PartialEq)]
enum Beginning {
    Read,
    FaultBefore,
    Fault(FaultKind),
}

fn beginning_of(alloc: Global, text: &[u8]) -> Result<Beginning, CaseError> {
    match read_flat(alloc, text) {
        Ok(_) => Ok(Beginning::Read),
        Err(ReadError::Fault(fault)) if fault.at as usize == text.len() => {
            Ok(Beginning::Fault(fault.kind))
        }
        Err(ReadError::Fault(_)) => Ok(Beginning::FaultBefore),
        Err(ReadError::NoMemory) => Err(CaseError::NoMemory),
    }
}

/// The nodes of a text with their parents and the places of their values, or the text's fault. The
/// same is shown of the collection as lists in lists, if it isn't told so already.
pub(crate) fn answer_values(
    alloc: Global,
    case: &Case<'_>,
    out: &mut Vec<u8>,
) -> Result<(), CaseError> {
    let text = text_of(alloc, case)?;
    let collection = match read_flat(alloc, &text) {
        Ok(collection) => collection,
        Err(error) => return append_refusal(out, error),
    };
    append_games(out, &text, &collection)?;
    let again = FlatCollection::of(alloc, &collection.to_collection(alloc)?)?;
    let mut other = Vec::new(alloc);
    append_games(&mut other, &text, &again)?;
    if other.as_slice() != out.as_slice() {
        append(out, &other)?;
    }
    Ok(())
}

fn append_games(
    out: &mut Vec<u8>,
    text: &[u8],
    collection: &FlatCollection,
) -> Result<(), CaseError> {
    for number in 0..collection.game_count() {
        append_nodes(out, text, &collection.game(number))?;
    }
    Ok(())
}

fn append_nodes(out: &mut Vec<u8>, text: &[u8], game: &FlatGame<'_>) -> Result<(), CaseError> {
    for number in 0..game.node_count() {
        append_node(out, text, number, &game.node(number))?;
    }
    Ok(())
}

// Appends the line of a node: its number, its parent, and its values.
fn append_node(
    out: &mut Vec<u8>,
    text: &[u8],
    number: usize,
    node: &FlatNode<'_>,
) -> Result<(), CaseError> {
    let alloc = *out.allocator();
    let place = match node.parent() {
        Some(parent) => format!(in alloc; "{number} below {parent}")?,
        None => format!(in alloc; "{number} root")?,
    };
    append(out, place.as_bytes())?;
    for pair in node.pairs() {
        append_pair(out, text, pair)?;
    }
    Ok(out.push(b'\n')?)
}

// Appends a value behind its name, and from where to where both stand.
fn append_pair(out: &mut Vec<u8>, text: &[u8], pair: &Pair) -> Result<(), CaseError> {
    let Pair { name, value } = *pair;
    append(out, b", ")?;
    append(out, bytes_at(text, name))?;
    append(out, b"[")?;
    append(out, bytes_at(text, value))?;
    append(out, b"]")?;
    append_span(out, name)?;
    append_span(out, value)
}

fn append_span(out: &mut Vec<u8>, span: Span) -> Result<(), CaseError> {
    let Span { from, to } = span;
    let shown = format!(in *out.allocator(); " {from}-{to}")?;
    Ok(append(out, shown.as_bytes())?)
}

// The bytes of a piece of the text.
fn bytes_at(text: &[u8], span: Span) -> &[u8] {
    text.get(span.from as usize..span.to as usize)
        .unwrap_or(&[])
}
