// What becomes of a file by its bytes.
use crate::files::{number, push_file};
use case_files::{Case, CaseError};
use game_tree::GameTree;
use import_work::{Counts, FileOutcome, import_one};
use kb_edges::MemoryFolder;
use kb_geometry::{append, append_decimal};
use sgf_reader::FaultKind;
use std::alloc::Global;

/// The kind `outcome`: what becomes of a file of these bytes in a base with so many games and
/// nodes before it, of which none are there if the case doesn't say so.
pub(crate) fn answer_outcome(
    alloc: Global,
    case: &Case<'_>,
    out: &mut Vec<u8>,
) -> Result<(), CaseError> {
    let before = counts_of(case)?;
    let (outcome, trees) = outcome_of(alloc, case.text(), before)?;
    append_outcome(out, outcome)?;
    if let FileOutcome::Accepted { .. } = outcome {
        append(out, b" nodes ")?;
        append_decimal(out, node_count(&trees))?;
    }
    Ok(append(out, b"\n")?)
}

fn counts_of(case: &Case<'_>) -> Result<Counts, CaseError> {
    match (case.word(0), case.word(1)) {
        (Some(games), Some(nodes)) => Ok(Counts {
            games: number(games)?,
            nodes: number(nodes)?,
        }),
        _ => Ok(Counts { games: 0, nodes: 0 }),
    }
}

/// The kind `beginnings`: the outcome of each beginning of a text that is shorter than the text.
/// Those that end amid a game, as most do, aren't told.
pub(crate) fn answer_beginnings(
    alloc: Global,
    case: &Case<'_>,
    out: &mut Vec<u8>,
) -> Result<(), CaseError> {
    let text = case.text();
    for length in 0..text.len() {
        if let Some(beginning) = text.get(..length) {
            append_beginning(alloc, beginning, out)?;
        }
    }
    Ok(())
}

fn append_beginning(alloc: Global, text: &[u8], out: &mut Vec<u8>) -> Result<(), CaseError> {
    let none = Counts { games: 0, nodes: 0 };
    let (outcome, _trees) = outcome_of(alloc, text, none)?;
    if is_end_amid_a_game(outcome, text.len()) {
        return Ok(());
    }
    append_decimal(out, text.len() as u64)?;
    append(out, b" ")?;
    append_outcome(out, outcome)?;
    Ok(append(out, b"\n")?)
}

fn is_end_amid_a_game(outcome: FileOutcome, length: usize) -> bool {
    match outcome {
        FileOutcome::Refused { kind, at } => {
            matches!(kind, FaultKind::Ended) && at as usize == length
        }
        _ => false,
    }
}

// What becomes of a file with these bytes.
fn outcome_of(
    alloc: Global,
    bytes: &[u8],
    before: Counts,
) -> Result<(FileOutcome, Vec<GameTree>), CaseError> {
    let mut files = Vec::new(alloc);
    push_file(alloc, "d", "a.sgf", bytes, &mut files)?;
    let mut folder = MemoryFolder::new(files, Vec::new(alloc));
    match import_one(alloc, &mut folder, "d", "a.sgf", before) {
        Ok(became) => Ok(became),
        Err(_) => Err(CaseError::NoMemory),
    }
}

/// Appends an outcome in words.
pub(crate) fn append_outcome(out: &mut Vec<u8>, outcome: FileOutcome) -> Result<(), CaseError> {
    let alloc = *out.allocator();
    let text = match outcome {
        FileOutcome::Accepted { games } => format!(in alloc; "accepted games {games}")?,
        FileOutcome::Refused { kind, at } => format!(in alloc; "refused {kind:?} {at}")?,
        FileOutcome::Full { games, nodes } => format!(in alloc;
            "full games {games} nodes {nodes}"
        )?,
        FileOutcome::Unread => String::from_str(alloc, "unread")?,
    };
    Ok(append(out, text.as_bytes())?)
}

fn node_count(trees: &[GameTree]) -> u64 {
    let mut nodes = 0u64;
    for tree in trees {
        nodes = nodes.saturating_add(u64::from(tree.node_count()));
    }
    nodes
}
