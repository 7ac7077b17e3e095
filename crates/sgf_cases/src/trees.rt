// What is shown of the games of a text, or the text's fault.
use crate::parts::{append_board, append_content, append_information, last_node};
use crate::players::append_players;
use crate::signatures::append_signatures;
use crate::text::{append_fault, append_line, text_of};
use crate::tree_text::append_tree;
use case_files::{Case, CaseError};
use game_tree::{BuildError, GameTree, build, build_flat};
use kb_geometry::append;
use sgf_reader::{ReadError, read, read_flat};
use sgf_writer::write;
use std::alloc::Global;

/// Answers a case of a kind that is about the games of a text.
pub(crate) fn answer_trees(
    alloc: Global,
    case: &Case<'_>,
    out: &mut Vec<u8>,
) -> Result<(), CaseError> {
    let text = text_of(alloc, case)?;
    let built = match case.kind {
        "games" => nested_trees_of(alloc, &text),
        _ => trees_of(alloc, &text),
    };
    match built {
        Ok(trees) => append_answer(alloc, case.kind, &trees, out),
        Err(BuildError::Fault(fault)) => append_fault(out, fault),
        Err(BuildError::NoMemory) => Err(CaseError::NoMemory),
    }
}

/// The games of a text.
pub(crate) fn trees_of(alloc: Global, text: &[u8]) -> Result<Vec<GameTree>, BuildError> {
    match read_flat(alloc, text) {
        Ok(collection) => build_flat(alloc, text, &collection),
        Err(error) => Err(refusal(error)),
    }
}

// The same by way of lists in lists.
fn nested_trees_of(alloc: Global, text: &[u8]) -> Result<Vec<GameTree>, BuildError> {
    match read(alloc, text) {
        Ok(collection) => build(alloc, text, &collection),
        Err(error) => Err(refusal(error)),
    }
}

fn refusal(error: ReadError) -> BuildError {
    match error {
        ReadError::Fault(fault) => BuildError::Fault(fault),
        ReadError::NoMemory => BuildError::NoMemory,
    }
}

/// The games of a text that has no fault.
pub(crate) fn faultless_trees(alloc: Global, text: &[u8]) -> Result<Vec<GameTree>, CaseError> {
    match trees_of(alloc, text) {
        Ok(trees) => Ok(trees),
        Err(BuildError::Fault(_)) => Err(CaseError::Bad("the text has a fault")),
        Err(BuildError::NoMemory) => Err(CaseError::NoMemory),
    }
}

fn append_answer(
    alloc: Global,
    kind: &str,
    trees: &[GameTree],
    out: &mut Vec<u8>,
) -> Result<(), CaseError> {
    match kind {
        "players" => append_players(alloc, trees, out),
        "written" => append_written(alloc, trees, out),
        _ => {
            let last = trees.last().ok_or(CaseError::Bad("no game"))?;
            append_of_last(kind, trees.len(), last, out)
        }
    }
}

// Appends what a kind shows of the last game, or of one by itself.
fn append_of_last(
    kind: &str,
    games: usize,
    tree: &GameTree,
    out: &mut Vec<u8>,
) -> Result<(), CaseError> {
    match kind {
        "games" => append_summary(games, tree, out),
        "board" => append_board(out, tree.shape()),
        "node" => {
            append_content(out, tree, last_node(tree))?;
            Ok(out.push(b'\n')?)
        }
        "tree" => append_tree(tree, out),
        "information" => append_information(&tree.info().copy(*out.allocator())?, out),
        "black" => append_line(out, tree.info().black()),
        "outcome" => {
            let outcome = tree.info().outcome();
            let line = format!(in *out.allocator(); "{outcome:?}\n")?;
            Ok(append(out, line.as_bytes())?)
        }
        "signature" => append_signatures(tree, out),
        _ => Err(CaseError::Bad("unknown kind")),
    }
}

// Appends how many games there are, and the sizes of the last one.
fn append_summary(games: usize, tree: &GameTree, out: &mut Vec<u8>) -> Result<(), CaseError> {
    let (cols, rows) = (tree.shape().cols(), tree.shape().rows());
    let (nodes, main) = (tree.node_count(), tree.main_count());
    let moves = tree.move_number(nodes - 1);
    let line = format!(in *out.allocator();
        "games {games}, last {cols}:{rows} nodes {nodes} main {main} moves {moves}\n"
    )?;
    Ok(append(out, line.as_bytes())?)
}

// Appends the canonical text of the games, and what is written of that text where it is another.
fn append_written(alloc: Global, trees: &[GameTree], out: &mut Vec<u8>) -> Result<(), CaseError> {
    write_all(trees, out)?;
    let mut again = Vec::new(alloc);
    write_all(&faultless_trees(alloc, out)?, &mut again)?;
    if again.as_slice() != out.as_slice() {
        append_line(out, b"")?;
        append(out, &again)?;
    }
    Ok(out.push(b'\n')?)
}

fn write_all(trees: &[GameTree], out: &mut Vec<u8>) -> Result<(), CaseError> {
    for tree in trees {
        write(tree, out)?;
    }
    Ok(())
}
