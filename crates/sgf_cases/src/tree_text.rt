// All that the readers of a tree answer.
use crate::parts::{append_board, append_content};
use case_files::CaseError;
use game_tree::{Children, GameTree};
use kb_geometry::{append, append_decimal};

/// Appends a tree, a line for each node, and its copy where that is another.
pub(crate) fn append_tree(tree: &GameTree, out: &mut Vec<u8>) -> Result<(), CaseError> {
    append_nodes(tree, out)?;
    let alloc = *out.allocator();
    let mut copied = Vec::new(alloc);
    append_nodes(&tree.copy(alloc)?, &mut copied)?;
    if copied.as_slice() != out.as_slice() {
        append(out, &copied)?;
    }
    Ok(())
}

fn append_nodes(tree: &GameTree, out: &mut Vec<u8>) -> Result<(), CaseError> {
    append_board(out, tree.shape())?;
    for number in 0..tree.node_count() {
        append_place(out, tree, number)?;
        append_content(out, tree, number)?;
        out.push(b'\n')?;
    }
    Ok(())
}

// Appends where a node stands in its tree.
fn append_place(out: &mut Vec<u8>, tree: &GameTree, number: u32) -> Result<(), CaseError> {
    if number >= tree.node_count() {
        return Ok(());
    }
    let alloc = *out.allocator();
    let head = match tree.parent(number) {
        Some(parent) => format!(in alloc; "{number} below {parent}")?,
        None => format!(in alloc; "{number} root")?,
    };
    append(out, head.as_bytes())?;
    append_number(out, " first ", tree.first_child(number))?;
    append_number(out, " next ", tree.next_sibling(number))?;
    append_children(out, tree.children(number))?;
    let line = if tree.is_main(number) { "main" } else { "off" };
    let moves = tree.move_number(number);
    let tail = format!(in alloc; " {line} {moves}: ")?;
    Ok(append(out, tail.as_bytes())?)
}

fn append_children(out: &mut Vec<u8>, children: Children<'_>) -> Result<(), CaseError> {
    append(out, b" children [")?;
    let mut gap = b"".as_slice();
    for child in children {
        append(out, gap)?;
        append_decimal(out, u64::from(child))?;
        gap = b" ";
    }
    Ok(append(out, b"]")?)
}

// Appends the number of a node behind these words, or `-` where there is none.
fn append_number(out: &mut Vec<u8>, words: &str, number: Option<u32>) -> Result<(), CaseError> {
    let alloc = *out.allocator();
    let shown = match number {
        Some(number) => format!(in alloc; "{words}{number}")?,
        None => format!(in alloc; "{words}-")?,
    };
    Ok(append(out, shown.as_bytes())?)
}
