// Made games.
use crate::parts::{append_content, last_node};
use case_files::{Case, CaseError};
use kb_geometry::append;
use made_games::made_tree;
use std::alloc::Global;

/// Of the made game with the start and the number that are the words, the text of the result, what the
/// node with the number that is put in does, the number of the last node, and the board.
pub(crate) fn answer_made(
    alloc: Global,
    case: &Case<'_>,
    out: &mut Vec<u8>,
) -> Result<(), CaseError> {
    let start = case_number(case.need_word(0)?)?;
    let game = case_number(case.need_word(1)?)?;
    let text = str::from_utf8(case.text()).map_err(|_| CaseError::Bad("no number"))?;
    let node = case_number(text)?;
    let tree = made_tree(alloc, start, game)?;
    append(out, tree.info().result())?;
    append(out, b" ")?;
    append_content(out, &tree, node)?;
    let last = last_node(&tree);
    let (cols, rows) = (tree.shape().cols(), tree.shape().rows());
    let tail = format!(in alloc; " of {last} on {cols}:{rows}\n")?;
    Ok(append(out, tail.as_bytes())?)
}

fn case_number(text: &str) -> Result<u32, CaseError> {
    text.parse::<u32>().map_err(|_| CaseError::Bad("no number"))
}
