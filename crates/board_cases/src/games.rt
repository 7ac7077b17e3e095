// The changes at the nodes of games that are given as SGF.
use crate::reading::games_in;
use capture_board::{Board, ChangeList, NodeDeltas};
use case_files::CaseError;
use kb_geometry::Shape;
use node_position::deltas_with;
use std::alloc::Global;

// The changes of each game of a text, on one board and with one list.
pub(crate) fn deltas_in(alloc: Global, text: &[u8]) -> Result<Vec<NodeDeltas>, CaseError> {
    let mut board = Board::empty(Shape::standard());
    let mut changes = ChangeList::new();
    let mut games = Vec::new(alloc);
    for tree in &games_in(alloc, text)? {
        games.push(deltas_with(alloc, tree, &mut board, &mut changes)?)?;
    }
    Ok(games)
}
