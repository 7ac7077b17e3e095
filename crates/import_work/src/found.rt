// What is found in a file, before it is known whether the base has room for it.
ghost use Rattle.std.specs.Prelude.{◌≤◌, length, IfOk};
ghost use Rattle.node_position.specs.Games.{AreNodeChanges};
ghost use Rattle.import_work.specs.Found.{AreGamesOfFile, IsFoundInBytes};

use crate::outcome::{Parsed, parse};
use capture_board::{Board, ChangeList, NodeDeltas};
use game_tree::GameTree;
use kb_geometry::{NoMemory, Shape, Text};
use node_position::deltas_with;
use segment_store::{FinishedGame, Segment};
use sgf_reader::FaultKind;
use std::alloc::Global;
use std::sync::{Arc, ArcStr};

// What is found in a file.
#[derive(Debug, Drop)]
pub(crate) enum Found {
    // Nothing, since it was not read.
    Unread,
    // Its first fault, at this byte offset.
    Refused {
        kind: FaultKind,
        at: u32,
    },
    // Its games, in order, with what is kept beside them, and how many nodes they have.
    Games {
        games: Vec<Arc<FinishedGame>>,
        nodes: u64,
    },
}

// A file by its name, and what is found in it.
#[derive(Debug, Drop)]
pub(crate) struct FoundFile {
    pub name: Text,
    pub found: Found,
}

// The files of a piece, and the segment of all games that are found in them, unless they are more than
// a segment may have.
#[derive(Debug, Drop)]
pub(crate) struct FoundPiece {
    pub files: Vec<FoundFile>,
    pub games: Option<Segment>,
}

// What the changes of games are made with: a board and a list with room for the greatest board.
#[derive(Drop)]
pub(crate) struct Follower {
    board: Board,
    changes: ChangeList,
}

impl Follower {
    pub(crate) fn new() -> Self {
        Follower {
            board: Board::empty(Shape::standard()),
            changes: ChangeList::new(),
        }
    }

    // What each node of a tree changes.
    pub(crate) fn deltas(&mut self, alloc: Global, tree: &GameTree) -> Result<NodeDeltas, NoMemory>
        ensures { IfOk result (AreNodeChanges tree.now) }
    {
        deltas_with(alloc, tree, &mut self.board, &mut self.changes)
    }
}

// What is found in a file of this name with these bytes.
pub(crate) fn found_in(
    alloc: Global,
    follower: &mut Follower,
    name: &str,
    bytes: &[u8],
) -> Result<Found, NoMemory>
    ensures { IfOk result (IsFoundInBytes name.now bytes.now) }
{
    match parse(alloc, bytes) {
        Ok(Parsed::Refused { kind, at }) => Ok(Found::Refused { kind, at }),
        Ok(Parsed::Games(trees)) => games_found(alloc, follower, name, trees),
        Err(error) => Err(error),
    }
}

// The games of a file of this name with these trees, each with its place in the file and what is
// kept beside it. They share the name.
fn games_found(
    alloc: Global,
    follower: &mut Follower,
    name: &str,
    trees: Vec<GameTree>,
) -> Result<Found, NoMemory>
    requires { length trees.items ≤ 65536 }
    ensures { IfOk result (AreGamesOfFile name.now trees.items) }
{
    let file = ArcStr::from_str(alloc, name)?;
    let mut games = Vec::with_capacity(alloc, trees.len())?;
    let mut place = 0;
    let mut nodes = 0;
    for tree in trees {
        nodes += u64::from(tree.node_count());
        let deltas = follower.deltas(alloc, &tree)?;
        let game = FinishedGame::new(alloc, file.clone()?, place, tree, deltas)?;
        games.push(Arc::new(alloc, game)?)?;
        place += 1;
    }
    Ok(Found::Games { games, nodes })
}
