// Queries: a pattern, and where it is looked for.
ghost use Rattle.std.specs.Prelude.{◌≡◌, ◌↔◌, false, IsTrue, IfOk, None};

use crate::Pattern;
use kb_geometry::{Label, NoMemory, Rect, Shape};
use std::alloc::Global;

/// A search for a pattern in games.
#[derive(Debug, Drop)]
pub struct Query {
    pub pattern: Pattern,
    /// Black and white are not exchanged.
    pub same: bool,
    /// The pattern isn't turned or mirrored.
    pub fixed: bool,
    /// Only nodes of the main line count.
    pub main: bool,
    /// Only games on this board count, if there is one.
    pub board: Option<Shape>,
    /// The least move number that counts.
    pub from_move: u32,
    /// The greatest move number that counts.
    pub to_move: u32,
    /// Where the pattern's upper left point may stand before it is moved, if that is told. Both
    /// corners belong to the rectangle. It may reach past the board.
    pub at: Option<Rect>,
}

impl Query {
    ghost use Rattle.kb_geometry.specs.Symmetry.{number_of_label};
    ghost use Rattle.pattern_images.specs.Query.{IsForBoard, IsLabelOf};

    /// The query that looks for this pattern everywhere: at all nodes of games on all boards,
    /// turned and mirrored, and with the colours exchanged.
    pub fn new(pattern: Pattern) -> Query
        ensures { result ≡ record {
          pattern = pattern;
          same = false;
          fixed = false;
          main = false;
          board = None;
          from_move = 0;
          to_move = 65536;
          at = None;
        } }
    {
        Query {
            pattern,
            same: false,
            fixed: false,
            main: false,
            board: None,
            from_move: 0,
            to_move: 65_536,
            at: None,
        }
    }

    /// Whether the query looks on boards of this shape.
    pub fn is_for(&self, shape: Shape) -> bool
        ensures { IsTrue result ↔ IsForBoard self.now shape }
    {
        match self.board {
            Some(board) => board == shape,
            None => true,
        }
    }

    // Whether the label is one of the query's on a board of this shape.
    pub(crate) fn has_label(&self, shape: Shape, label: Label) -> bool
        ensures { IsTrue result ↔ IsLabelOf self.now shape (number_of_label label) }
    {
        let symmetry = label.symmetry();
        if !symmetry.is_allowed_on(shape) {
            return false;
        }
        if self.fixed && symmetry.number() != 0 {
            return false;
        }
        !(self.same && label.exchanged())
    }

    /// An equal query. The only error is `NoMemory`.
    pub fn copy(&self, alloc: Global) -> Result<Query, NoMemory>
        ensures { IfOk result (λ copied. copied ≡ self.now) }
    {
        let pattern = self.pattern.copy(alloc)?;
        Ok(Query {
            pattern,
            same: self.same,
            fixed: self.fixed,
            main: self.main,
            board: self.board,
            from_move: self.from_move,
            to_move: self.to_move,
            at: self.at,
        })
    }
}
