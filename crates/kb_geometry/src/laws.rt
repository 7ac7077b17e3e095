// Laws of the definitions for boards and positions, for who reads a contract over them.
ghost use Rattle.std.specs.Prelude.{◌≡◌};
ghost use Rattle.kb_geometry.specs.declared.shape.Shape.{Shape};
ghost use Rattle.kb_geometry.specs.declared.shape.Point.{Point};
ghost use Rattle.kb_geometry.specs.declared.shape.Rect.{Rect};
ghost use Rattle.kb_geometry.specs.declared.stone.Cell.{Cell};
ghost use Rattle.kb_geometry.specs.Board.{IsInside, IsOnBoard, number_of};
ghost use Rattle.kb_geometry.specs.Capture.{Position, cell_at, with_rect};
ghost use Rattle.kb_geometry.specs.declared.shape.TheConstants.{MAX_POINTS, MAX_SIDE};

/// The greatest board has 52 columns and 52 rows, and 2,704 points.
pub fn the_greatest_board_is_52_by_52()
    ensures sides { MAX_SIDE ≡ 52 }
    ensures points { MAX_POINTS ≡ 2704 }
{}

/// A setup sets the points of its rectangle and no other point.
pub fn a_setup_sets_its_rectangle_alone()
    ensures inside { (shape : Shape) (position : Position) (stone : Cell) (r : Rect) (p : Point) →
        IsOnBoard shape p →
        IsInside r p → cell_at (with_rect shape position stone r) (number_of shape p) ≡ stone }
    ensures outside { (shape : Shape) (position : Position) (stone : Cell) (r : Rect) (p : Point) →
        IsOnBoard shape p →
        ¬ IsInside r p →
        cell_at (with_rect shape position stone r) (number_of shape p)
        ≡ cell_at position (number_of shape p) }
{}
