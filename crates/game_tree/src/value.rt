// The forms of values: sizes, points, moves and setups.
ghost use Rattle.std.specs.Prelude.{
  ◌≡◌,
  ◌≢◌,
  ◌+◌,
  ◌≤◌,
  ◌<◌,
  ◌⊎◌,
  ℕ,
  List,
  [],
  ◌∷◌,
  ◌++◌,
  All,
  Option,
  Some,
  None,
  IfSome,
  IsTrue,
  ◌↔◌,
  codes,
  min,
};
ghost use Rattle.std.specs.Str.Parse.{AllDigits, digits_value};
ghost use Rattle.kb_geometry.specs.declared.shape.Point.{Point};
ghost use Rattle.kb_geometry.specs.declared.shape.Rect.{Rect};
ghost use Rattle.kb_geometry.specs.declared.shape.Shape.{Shape};
ghost use Rattle.kb_geometry.specs.Board.{IsOnBoard, cols_of, rows_of, IsOrderedRectOnBoard};
ghost use Rattle.kb_geometry.specs.Side.{IsSide};
ghost use Rattle.sgf_reader.specs.Bytes.{colon, digit_nine, digit_zero, space};
ghost use Rattle.game_tree.specs.Property.{IsTrimmed};
ghost use Rattle.game_tree.specs.Value.{
  IsCoordinate,
  IsMoveText,
  IsMoveValue,
  IsPoint,
  IsSetupText,
  IsSetupValue,
  IsSideText,
  IsSize,
  rect_of,
};

use kb_geometry::{MAX_SIDE, Point, Rect, Shape};

// The greatest board on which `tt` is a pass.
const MAX_PASS_SIDE: u8 = 19;

// The first number past the greatest side.
const PAST_SIDE: u8 = MAX_SIDE + 1;

// A value without the white space, bytes up to the space, at either end.
pub(crate) fn trimmed(value: &[u8]) -> &[u8]
    ensures { IsTrimmed value.now result.now }
{
    without_trailing_white(without_leading_white(value))
}

// A value without the white space before it.
fn without_leading_white(value: &[u8]) -> &[u8]
    ensures split { (before : List ℕ) × (value.now ≡ before ++ result.now)
        × All (λ (b : ℕ). b ≤ space) before }
    ensures first { (b : ℕ) (rest : List ℕ) → result.now ≡ b ∷ rest → space < b }
{
    let mut rest = value;
    while let [b, others @ ..] = rest {
        if *b > 32 {
            return rest;
        }
        rest = others;
    }
    rest
}

// A value without the white space behind it.
fn without_trailing_white(value: &[u8]) -> &[u8]
    ensures split { (after : List ℕ) × (value.now ≡ result.now ++ after)
        × All (λ (b : ℕ). b ≤ space) after }
    ensures last { (b : ℕ) (rest : List ℕ) → result.now ≡ rest ++ b ∷ [] → space < b }
{
    let mut rest = value;
    while let [others @ .., b] = rest {
        if *b > 32 {
            return rest;
        }
        rest = others;
    }
    rest
}

// A decimal digit.
fn digit_of(b: u8) -> Option<u8>
    ensures some { IfSome result (λ d. (d ≤ 9) × (b ≡ digit_zero + d)) }
    ensures none { result ≡ None → (b < digit_zero) ⊎ (digit_nine < b) }
{
    let digit = b.checked_sub(b'0')?;
    if digit <= 9 { Some(digit) } else { None }
}

// The number that decimal digits write, or the first one past the greatest side where theirs is
// past it.
fn number_of(text: &[u8]) -> Option<u8>
    ensures some { IfSome result (λ n.
        AllDigits 10 text.now × (n ≡ min (digits_value 10 text.now) PAST_SIDE)) }
    ensures none { result ≡ None → ¬ AllDigits 10 text.now }
{
    let mut number: u8 = 0;
    let mut rest = text;
    while let [b, others @ ..] = rest {
        let digit = digit_of(*b)?;
        number = number
            .saturating_mul(10)
            .saturating_add(digit)
            .min(PAST_SIDE);
        rest = others;
    }
    Some(number)
}

// The number of columns or rows that a text names.
fn side_of(text: &[u8]) -> Option<u8>
    ensures some { IfSome result (λ n. IsSideText text.now n) }
    ensures none { result ≡ None → (n : ℕ) → ¬ IsSideText text.now n }
{
    if text.is_empty() {
        return None;
    }
    let number = number_of(text)?;
    if 1 <= number && number <= MAX_SIDE {
        Some(number)
    } else {
        None
    }
}

// What stands on either side of the first colon, if there is one.
fn around_colon(text: &[u8]) -> Option<(&[u8], &[u8])>
    ensures some { IfSome result (λ r.
        (text.now ≡ r.0.now ++ colon ∷ r.1.now) × All (λ (b : ℕ). b ≢ colon) r.0.now) }
    ensures none { result ≡ None → All (λ (b : ℕ). b ≢ colon) text.now }
{
    let at = text.iter().position(|b| *b == b':')?;
    Some((&text[..at], &text[at + 1..]))
}

// The board with these sides.
fn shape_of(cols: u8, rows: u8) -> Option<Shape>
    requires cols { IsSide cols }
    requires rows { IsSide rows }
    ensures { (shape : Shape) × (result ≡ Some shape) × (cols_of shape ≡ cols)
        × (rows_of shape ≡ rows) }
{
    Shape::new(cols, rows)
}

// The board that a size names.
pub(crate) fn size_of(text: &[u8]) -> Option<Shape>
    ensures some { IfSome result (λ shape. IsSize text.now shape) }
    ensures none { result ≡ None → (shape : Shape) → ¬ IsSize text.now shape }
{
    match around_colon(text) {
        Some((columns, rows)) => shape_of(side_of(columns)?, side_of(rows)?),
        None => {
            let side = side_of(text)?;
            shape_of(side, side)
        }
    }
}

// The column or row that a letter names.
fn coordinate_of(letter: u8) -> Option<u8>
    ensures some { IfSome result (λ n. IsCoordinate letter n) }
    ensures none { result ≡ None → (n : ℕ) → ¬ IsCoordinate letter n }
{
    match letter {
        b'a'..=b'z' => Some(letter - b'a'),
        b'A'..=b'Z' => Some(letter - b'A' + 26),
        _ => None,
    }
}

// The two letters of a text that has no more.
fn two_letters(text: &[u8]) -> Option<(u8, u8)>
    ensures some { IfSome result (λ r. text.now ≡ r.0 ∷ r.1 ∷ []) }
    ensures none { result ≡ None → (a b : ℕ) → text.now ≢ a ∷ b ∷ [] }
{
    let [column, row] = text else {
        return None;
    };
    Some((*column, *row))
}

// The point of the board that two letters name.
fn point_of(shape: Shape, text: &[u8]) -> Option<Point>
    ensures some { IfSome result (λ p. IsPoint shape text.now p) }
    ensures on_board { IfSome result (λ p. IsOnBoard shape p) }
    ensures none { result ≡ None → (p : Point) → ¬ IsPoint shape text.now p }
{
    let (column, row) = two_letters(text)?;
    let x = coordinate_of(column)?;
    let y = coordinate_of(row)?;
    if x < shape.cols() && y < shape.rows() {
        Some(Point { x, y })
    } else {
        None
    }
}

// What a move's value says: a point, or no point for a pass. None is answered where it says
// neither.
pub(crate) fn move_of(shape: Shape, value: &[u8]) -> Option<Option<Point>>
    ensures some { IfSome result (λ move. IsMoveValue shape value.now move) }
    ensures on_board { IfSome result (λ move. IfSome move (λ (p : Point). IsOnBoard shape p)) }
    ensures none { result ≡ None → (move : Option Point) → ¬ IsMoveValue shape value.now move }
{
    // Mostly it is two letters and nothing else.
    match point_of(shape, value) {
        Some(point) => Some(Some(point)),
        None => trimmed_move_of(shape, value),
    }
}

// What a move's value says, by its text without white space at either end.
fn trimmed_move_of(shape: Shape, value: &[u8]) -> Option<Option<Point>>
    ensures some { IfSome result (λ move. IsMoveValue shape value.now move) }
    ensures on_board { IfSome result (λ move. IfSome move (λ (p : Point). IsOnBoard shape p)) }
    ensures none { result ≡ None → (move : Option Point) → ¬ IsMoveValue shape value.now move }
{
    let text = trimmed(value);
    if is_pass(shape, text) {
        Some(None)
    } else {
        Some(Some(point_of(shape, text)?))
    }
}

// Whether a move's text is a pass: the empty one, and `tt` on boards where that is a pass.
fn is_pass(shape: Shape, text: &[u8]) -> bool
    ensures { IsTrue result ↔ IsMoveText shape text.now None }
{
    text.is_empty() || (is_written_pass(text) && has_written_pass(shape))
}

// Whether a text is `tt`.
fn is_written_pass(text: &[u8]) -> bool
    ensures { IsTrue result ↔ (text.now ≡ codes "tt") }
{
    text == b"tt".as_slice()
}

// Whether `tt` is a pass on this board.
fn has_written_pass(shape: Shape) -> bool
    ensures { IsTrue result ↔ ((cols_of shape ≤ 19) × (rows_of shape ≤ 19)) }
{
    shape.cols() <= MAX_PASS_SIDE && shape.rows() <= MAX_PASS_SIDE
}

// The rectangle of two opposite corners.
fn rect_of(p: Point, q: Point) -> Rect
    ensures { result ≡ rect_of p q }
{
    Rect {
        x0: p.x.min(q.x),
        y0: p.y.min(q.y),
        x1: p.x.max(q.x),
        y1: p.y.max(q.y),
    }
}

// The rectangle that a setup's text names: one point, or two opposite corners with a colon.
fn rect_at(shape: Shape, text: &[u8]) -> Option<Rect>
    ensures some { IfSome result (λ r. IsSetupText shape text.now (Some r)) }
    ensures on_board { IfSome result (λ r. IsOrderedRectOnBoard shape r) }
    ensures none { result ≡ None → (r : Rect) → ¬ IsSetupText shape text.now (Some r) }
{
    match around_colon(text) {
        Some((one, other)) => {
            let p = point_of(shape, one)?;
            let q = point_of(shape, other)?;
            Some(rect_of(p, q))
        }
        None => {
            let p = point_of(shape, text)?;
            Some(rect_of(p, p))
        }
    }
}

// What a setup's value says: a rectangle, or nothing where it is empty. None is answered where it
// says neither.
pub(crate) fn setup_of(shape: Shape, value: &[u8]) -> Option<Option<Rect>>
    ensures some { IfSome result (λ rect. IsSetupValue shape value.now rect) }
    ensures on_board { IfSome result
        (λ rect. IfSome rect (λ (r : Rect). IsOrderedRectOnBoard shape r)) }
    ensures none { result ≡ None → (rect : Option Rect) → ¬ IsSetupValue shape value.now rect }
{
    let text = trimmed(value);
    if text.is_empty() {
        return Some(None);
    }
    Some(Some(rect_at(shape, text)?))
}
