// The words of a search.
ghost use Rattle.std.specs.Prelude.{
  ◌≡◌,
  ◌≢◌,
  ◌≤◌,
  ◌<◌,
  ℕ,
  Bool,
  List,
  [],
  ◌∷◌,
  Option,
  Some,
  None,
  codes,
  IfOk,
  IfSome,
  IfNone,
};
ghost use Rattle.kb_geometry.specs.declared.shape.Rect.{Rect};
ghost use Rattle.kb_geometry.specs.declared.shape.Shape.{Shape};
ghost use Rattle.kb_geometry.specs.Board.{cols_of, rows_of};
ghost use Rattle.kb_geometry.specs.Side.{IsSide};
ghost use Rattle.pattern_images.specs.declared.pattern.Pattern.{Pattern};
ghost use Rattle.pattern_images.specs.declared.query.Query.{Query};
ghost use Rattle.query_script.specs.declared.search_words.Moves.{Moves};
ghost use Rattle.query_script.specs.declared.word.Word.{Word};
ghost use Rattle.query_script.specs.Search.{
  IsAt,
  IsBoardOption,
  IsBody,
  IsCoordinateWord,
  IsFlag,
  IsPattern,
  most_moves,
  rect,
};
ghost use Rattle.query_script.specs.Words.{IsNumber, bare};
ghost use Rattle.query_script.specs.Reading.{AreMovesOf, AreParted, BeginsOtherwise, IsPointAt};

use crate::number::number_up_to;
use crate::word::Word;
use kb_geometry::{MAX_SIDE, NoMemory, Point, Rect, Shape};
use pattern_images::{Pattern, Query};
use pattern_syntax::{PatternError, read_pattern};
use std::alloc::Global;

// The greatest move number.
pub(crate) const MAX_MOVES: u32 = 65_536;

// The least and the greatest move number that count.
#[derive(Clone, Copy, Debug, PartialEq, Eq)]
pub(crate) struct Moves {
    from: u32,
    to: u32,
}

// The query that the words behind `search` spell, if they spell one. The only error is `NoMemory`.
pub(crate) fn query_of(alloc: Global, words: &[Word]) -> Result<Option<Query>, NoMemory>
    ensures some { IfOk result (λ found. IfSome found (λ query. IsBody words.now query)) }
    ensures none { IfOk result (λ found. IfNone found ((query : Query) →
        ¬ IsBody words.now query)) }
{
    let (same, rest) = flag(words, b"same");
    let (fixed, rest) = flag(rest, b"fixed");
    let (main, rest) = flag(rest, b"main");
    let Some((board, rest)) = board_of(rest) else {
        return Ok(None);
    };
    let Some((moves, rest)) = moves_of(rest) else {
        return Ok(None);
    };
    let Some((at, rest)) = at_of(rest) else {
        return Ok(None);
    };
    let Some(pattern) = pattern_of(alloc, rest)? else {
        return Ok(None);
    };
    Ok(Some(Query {
        pattern,
        same,
        fixed,
        main,
        board,
        from_move: moves.from,
        to_move: moves.to,
        at,
    }))
}

// Whether the words begin with this option of one word, and the words behind it.
pub(crate) fn flag<'a>(words: &'a [Word], name: &[u8]) -> (bool, &'a [Word])
    ensures parted { AreParted (IsFlag name.now) words.now result.0 result.1.now }
    ensures only { (given : Bool) (rest : List Word) →
        AreParted (IsFlag name.now) words.now given rest → BeginsOtherwise name.now rest →
        (given ≡ result.0) × (rest ≡ result.1.now) }
{
    match behind_name(words, name) {
        Some(rest) => (true, rest),
        None => (false, words),
    }
}

// The words behind this bare word, if they begin with it.
pub(crate) fn behind_name<'a>(words: &'a [Word], name: &[u8]) -> Option<&'a [Word]>
    ensures some { IfSome result (λ rest. words.now ≡ bare name.now ∷ rest.now) }
    ensures none { result ≡ None → BeginsOtherwise name.now words.now }
{
    let [word, rest @ ..] = words else {
        return None;
    };
    if word.is_bare(name) { Some(rest) } else { None }
}

// The first two words, and the words behind them.
pub(crate) fn two_words(words: &[Word]) -> Option<(&Word, &Word, &[Word])>
    ensures some { IfSome result (λ r. words.now ≡ r.0.now ∷ r.1.now ∷ r.2.now) }
    ensures none { result ≡ None → (a b : Word) (rest : List Word) → words.now ≢ a ∷ b ∷ rest }
{
    let [first, second, rest @ ..] = words else {
        return None;
    };
    Some((first, second, rest))
}

// The board of `board C R` at the beginning of the words, or no board, and the words behind that.
pub(crate) fn board_of(words: &[Word]) -> Option<(Option<Shape>, &[Word])>
    ensures parted { IfSome result (λ r. AreParted IsBoardOption words.now r.0 r.1.now) }
    ensures only { IfSome result (λ r. (board : Option Shape) (rest : List Word) →
        AreParted IsBoardOption words.now board rest →
        BeginsOtherwise (codes "board") rest → (board ≡ r.0) × (rest ≡ r.1.now)) }
    ensures none { result ≡ None → (board : Option Shape) (rest : List Word) →
        AreParted IsBoardOption words.now board rest →
        ¬ BeginsOtherwise (codes "board") rest }
{
    let Some(behind) = behind_name(words, b"board") else {
        return Some((None, words));
    };
    let (cols, rows, rest) = two_words(behind)?;
    let shape = shape_of(cols, rows)?;
    Some((Some(shape), rest))
}

// The board with the columns and rows that two words name.
pub(crate) fn shape_of(cols: &Word, rows: &Word) -> Option<Shape>
    ensures some { IfSome result (λ shape. IsNumber cols.now (cols_of shape)
        × IsNumber rows.now (rows_of shape)) }
    ensures none { result ≡ None → (shape : Shape) → IsNumber cols.now (cols_of shape) →
        ¬ IsNumber rows.now (rows_of shape) }
{
    Shape::new(side_of(cols)?, side_of(rows)?)
}

// The number of columns or rows that a word names.
fn side_of(word: &Word) -> Option<u8>
    ensures some { IfSome result (λ side. IsNumber word.now side) }
    ensures none { result ≡ None → (side : ℕ) → IsSide side → ¬ IsNumber word.now side }
{
    let side = number_up_to(word, u64::from(MAX_SIDE))?;
    Some(side as u8)
}

// The move numbers of `moves A B` at the beginning of the words, or all of them, and the words
// behind that.
fn moves_of(words: &[Word]) -> Option<(Moves, &[Word])>
    ensures parted { IfSome result (λ r. AreParted AreMovesOf words.now r.0 r.1.now) }
    ensures only { IfSome result (λ r. (moves : Moves) (rest : List Word) →
        AreParted AreMovesOf words.now moves rest →
        BeginsOtherwise (codes "moves") rest → (moves ≡ r.0) × (rest ≡ r.1.now)) }
    ensures none { result ≡ None → (moves : Moves) (rest : List Word) →
        AreParted AreMovesOf words.now moves rest →
        ¬ BeginsOtherwise (codes "moves") rest }
{
    let Some(behind) = behind_name(words, b"moves") else {
        return Some((
            Moves {
                from: 0,
                to: MAX_MOVES,
            },
            words,
        ));
    };
    let (from, to, rest) = two_words(behind)?;
    let moves = moves_between(from, to)?;
    Some((moves, rest))
}

// The move numbers that two words name.
fn moves_between(from: &Word, to: &Word) -> Option<Moves>
    ensures some { IfSome result (λ moves. IsNumber from.now moves.from × IsNumber to.now moves.to
        × (moves.from ≤ moves.to) × (moves.to ≤ most_moves)) }
    ensures none { result ≡ None → (a b : ℕ) → a ≤ b → b ≤ most_moves → IsNumber from.now a →
        ¬ IsNumber to.now b }
{
    let to = number_up_to(to, u64::from(MAX_MOVES))?;
    let from = number_up_to(from, to)?;
    Some(Moves {
        from: from as u32,
        to: to as u32,
    })
}

// The rectangle of `at X Y` or `at X Y to X1 Y1` at the beginning of the words, or none, and the
// words behind that.
pub(crate) fn at_of(words: &[Word]) -> Option<(Option<Rect>, &[Word])>
    ensures parted { IfSome result (λ r. AreParted IsAt words.now r.0 r.1.now) }
    ensures only { IfSome result (λ r. (at : Option Rect) (rest : List Word) →
        AreParted IsAt words.now at rest →
        BeginsOtherwise (codes "at") rest → BeginsOtherwise (codes "to") rest →
        (at ≡ r.0) × (rest ≡ r.1.now)) }
    ensures none { result ≡ None → (at : Option Rect) (rest : List Word) →
        AreParted IsAt words.now at rest →
        BeginsOtherwise (codes "at") rest → ¬ BeginsOtherwise (codes "to") rest }
{
    let Some(behind) = behind_name(words, b"at") else {
        return Some((None, words));
    };
    let (first, behind_first) = point_at(behind)?;
    let Some(behind_to) = behind_name(behind_first, b"to") else {
        return Some((Some(rect_of(first, first)), behind_first));
    };
    let (last, rest) = point_at(behind_to)?;
    if first.x > last.x || first.y > last.y {
        return None;
    }
    Some((Some(rect_of(first, last)), rest))
}

// The point whose column and row the first two words name, and the words behind them.
fn point_at(words: &[Word]) -> Option<(Point, &[Word])>
    ensures some { IfSome result (λ r. IsPointAt words.now r.0.x r.0.y r.1.now) }
    ensures none { result ≡ None → (x y : ℕ) (rest : List Word) → ¬ IsPointAt words.now x y rest }
{
    let (column, row, rest) = two_words(words)?;
    let x = coordinate_of(column)?;
    let y = coordinate_of(row)?;
    Some((Point { x, y }, rest))
}

// The column or row that a word names.
fn coordinate_of(word: &Word) -> Option<u8>
    ensures some { IfSome result (λ n. IsCoordinateWord word.now n) }
    ensures none { result ≡ None → (n : ℕ) → ¬ IsCoordinateWord word.now n }
{
    let number = number_up_to(word, u64::from(MAX_SIDE - 1))?;
    Some(number as u8)
}

// The rectangle with these upper left and lower right corners.
fn rect_of(first: Point, last: Point) -> Rect
    ensures { result ≡ rect first.x first.y last.x last.y }
{
    Rect {
        x0: first.x,
        y0: first.y,
        x1: last.x,
        y1: last.y,
    }
}

// The pattern that the only word spells, if there is one word and it spells one. The only error is
// `NoMemory`.
pub(crate) fn pattern_of(alloc: Global, words: &[Word]) -> Result<Option<Pattern>, NoMemory>
    ensures some { IfOk result (λ found. IfSome found (λ pattern. IsPattern pattern words.now)) }
    ensures none { IfOk result (λ found. IfNone found ((pattern : Pattern) →
        ¬ IsPattern pattern words.now)) }
{
    let Some(bytes) = only_bare(words) else {
        return Ok(None);
    };
    let Ok(text) = std::str::from_utf8(bytes) else {
        return Ok(None);
    };
    match read_pattern(alloc, text) {
        Ok(pattern) => Ok(Some(pattern)),
        Err(PatternError::Fault(_)) => Ok(None),
        Err(PatternError::NoMemory) => Err(NoMemory),
    }
}

// The bytes of the only word, if there is one and it is bare.
pub(crate) fn only_bare(words: &[Word]) -> Option<&[u8]>
    ensures some { IfSome result (λ bytes. words.now ≡ bare bytes.now ∷ []) }
    ensures none { result ≡ None → (bytes : List ℕ) → words.now ≢ bare bytes ∷ [] }
{
    match words {
        [Word::Bare(bytes)] => Some(bytes.as_slice()),
        _ => None,
    }
}

// The bytes of the first word, if there is one and it is bare, and the words behind it.
pub(crate) fn first_bare(words: &[Word]) -> Option<(&[u8], &[Word])>
    ensures some { IfSome result (λ r. words.now ≡ bare r.0.now ∷ r.1.now) }
    ensures none { result ≡ None → (bytes : List ℕ) (rest : List Word) →
        words.now ≢ bare bytes ∷ rest }
{
    match words {
        [Word::Bare(bytes), rest @ ..] => Some((bytes.as_slice(), rest)),
        _ => None,
    }
}
