// What is put in, read: numbers, points, rectangles, boards, cells and games.
use case_files::{Case, CaseError};
use game_tree::{GameTree, build_flat};
use kb_geometry::{Cell, Point, Rect, Shape};
use sgf_reader::read_flat;
use std::alloc::Global;
use std::str;

// A text that is to be UTF-8.
pub(crate) fn utf8(bytes: &[u8]) -> Result<&str, CaseError> {
    match str::from_utf8(bytes) {
        Ok(text) => Ok(text),
        Err(_) => Err(CaseError::Bad("the text isn't UTF-8")),
    }
}

// The text in front of the named parts.
pub(crate) fn text_of<'a>(case: &'a Case<'_>) -> Result<&'a str, CaseError> {
    utf8(case.text())
}

// The number that this word is.
pub(crate) fn long_in(word: Option<&str>) -> Result<u64, CaseError> {
    let Some(word) = word else {
        return Err(CaseError::Bad("a number is missing"));
    };
    match word.parse::<u64>() {
        Ok(number) => Ok(number),
        Err(_) => Err(CaseError::Bad("no number")),
    }
}

// The same, below 65,536.
pub(crate) fn number_in(word: Option<&str>) -> Result<u16, CaseError> {
    let number = long_in(word)?;
    if number < 65_536 {
        Ok(number as u16)
    } else {
        Err(CaseError::Bad("no number below 65536"))
    }
}

// The same, below 256.
pub(crate) fn byte_in(word: Option<&str>) -> Result<u8, CaseError> {
    let number = long_in(word)?;
    if number < 256 {
        Ok(number as u8)
    } else {
        Err(CaseError::Bad("no number below 256"))
    }
}

// The numbers of a text.
pub(crate) fn numbers_in(alloc: Global, text: &str) -> Result<Vec<u16>, CaseError> {
    let mut numbers = Vec::new(alloc);
    for word in text.split_whitespace() {
        numbers.push(number_in(Some(word))?)?;
    }
    Ok(numbers)
}

// The two numbers of `5x3`.
pub(crate) fn sides_in(word: Option<&str>) -> Result<(u8, u8), CaseError> {
    let word = word.ok_or(CaseError::Bad("no sides as in 5x3"))?;
    let (cols, rows) = word
        .split_once("x")
        .ok_or(CaseError::Bad("no sides as in 5x3"))?;
    Ok((byte_in(Some(cols))?, byte_in(Some(rows))?))
}

// The board of `5x3`.
pub(crate) fn shape_in(word: Option<&str>) -> Result<Shape, CaseError> {
    let (cols, rows) = sides_in(word)?;
    Shape::new(cols, rows).ok_or(CaseError::Bad("no sides of a board"))
}

// The point of two letters as in SGF, or of a column and a row as in `255,0`.
pub(crate) fn point_in(word: Option<&str>) -> Result<Point, CaseError> {
    let word = word.ok_or(CaseError::Bad("no point"))?;
    if let Some((x, y)) = word.split_once(",") {
        let x = byte_in(Some(x))?;
        let y = byte_in(Some(y))?;
        return Ok(Point { x, y });
    }
    match word.as_bytes() {
        [x, y] => Ok(Point {
            x: side_in(*x)?,
            y: side_in(*y)?,
        }),
        _ => Err(CaseError::Bad("no point of two letters")),
    }
}

fn side_in(letter: u8) -> Result<u8, CaseError> {
    match letter {
        b'a'..=b'z' => Ok(letter - b'a'),
        b'A'..=b'Z' => Ok(letter - b'A' + 26),
        _ => Err(CaseError::Bad("no point of two letters")),
    }
}

// The rectangle of two corners, as `ba:cb`, or of one point.
pub(crate) fn rect_in(word: Option<&str>) -> Result<Rect, CaseError> {
    let word = word.ok_or(CaseError::Bad("no rectangle"))?;
    let (first, last) = word.split_once(":").unwrap_or((word, word));
    let first = point_in(Some(first))?;
    let last = point_in(Some(last))?;
    Ok(Rect {
        x0: first.x,
        y0: first.y,
        x1: last.x,
        y1: last.y,
    })
}

// The cell of `.`, `X` or `O`.
pub(crate) fn cell_in(sign: Option<&str>) -> Result<Cell, CaseError> {
    match sign {
        Some(".") => Ok(Cell::Empty),
        Some("X") => Ok(Cell::Black),
        Some("O") => Ok(Cell::White),
        _ => Err(CaseError::Bad("none of . X O")),
    }
}

// The games of an SGF text.
pub(crate) fn games_in(alloc: Global, text: &[u8]) -> Result<Vec<GameTree>, CaseError> {
    let Ok(collection) = read_flat(alloc, text) else {
        return Err(CaseError::Bad("not an SGF text"));
    };
    match build_flat(alloc, text, &collection) {
        Ok(games) => Ok(games),
        Err(_) => Err(CaseError::Bad("not a text of games")),
    }
}
