// Symmetries and labels, and where they move points and rectangles.
use crate::reading::{byte_in, point_in, rect_in, shape_in, text_of};
use crate::writing::{put, put_number, put_point, put_rect};
use case_files::{Case, CaseError};
use kb_geometry::{Label, Symmetry, apply, apply_rect, apply_within, inverse, turned};

// The symmetry with a number, and its inverse.
pub(crate) fn symmetry(case: &Case<'_>, out: &mut Vec<u8>) -> Result<(), CaseError> {
    let number = byte_in(text_of(case)?.split_whitespace().next())?;
    let Some(symmetry) = Symmetry::new(number) else {
        return put(out, "none");
    };
    put_number(out, u64::from(symmetry.number()))?;
    put(out, ", inverse ")?;
    put_number(out, u64::from(inverse(symmetry).number()))
}

// The label with a number, its symmetry, and whether it exchanges the colours.
pub(crate) fn label(case: &Case<'_>, out: &mut Vec<u8>) -> Result<(), CaseError> {
    let number = byte_in(text_of(case)?.split_whitespace().next())?;
    let Some(label) = Label::new(number) else {
        return put(out, "none");
    };
    put_number(out, u64::from(label.number()))?;
    put(out, ", symmetry ")?;
    put_number(out, u64::from(label.symmetry().number()))?;
    if label.exchanged() {
        put(out, ", exchanged")?;
    }
    Ok(())
}

fn symmetry_in(word: Option<&str>) -> Result<Symmetry, CaseError> {
    Symmetry::new(byte_in(word)?).ok_or(CaseError::Bad("no symmetry"))
}

// Where a symmetry moves a point of a board, and where its inverse moves that point.
pub(crate) fn image(case: &Case<'_>, out: &mut Vec<u8>) -> Result<(), CaseError> {
    let shape = shape_in(case.word(0))?;
    let mut words = text_of(case)?.split_whitespace();
    let symmetry = symmetry_in(words.next())?;
    let point = point_in(words.next())?;
    if !symmetry.is_allowed_on(shape) {
        return put(out, "no symmetry of the board");
    }
    if point.x >= shape.cols() || point.y >= shape.rows() {
        return put(out, "off the board");
    }
    let there = apply(symmetry, shape, point);
    put_point(out, there)?;
    put(out, ", back ")?;
    put_point(out, apply_within(inverse(symmetry), shape, there))
}

// Where a symmetry moves a rectangle of a board.
pub(crate) fn rectangle(case: &Case<'_>, out: &mut Vec<u8>) -> Result<(), CaseError> {
    let shape = shape_in(case.word(0))?;
    let mut words = text_of(case)?.split_whitespace();
    let symmetry = symmetry_in(words.next())?;
    let r = rect_in(words.next())?;
    if !symmetry.is_allowed_on(shape) {
        return put(out, "no symmetry of the board");
    }
    if r.x0 <= r.x1 && r.y0 <= r.y1 && r.x1 < shape.cols() && r.y1 < shape.rows() {
        put_rect(out, apply_rect(symmetry, shape, r))
    } else {
        put(out, "no rectangle of the board")
    }
}

// Where a symmetry moves a point of a rectangle in the rectangle's own frame, the size of the
// rectangle then, and where the inverse moves that point.
pub(crate) fn within(case: &Case<'_>, out: &mut Vec<u8>) -> Result<(), CaseError> {
    let size = shape_in(case.word(0))?;
    let mut words = text_of(case)?.split_whitespace();
    let symmetry = symmetry_in(words.next())?;
    let point = point_in(words.next())?;
    if point.x >= size.cols() || point.y >= size.rows() {
        return put(out, "off the board");
    }
    let to = turned(symmetry, size);
    let there = apply_within(symmetry, size, point);
    put_point(out, there)?;
    put(out, " in ")?;
    put_number(out, u64::from(to.cols()))?;
    put(out, "x")?;
    put_number(out, u64::from(to.rows()))?;
    put(out, ", back ")?;
    if there.x < to.cols() && there.y < to.rows() {
        put_point(out, apply_within(inverse(symmetry), to, there))
    } else {
        put(out, "from beside it")
    }
}
