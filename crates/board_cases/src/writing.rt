// What is answered, written: words, points, runs of points, cells and changes.
use case_files::CaseError;
use kb_bits::{BOUND, BitBoard};
use kb_geometry::{Cell, Change, Point, Rect, Shape, append, append_decimal};
use std::alloc::Global;

// Appends a text.
pub(crate) fn put(out: &mut Vec<u8>, text: &str) -> Result<(), CaseError> {
    Ok(append(out, text.as_bytes())?)
}

// Appends a number.
pub(crate) fn put_number(out: &mut Vec<u8>, number: u64) -> Result<(), CaseError> {
    Ok(append_decimal(out, number)?)
}

// Appends what stands between this and what is told before: nothing at the beginning of a line, a
// blank behind a colon, and else this text.
pub(crate) fn put_between(out: &mut Vec<u8>, text: &str) -> Result<(), CaseError> {
    match out.last() {
        None | Some(b'\n') => Ok(()),
        Some(b':') => put(out, " "),
        _ => put(out, text),
    }
}

// Appends the two letters of a point.
pub(crate) fn put_point(out: &mut Vec<u8>, point: Point) -> Result<(), CaseError> {
    out.push(letter_of(point.x))?;
    out.push(letter_of(point.y))?;
    Ok(())
}

fn letter_of(side: u8) -> u8 {
    match side {
        0..=25 => b'a' + side,
        26..=51 => b'A' + (side - 26),
        _ => b'?',
    }
}

// Appends the corners of a rectangle, as `ba:cb`.
pub(crate) fn put_rect(out: &mut Vec<u8>, rect: Rect) -> Result<(), CaseError> {
    put_point(
        out,
        Point {
            x: rect.x0,
            y: rect.y0,
        },
    )?;
    put(out, ":")?;
    put_point(
        out,
        Point {
            x: rect.x1,
            y: rect.y1,
        },
    )
}

// Appends the point with this number, or the number where there is no board.
fn put_place(out: &mut Vec<u8>, shape: Option<Shape>, number: u16) -> Result<(), CaseError> {
    if let Some(shape) = shape {
        if number < shape.count() {
            return put_point(out, shape.point(number));
        }
    }
    put_number(out, u64::from(number))
}

// Appends numbers that follow each other, as the first and the last.
pub(crate) fn put_run(
    out: &mut Vec<u8>,
    shape: Option<Shape>,
    first: u16,
    last: u16,
) -> Result<(), CaseError> {
    put_place(out, shape, first)?;
    if first != last {
        put(out, "-")?;
        put_place(out, shape, last)?;
    }
    Ok(())
}

// The numbers of a set, one after another.
pub(crate) fn members_of(alloc: Global, set: &BitBoard) -> Result<Vec<u16>, CaseError> {
    let mut members = Vec::new(alloc);
    let mut from = 0u16;
    for _ in 0..BOUND {
        let Some(member) = set.next_from(from) else {
            break;
        };
        members.push(member)?;
        from = member.saturating_add(1);
    }
    Ok(members)
}

// Appends the numbers of a set in runs, or `none`.
pub(crate) fn put_members(
    out: &mut Vec<u8>,
    shape: Option<Shape>,
    set: &BitBoard,
) -> Result<(), CaseError> {
    let members = members_of(*out.allocator(), set)?;
    let mut open: Option<(u16, u16)> = None;
    for member in &members {
        match open {
            Some((first, last)) if last.checked_add(1) == Some(*member) => {
                open = Some((first, *member));
            }
            Some((first, last)) => {
                put_between(out, " ")?;
                put_run(out, shape, first, last)?;
                open = Some((*member, *member));
            }
            None => open = Some((*member, *member)),
        }
    }
    put_between(out, " ")?;
    match open {
        Some((first, last)) => put_run(out, shape, first, last),
        None => put(out, "none"),
    }
}

// The sign of a cell.
pub(crate) fn sign_of(cell: Cell) -> &'static str {
    match cell {
        Cell::Empty => ".",
        Cell::Black => "X",
        Cell::White => "O",
    }
}

// Appends changes. Where points that follow each other change alike, they stand together.
pub(crate) fn put_changes(
    out: &mut Vec<u8>,
    shape: Shape,
    changes: &[Change],
) -> Result<(), CaseError> {
    let mut open: Option<(Change, u16)> = None;
    for change in changes {
        open = match open {
            Some((first, last)) if goes_on(first, last, *change) => Some((first, change.point)),
            Some((first, last)) => {
                put_change(out, shape, first, last)?;
                Some((*change, change.point))
            }
            None => Some((*change, change.point)),
        };
    }
    match open {
        Some((first, last)) => put_change(out, shape, first, last),
        None => Ok(()),
    }
}

// Whether a change goes on with a run, which began with a change and ends with a point.
fn goes_on(first: Change, last: u16, change: Change) -> bool {
    last.checked_add(1) == Some(change.point) && first.old == change.old && first.new == change.new
}

fn put_change(out: &mut Vec<u8>, shape: Shape, first: Change, last: u16) -> Result<(), CaseError> {
    put_between(out, ", ")?;
    put_run(out, Some(shape), first.point, last)?;
    put(out, " ")?;
    put(out, sign_of(first.old))?;
    put(out, " to ")?;
    put(out, sign_of(first.new))
}

// Appends the bits of a word that are set, each behind a blank, or `none`.
pub(crate) fn put_bits(out: &mut Vec<u8>, word: u64) -> Result<(), CaseError> {
    if word == 0 {
        return put(out, " none");
    }
    for bit in 0..64u16 {
        if word >> bit & 1 == 1 {
            put(out, " ")?;
            put_number(out, u64::from(bit))?;
        }
    }
    Ok(())
}
