// The pieces of a written text that stand in brackets.
ghost use Rattle.std.specs.Prelude.{
  ◌≡◌,
  ◌<◌,
  ◌++◌,
  ◌==◌,
  ◌||◌,
  [],
  ◌∷◌,
  OnErr,
  OnOk,
  IfSome,
  if◌then◌else◌,
};
ghost use mathlib.Core.List.{IsPrefix};
ghost use Rattle.std.specs.Fmt.{decimal};
ghost use Rattle.std.specs.Option.{option_map_or};
ghost use Rattle.kb_geometry.specs.declared.shape.Point.{Point};
ghost use Rattle.sgf_reader.specs.Bytes.{backslash, colon, square_close};
ghost use Rattle.sgf_writer.specs.Letters.{HasLetter, HasLetters};
ghost use Rattle.sgf_writer.specs.Written.{escaped, letter_of, point_text, rect_text, size_text};

use kb_geometry::{NoMemory, Point, Rect, Shape, append, append_decimal};

// The letter of a column or row (SGF FF[4], point values).
fn letter(n: u8) -> u8
    requires { n < 52 }
    ensures { result ≡ letter_of n }
{
    if n < 26 { b'a' + n } else { b'A' + (n - 26) }
}

// Appends a size: one number where the board is square, else columns, a colon and rows.
pub(crate) fn write_size(out: &mut Vec<u8>, shape: Shape) -> Result<(), NoMemory>
    ensures ok { OnOk result (out.new.items ≡ out.old.items ++ size_text shape) }
    ensures refused { OnErr result (IsPrefix out.old.items out.new.items) }
{
    if shape.cols() == shape.rows() {
        append_decimal(out, u64::from(shape.cols()))
    } else {
        write_sides(out, shape.cols(), shape.rows())
    }
}

// Appends columns, a colon and rows.
fn write_sides(out: &mut Vec<u8>, cols: u8, rows: u8) -> Result<(), NoMemory>
    ensures ok { OnOk result (out.new.items
        ≡ out.old.items ++ (decimal cols ++ colon ∷ decimal rows)) }
    ensures refused { OnErr result (IsPrefix out.old.items out.new.items) }
{
    append_decimal(out, u64::from(cols))?;
    append(out, b":")?;
    append_decimal(out, u64::from(rows))?;
    Ok(())
}

// Appends a point: its column, then its row.
pub(crate) fn write_point(out: &mut Vec<u8>, p: Point) -> Result<(), NoMemory>
    requires { HasLetter p }
    ensures ok { OnOk result (out.new.items ≡ out.old.items ++ point_text p) }
    ensures refused { OnErr result (IsPrefix out.old.items out.new.items) }
{
    append(out, &[letter(p.x), letter(p.y)])
}

// Appends a point, or nothing for a pass.
pub(crate) fn write_target(out: &mut Vec<u8>, point: Option<Point>) -> Result<(), NoMemory>
    requires { IfSome point HasLetter }
    ensures ok { OnOk result (out.new.items ≡ out.old.items ++ option_map_or point_text point []) }
    ensures refused { OnErr result (IsPrefix out.old.items out.new.items) }
{
    match point {
        Some(p) => write_point(out, p),
        None => append(out, b""),
    }
}

// Appends a rectangle: one point, or the upper left and the lower right corner.
pub(crate) fn write_rect(out: &mut Vec<u8>, r: Rect) -> Result<(), NoMemory>
    requires { HasLetters r }
    ensures ok { OnOk result (out.new.items ≡ out.old.items ++ rect_text r) }
    ensures refused { OnErr result (IsPrefix out.old.items out.new.items) }
{
    if r.x0 == r.x1 && r.y0 == r.y1 {
        append(out, &[letter(r.x0), letter(r.y0)])
    } else {
        append(
            out,
            &[letter(r.x0), letter(r.y0), b':', letter(r.x1), letter(r.y1)],
        )
    }
}

// Appends one byte of a text, with a backslash before `]` and backslash (SGF FF[4], SimpleText).
fn write_byte(out: &mut Vec<u8>, b: u8) -> Result<(), NoMemory>
    ensures ok { OnOk result (out.new.items ≡ out.old.items
        ++ (if (b == backslash) || (b == square_close) then backslash ∷ b ∷ [] else b ∷ [])) }
    ensures refused { OnErr result (IsPrefix out.old.items out.new.items) }
{
    if b == b'\\' || b == b']' {
        append(out, &[b'\\', b])
    } else {
        append(out, &[b])
    }
}

// Appends a text of the information.
pub(crate) fn write_escaped(out: &mut Vec<u8>, text: &[u8]) -> Result<(), NoMemory>
    ensures ok { OnOk result (out.new.items ≡ out.old.items ++ escaped text.now) }
    ensures refused { OnErr result (IsPrefix out.old.items out.new.items) }
{
    for b in text {
        write_byte(out, *b)?;
    }
    Ok(())
}
