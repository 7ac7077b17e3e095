// A line of printed text, in pieces.
ghost use Rattle.std.specs.Prelude.{◌≡◌, ◌++◌, OnErr, OnOk, map};
ghost use mathlib.Core.List.{IsPrefix};
ghost use Rattle.query_script.specs.Pieces.{piece_text};
ghost use Rattle.query_script.specs.Texts.{line_text};

use kb_geometry::{NoMemory, append, append_decimal, cut_back};

// A piece of a line: a text, or the decimal digits of a number.
#[derive(Clone, Copy)]
pub(crate) enum Piece<'a> {
    Text(&'a [u8]),
    Number(u64),
}

// Appends these pieces and a line feed. After `NoMemory` `out` is as before.
pub(crate) fn append_line(out: &mut Vec<u8>, pieces: &[Piece<'_>]) -> Result<(), NoMemory>
    ensures ok { OnOk result (out.new.items
        ≡ out.old.items ++ line_text (map piece_text pieces.now)) }
    ensures refused { OnErr result (out.new.items ≡ out.old.items) }
{
    let len = out.len();
    let done = append_pieces(out, pieces);
    cut_back(out, len, done)
}

fn append_pieces(out: &mut Vec<u8>, pieces: &[Piece<'_>]) -> Result<(), NoMemory>
    ensures ok { OnOk result (out.new.items
        ≡ out.old.items ++ line_text (map piece_text pieces.now)) }
    ensures refused { OnErr result (IsPrefix out.old.items out.new.items) }
{
    for piece in pieces {
        append_piece(out, piece)?;
    }
    append(out, b"\n")?;
    Ok(())
}

fn append_piece(out: &mut Vec<u8>, piece: &Piece<'_>) -> Result<(), NoMemory>
    ensures ok { OnOk result (out.new.items ≡ out.old.items ++ piece_text piece.now) }
    ensures refused { OnErr result (IsPrefix out.old.items out.new.items) }
{
    match *piece {
        Piece::Text(text) => append(out, text),
        Piece::Number(number) => append_decimal(out, number),
    }
}
