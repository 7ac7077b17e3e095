// The first line of a text that counts something among the games of a version.
ghost use Rattle.std.specs.Prelude.{◌≡◌, ◌++◌, OnErr, OnOk};
ghost use Rattle.query_script.specs.Texts.{head_text};

use crate::pieces::{Piece, append_line};
use kb_geometry::NoMemory;

// Appends the first line: the number of the line, what is asked of which version, how many games it
// has, and how many of what is counted there. After `NoMemory` `out` is as before.
pub(crate) fn append_head<'a>(
    out: &mut Vec<u8>,
    line: u32,
    asked: &'a [u8],
    version: u64,
    games: u32,
    counted: &'a [u8],
    count: usize,
) -> Result<(), NoMemory>
    ensures ok { OnOk result (out.new.items ≡ out.old.items
        ++ head_text line asked.now version games counted.now count) }
    ensures refused { OnErr result (out.new.items ≡ out.old.items) }
{
    append_line(
        out,
        &[
            Piece::Number(u64::from(line)),
            Piece::Text(b" "),
            Piece::Text(asked),
            Piece::Text(b" version "),
            Piece::Number(version),
            Piece::Text(b" games "),
            Piece::Number(u64::from(games)),
            Piece::Text(b" "),
            Piece::Text(counted),
            Piece::Text(b" "),
            Piece::Number(count as u64),
        ],
    )
}
