// The printed texts of statements, but for that of a search.
ghost use Rattle.std.specs.Prelude.{◌≡◌, ◌++◌, OnErr, OnOk};
ghost use Rattle.query_script.specs.Texts.{
  game_head,
  import_text,
  make_text,
  no_game_text,
  no_retire_text,
  report_head,
  retire_text,
  until_text,
  wait_text,
};

use crate::pieces::{Piece, append_line};
use kb_geometry::NoMemory;

/// Appends the text of an import: `LINE import PATH`. The only error is `NoMemory`, and then `out`
/// is as before.
pub fn print_import(line: u32, path: &str, out: &mut Vec<u8>) -> Result<(), NoMemory>
    ensures ok { OnOk result (out.new.items ≡ out.old.items ++ import_text line path.now) }
    ensures refused { OnErr result (out.new.items ≡ out.old.items) }
{
    append_line(
        out,
        &[
            Piece::Number(u64::from(line)),
            Piece::Text(b" import "),
            Piece::Text(path.as_bytes()),
        ],
    )
}

/// Appends the text of a statement that makes games: `LINE make N START`. The only error is
/// `NoMemory`, and then `out` is as before.
pub fn print_make(line: u32, games: u32, start: u32, out: &mut Vec<u8>) -> Result<(), NoMemory>
    ensures ok { OnOk result (out.new.items ≡ out.old.items ++ make_text line games start) }
    ensures refused { OnErr result (out.new.items ≡ out.old.items) }
{
    append_line(
        out,
        &[
            Piece::Number(u64::from(line)),
            Piece::Text(b" make "),
            Piece::Number(u64::from(games)),
            Piece::Text(b" "),
            Piece::Number(u64::from(start)),
        ],
    )
}

/// Appends the text of a wait: `LINE wait version V`. The only error is `NoMemory`, and then `out`
/// is as before.
pub fn print_wait(line: u32, version: u64, out: &mut Vec<u8>) -> Result<(), NoMemory>
    ensures ok { OnOk result (out.new.items ≡ out.old.items ++ wait_text line version) }
    ensures refused { OnErr result (out.new.items ≡ out.old.items) }
{
    append_line(
        out,
        &[
            Piece::Number(u64::from(line)),
            Piece::Text(b" wait version "),
            Piece::Number(version),
        ],
    )
}

/// Appends the text of a statement that waits for a version: `LINE until K version V`. The only
/// error is `NoMemory`, and then `out` is as before.
pub fn print_until(line: u32, number: u64, version: u64, out: &mut Vec<u8>) -> Result<(), NoMemory>
    ensures ok { OnOk result (out.new.items ≡ out.old.items ++ until_text line number version) }
    ensures refused { OnErr result (out.new.items ≡ out.old.items) }
{
    append_line(
        out,
        &[
            Piece::Number(u64::from(line)),
            Piece::Text(b" until "),
            Piece::Number(number),
            Piece::Text(b" version "),
            Piece::Number(version),
        ],
    )
}

/// Appends the first line of the text of a game: `LINE game N version V place P file NAME`. The
/// place is that of the game in its file, from 0. The only error is `NoMemory`, and then `out` is
/// as before.
pub fn print_game(
    line: u32,
    game: u32,
    version: u64,
    place: u32,
    file: &str,
    out: &mut Vec<u8>,
) -> Result<(), NoMemory>
    ensures ok { OnOk result (out.new.items
        ≡ out.old.items ++ game_head line game version place file.now) }
    ensures refused { OnErr result (out.new.items ≡ out.old.items) }
{
    append_line(
        out,
        &[
            Piece::Number(u64::from(line)),
            Piece::Text(b" game "),
            Piece::Number(u64::from(game)),
            Piece::Text(b" version "),
            Piece::Number(version),
            Piece::Text(b" place "),
            Piece::Number(u64::from(place)),
            Piece::Text(b" file "),
            Piece::Text(file.as_bytes()),
        ],
    )
}

/// Appends the text of a game that the version doesn't have: `LINE game N version V none`. The only
/// error is `NoMemory`, and then `out` is as before.
pub fn print_no_game(line: u32, game: u32, version: u64, out: &mut Vec<u8>) -> Result<(), NoMemory>
    ensures ok { OnOk result (out.new.items ≡ out.old.items ++ no_game_text line game version) }
    ensures refused { OnErr result (out.new.items ≡ out.old.items) }
{
    append_line(
        out,
        &[
            Piece::Number(u64::from(line)),
            Piece::Text(b" game "),
            Piece::Number(u64::from(game)),
            Piece::Text(b" version "),
            Piece::Number(version),
            Piece::Text(b" none"),
        ],
    )
}

/// Appends the first line of a report of collectors: `LINE report collectors N`. The only error is
/// `NoMemory`, and then `out` is as before.
pub fn print_report_head(line: u32, count: usize, out: &mut Vec<u8>) -> Result<(), NoMemory>
    ensures ok { OnOk result (out.new.items ≡ out.old.items ++ report_head line count) }
    ensures refused { OnErr result (out.new.items ≡ out.old.items) }
{
    append_line(
        out,
        &[
            Piece::Number(u64::from(line)),
            Piece::Text(b" report collectors "),
            Piece::Number(count as u64),
        ],
    )
}

/// Appends that the first collector of a name was dropped: `LINE retire NAME`. The only error is
/// `NoMemory`, and then `out` is as before.
pub fn print_retire(line: u32, name: &str, out: &mut Vec<u8>) -> Result<(), NoMemory>
    ensures ok { OnOk result (out.new.items ≡ out.old.items ++ retire_text line name.now) }
    ensures refused { OnErr result (out.new.items ≡ out.old.items) }
{
    append_line(
        out,
        &[
            Piece::Number(u64::from(line)),
            Piece::Text(b" retire "),
            Piece::Text(name.as_bytes()),
        ],
    )
}

/// Appends that no collector has a name: `LINE retire NAME none`. The only error is `NoMemory`, and
/// then `out` is as before.
pub fn print_no_retire(line: u32, name: &str, out: &mut Vec<u8>) -> Result<(), NoMemory>
    ensures ok { OnOk result (out.new.items ≡ out.old.items ++ no_retire_text line name.now) }
    ensures refused { OnErr result (out.new.items ≡ out.old.items) }
{
    append_line(
        out,
        &[
            Piece::Number(u64::from(line)),
            Piece::Text(b" retire "),
            Piece::Text(name.as_bytes()),
            Piece::Text(b" none"),
        ],
    )
}
