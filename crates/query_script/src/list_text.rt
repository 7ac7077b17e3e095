// The printed texts of the statements that list games and players.
ghost use Rattle.std.specs.Prelude.{◌≡◌, ◌++◌, ◌∷◌, OnErr, OnOk};
ghost use Rattle.std.specs.List.{flat_map};
ghost use mathlib.Core.List.{IsPrefix};
ghost use Rattle.info_filter.specs.Rows.{shown_row};
ghost use Rattle.query_script.specs.Texts.{
  double_text,
  doubles_head,
  kept_text,
  player_text,
  players_text,
  signature_head,
  found_game_text,
  spaced,
};

use crate::head::append_head;
use crate::pieces::{Piece, append_line};
use dyer_signature::Signature;
use info_filter::{PlayerRow, Players};
use kb_geometry::{NoMemory, append, append_decimal, append_decimal_and, cut_back};

/// Appends the text of a count of kept games: `LINE kept version V games G kept K`. The only error
/// is `NoMemory`, and then `out` is as before.
pub fn print_kept(
    line: u32,
    version: u64,
    games: u32,
    kept: u32,
    out: &mut Vec<u8>,
) -> Result<(), NoMemory>
    ensures ok { OnOk result (out.new.items ≡ out.old.items ++ kept_text line version games kept) }
    ensures refused { OnErr result (out.new.items ≡ out.old.items) }
{
    append_head(out, line, b"kept", version, games, b"kept", kept as usize)
}

/// Appends the first line of the games whose signature matches a pattern:
/// `LINE signature version V games G found F`. The only error is `NoMemory`, and then `out` is as
/// before.
pub fn print_signature_head(
    line: u32,
    version: u64,
    games: u32,
    found: usize,
    out: &mut Vec<u8>,
) -> Result<(), NoMemory>
    ensures ok { OnOk result (out.new.items
        ≡ out.old.items ++ signature_head line version games found) }
    ensures refused { OnErr result (out.new.items ≡ out.old.items) }
{
    append_head(out, line, b"signature", version, games, b"found", found)
}

/// Appends a line for a game that was found by its signature: `game GAME SIGNATURE`. The
/// signature is a canonical form. The only error is `NoMemory`, and then `out` is as before.
pub fn print_found_game(game: u32, signature: &Signature, out: &mut Vec<u8>) -> Result<(), NoMemory>
    ensures ok { OnOk result (out.new.items
        ≡ out.old.items ++ found_game_text game signature.now.bytes) }
    ensures refused { OnErr result (out.new.items ≡ out.old.items) }
{
    append_line(
        out,
        &[
            Piece::Text(b"game "),
            Piece::Number(u64::from(game)),
            Piece::Text(b" "),
            Piece::Text(&signature.bytes),
        ],
    )
}

/// Appends the text of the players: its first line, `LINE players version V games G names N`, and
/// `player GAMES WINS LOSSES NAME` for each row of their table. The only error is `NoMemory`, and
/// then `out` is as before.
pub fn print_players(
    line: u32,
    version: u64,
    games: u32,
    players: &Players,
    out: &mut Vec<u8>,
) -> Result<(), NoMemory>
    ensures ok { OnOk result (out.new.items
        ≡ out.old.items ++ players_text line version games players.now) }
    ensures refused { OnErr result (out.new.items ≡ out.old.items) }
{
    let len = out.len();
    let done = append_players(out, line, version, games, players);
    cut_back(out, len, done)
}

fn append_players(
    out: &mut Vec<u8>,
    line: u32,
    version: u64,
    games: u32,
    players: &Players,
) -> Result<(), NoMemory>
    ensures ok { OnOk result (out.new.items
        ≡ out.old.items ++ players_text line version games players.now) }
    ensures refused { OnErr result (IsPrefix out.old.items out.new.items) }
{
    append_head(
        out,
        line,
        b"players",
        version,
        games,
        b"names",
        players.count(),
    )?;
    for row in players.rows() {
        append_player(out, &row)?;
    }
    Ok(())
}

// Appends a row of the players' table.
fn append_player(out: &mut Vec<u8>, row: &PlayerRow) -> Result<(), NoMemory>
    ensures ok { OnOk result (out.new.items ≡ out.old.items ++ player_text (shown_row row.now)) }
    ensures refused { OnErr result (IsPrefix out.old.items out.new.items) }
{
    append(out, b"player ")?;
    append_decimal_and(out, u64::from(row.games), b' ')?;
    append_decimal_and(out, u64::from(row.wins), b' ')?;
    append_decimal_and(out, u64::from(row.losses), b' ')?;
    append(out, row.name)?;
    append(out, b"\n")?;
    Ok(())
}

/// Appends the first line of the groups of double games: `LINE doubles version V games G groups N`.
/// The only error is `NoMemory`, and then `out` is as before.
pub fn print_doubles_head(
    line: u32,
    version: u64,
    games: u32,
    groups: usize,
    out: &mut Vec<u8>,
) -> Result<(), NoMemory>
    ensures ok { OnOk result (out.new.items
        ≡ out.old.items ++ doubles_head line version games groups) }
    ensures refused { OnErr result (out.new.items ≡ out.old.items) }
{
    append_head(out, line, b"doubles", version, games, b"groups", groups)
}

/// Appends a line for a group of double games: `double SIGNATURE` and the numbers of the games,
/// here the first and the others, each behind a space. The signature is a canonical form. The only
/// error is `NoMemory`, and then `out` is as before.
pub fn print_double(
    signature: &Signature,
    first: u32,
    others: &[u32],
    out: &mut Vec<u8>,
) -> Result<(), NoMemory>
    ensures ok { OnOk result (out.new.items
        ≡ out.old.items ++ double_text signature.now.bytes (first ∷ others.now)) }
    ensures refused { OnErr result (out.new.items ≡ out.old.items) }
{
    let len = out.len();
    let done = append_double(out, signature, first, others);
    cut_back(out, len, done)
}

fn append_double(
    out: &mut Vec<u8>,
    signature: &Signature,
    first: u32,
    others: &[u32],
) -> Result<(), NoMemory>
    ensures ok { OnOk result (out.new.items
        ≡ out.old.items ++ double_text signature.now.bytes (first ∷ others.now)) }
    ensures refused { OnErr result (IsPrefix out.old.items out.new.items) }
{
    append(out, b"double ")?;
    append(out, &signature.bytes)?;
    append_spaced(out, first)?;
    append_all_spaced(out, others)?;
    append(out, b"\n")?;
    Ok(())
}

// Appends numbers, each behind a space.
fn append_all_spaced(out: &mut Vec<u8>, numbers: &[u32]) -> Result<(), NoMemory>
    ensures ok { OnOk result (out.new.items ≡ out.old.items ++ flat_map spaced numbers.now) }
    ensures refused { OnErr result (IsPrefix out.old.items out.new.items) }
{
    for number in numbers {
        append_spaced(out, *number)?;
    }
    Ok(())
}

// Appends a number behind a space.
fn append_spaced(out: &mut Vec<u8>, number: u32) -> Result<(), NoMemory>
    ensures ok { OnOk result (out.new.items ≡ out.old.items ++ spaced number) }
    ensures refused { OnErr result (IsPrefix out.old.items out.new.items) }
{
    append(out, b" ")?;
    append_decimal(out, u64::from(number))?;
    Ok(())
}
