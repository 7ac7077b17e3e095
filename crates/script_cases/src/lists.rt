// Lines that list games and players.
use crate::row::{Row, row_of};
use case_files::{Case, CaseError};
use dyer_signature::Signature;
use game_tree::build;
use info_filter::Players;
use query_script::{
    print_double, print_doubles_head, print_found_game, print_kept, print_players,
    print_signature_head,
};
use sgf_reader::read;
use std::alloc::Global;

/// Appends the line of a list.
pub fn append_list_line(alloc: Global, row: &Row<'_>, out: &mut Vec<u8>) -> Result<(), CaseError> {
    match row.word(0) {
        "kept" => append_kept(row, out),
        "signature" => append_signature_head(row, out),
        "found" => Ok(print_found_game(row.small(1)?, &signature_of(row)?, out)?),
        "doubles" => append_doubles_head(row, out),
        "double" => append_double(alloc, row, out),
        _ => Err(CaseError::Bad("unknown line")),
    }
}

fn append_kept(row: &Row<'_>, out: &mut Vec<u8>) -> Result<(), CaseError> {
    let (line, version) = (row.small(1)?, row.number(2)?);
    let (games, kept) = (row.small(3)?, row.small(4)?);
    Ok(print_kept(line, version, games, kept, out)?)
}

fn append_signature_head(row: &Row<'_>, out: &mut Vec<u8>) -> Result<(), CaseError> {
    let (line, version) = (row.small(1)?, row.number(2)?);
    let (games, found) = (row.small(3)?, row.size(4)?);
    Ok(print_signature_head(line, version, games, found, out)?)
}

fn append_doubles_head(row: &Row<'_>, out: &mut Vec<u8>) -> Result<(), CaseError> {
    let (line, version) = (row.small(1)?, row.number(2)?);
    let (games, groups) = (row.small(3)?, row.size(4)?);
    Ok(print_doubles_head(line, version, games, groups, out)?)
}

fn append_double(alloc: Global, row: &Row<'_>, out: &mut Vec<u8>) -> Result<(), CaseError> {
    let signature = signature_of(row)?;
    let mut others = Vec::new(alloc);
    for at in 2..row.count() {
        others.push(row.small(at)?)?;
    }
    Ok(print_double(&signature, row.small(1)?, &others, out)?)
}

fn signature_of(row: &Row<'_>) -> Result<Signature, CaseError> {
    let bytes = <[u8; 12]>::try_from(row.text.as_bytes()).map_err(|_| CaseError::Bad(
        "a signature has twelve bytes",
    ))?;
    Ok(Signature { bytes })
}

/// Appends the table of the players of the first game of a text.
pub fn answer_players(alloc: Global, case: &Case<'_>, out: &mut Vec<u8>) -> Result<(), CaseError> {
    let players = players_of(alloc, case.text())?;
    let row = row_of(alloc, case.words)?;
    let (line, version) = (row.small(0)?, row.number(1)?);
    Ok(print_players(line, version, row.small(2)?, &players, out)?)
}

fn players_of(alloc: Global, text: &[u8]) -> Result<Players, CaseError> {
    let collection = read(alloc, text).map_err(|_| CaseError::Bad("the text is no SGF"))?;
    let games = build(alloc, text, &collection).map_err(|_| CaseError::Bad("the text is no game"))?;
    let mut players = Players::new(alloc);
    if let Some(game) = games.as_slice().first() {
        players.add(alloc, game.info())?;
    }
    Ok(players)
}
