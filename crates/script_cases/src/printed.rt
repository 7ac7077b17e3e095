// Lines that the program prints, from what they tell.
use crate::lists::append_list_line;
use crate::openings::append_opening_line;
use crate::row::{Row, row_of, text_of};
use case_files::{Case, CaseError};
use query_script::{
    print_game, print_import, print_make, print_no_game, print_no_retire, print_no_watch,
    print_report_head, print_retire, print_taken, print_until, print_wait, print_watch,
};
use std::alloc::Global;

/// Appends what is printed for each line of the case, one behind the other.
pub fn answer(alloc: Global, case: &Case<'_>, out: &mut Vec<u8>) -> Result<(), CaseError> {
    for line in text_of(case.text())?.lines() {
        append_line(alloc, &row_of(alloc, line)?, out)?;
    }
    Ok(())
}

fn append_line(alloc: Global, row: &Row<'_>, out: &mut Vec<u8>) -> Result<(), CaseError> {
    if matches!(row.word(0), "opening" | "position" | "next") {
        return append_opening_line(row, out);
    }
    let line = row.small(1)?;
    match row.word(0) {
        "import" => Ok(print_import(line, row.text, out)?),
        "make" => Ok(print_make(line, row.small(2)?, row.small(3)?, out)?),
        "wait" => Ok(print_wait(line, row.number(2)?, out)?),
        "until" => Ok(print_until(line, row.number(2)?, row.number(3)?, out)?),
        "game" => append_game(line, row, out),
        "report" => Ok(print_report_head(line, row.size(2)?, out)?),
        "retire" => append_retired(line, row, out),
        "watch" => append_watch(line, row, out),
        "watched" => Ok(print_no_watch(line, row.text, out)?),
        _ => append_list_line(alloc, row, out),
    }
}

fn append_game(line: u32, row: &Row<'_>, out: &mut Vec<u8>) -> Result<(), CaseError> {
    let (game, version) = (row.small(2)?, row.number(3)?);
    if row.word(4) == "none" {
        return Ok(print_no_game(line, game, version, out)?);
    }
    let place = row.small(4)?;
    Ok(print_game(line, game, version, place, row.text, out)?)
}

fn append_retired(line: u32, row: &Row<'_>, out: &mut Vec<u8>) -> Result<(), CaseError> {
    if row.word(2) == "none" {
        return Ok(print_no_retire(line, row.text, out)?);
    }
    Ok(print_retire(line, row.text, out)?)
}

fn append_watch(line: u32, row: &Row<'_>, out: &mut Vec<u8>) -> Result<(), CaseError> {
    if row.word(2) == "taken" {
        return Ok(print_taken(line, row.text, out)?);
    }
    let (version, hits) = (row.number(2)?, row.size(3)?);
    Ok(print_watch(line, row.text, version, hits, out)?)
}
