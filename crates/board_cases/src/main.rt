//! Worked examples of boards: symmetries, sets of points, moves, the nodes of games, patterns, and
//! the sets and numbers by which games are told apart.
//!
//! Stands on case_files, which reads the examples, and on the crates that they are of: kb_geometry,
//! kb_bits, capture_board, node_position, pattern_images, pattern_syntax, final_index and
//! corner_index, with sgf_reader and game_tree for games.
#![tactic(auto)]

use case_files::{Case, CaseError, Kinds, run_files};
use std::alloc::Global;
use std::io;

mod board_steps;
mod corners;
mod ever;
mod games;
mod nodes;
mod order;
mod patterns;
mod placements;
mod planes;
mod points;
mod reading;
mod sets;
mod symmetries;
mod writing;

// What is answered to each kind of case.
struct BoardKinds;

impl Kinds for BoardKinds {
    fn answer(&self, alloc: Global, case: &Case<'_>, out: &mut Vec<u8>) -> Result<(), CaseError> {
        match case.kind {
            "board" => board_steps::board(alloc, case, out),
            "nodes" => nodes::nodes(alloc, case, out),
            "changes" => nodes::changes(alloc, case, out),
            "ever" => ever::ever(alloc, case, out),
            "planes" => planes::planes(alloc, case, out),
            "order" => order::order(alloc, case, out),
            "corners" => corners::corners(alloc, case, out),
            "games" => corners::games(alloc, case, out),
            _ => answer_line(alloc, case, out),
        }
    }
}

// The answer of a kind that takes one line.
fn answer_line(alloc: Global, case: &Case<'_>, out: &mut Vec<u8>) -> Result<(), CaseError> {
    match case.kind {
        "shape" => points::shape(case, out)?,
        "number" => points::number(case, out)?,
        "point" => points::point(case, out)?,
        "inside" => points::inside(case, out)?,
        "bytes" => points::bytes(alloc, case, out)?,
        "symmetry" => symmetries::symmetry(case, out)?,
        "label" => symmetries::label(case, out)?,
        "image" => symmetries::image(case, out)?,
        "rectangle" => symmetries::rectangle(case, out)?,
        "within" => symmetries::within(case, out)?,
        "set" => sets::set(alloc, case, out)?,
        "pattern" => patterns::pattern(alloc, case, out)?,
        "cell" => patterns::cell(alloc, case, out)?,
        "made" => patterns::made(alloc, case, out)?,
        "placements" => placements::placements(alloc, case, out)?,
        "labels" => placements::labels(alloc, case, out)?,
        _ => return Err(CaseError::Bad("unknown kind")),
    }
    out.push(b'\n')?;
    Ok(())
}

fn main(rt: HostRuntime) -> io::Result<()> {
    run_files(&rt, &BoardKinds)?;
    Ok(())
}
