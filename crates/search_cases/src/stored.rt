// What segments keep of games.
ghost use Rattle.std.specs.Prelude.{◌<◌, length};

use crate::asked::given_of;
use crate::games::{merged_all, segment_of, trees_of};
use crate::sieve::put_bits;
use crate::texts::{
    end_list, number_of, outcome_name, point_number, put, put_count, put_number, put_numbers,
    put_point, separate,
};
use case_files::{Case, CaseError};
use final_index::{EverSets, Planes};
use kb_bits::BitBoard;
use kb_geometry::{Cell, Shape};
use node_position::deltas;
use segment_store::{FinishedGame, Segment, SegmentBuilder};
use std::alloc::Global;
use std::sync::ArcStr;
use version_publisher::Part;

/// `stored`: what is told of the games of files, a line for each. They are added in three ways.
pub(crate) fn games(alloc: Global, case: &Case<'_>, out: &mut Vec<u8>) -> Result<(), CaseError> {
    let mut parts = Vec::new(alloc);
    let mut known = SegmentBuilder::new(alloc);
    for part in &case.parts {
        let Ok(text) = std::str::from_utf8(&part.text) else {
            return Err(CaseError::Bad("no text"));
        };
        if !text.is_empty() {
            parts.push(segment_of(alloc, part.name, 0, text)?)?;
            add_known(alloc, part.name, text, &mut known)?;
        }
    }
    let all = merged_all(alloc, &parts)?;
    let known = known.finish(alloc)?;
    let mut other = Vec::new(alloc);
    put_games(&known, &mut other)?;
    let start = out.len();
    put_games(&all, out)?;
    if out.get(start..) != Some(other.as_slice()) {
        put(out, "\nbut as known\n")?;
        out.extend_from_slice(&other)?;
    }
    Ok(())
}

// Adds the games of a text with their changes, and those at odd places finished.
fn add_known(
    alloc: Global,
    file: &str,
    text: &str,
    builder: &mut SegmentBuilder,
) -> Result<(), CaseError> {
    let name = ArcStr::from_str(alloc, file)?;
    let mut place = 0u32;
    for tree in trees_of(alloc, text)? {
        if builder.game_count() >= 400_000 {
            return Err(CaseError::Bad("too many games"));
        }
        let deltas = deltas(alloc, &tree)?;
        if place % 2 == 0 {
            builder.add_with_deltas(alloc, file, place, tree, deltas)?;
        } else {
            let game = FinishedGame::new(alloc, name.clone()?, place, tree, deltas)?;
            builder.add_finished(alloc, game)?;
        }
        place = place.saturating_add(1);
    }
    Ok(())
}

fn put_games(part: &Segment, out: &mut Vec<u8>) -> Result<(), CaseError> {
    for g in 0..part.game_count() {
        if g > 0 {
            put(out, "\n")?;
        }
        put(out, part.file(g))?;
        put(out, " ")?;
        put_number(out, part.place(g))?;
        put(out, ": ")?;
        put_number(out, part.game(g).node_count())?;
        put(out, " nodes, ")?;
        put_number(out, part.deltas(g).node_count())?;
        put(out, " with changes, day ")?;
        put_day(out, part.day(g))?;
        put(out, ", ")?;
        put(out, outcome_name(part.outcome(g)))?;
        put(out, ", ")?;
        out.extend_from_slice(&part.canonical(g).bytes)?;
    }
    Ok(())
}

fn put_day(out: &mut Vec<u8>, day: Option<i32>) -> Result<(), CaseError> {
    let Some(day) = day else {
        return put(out, "none");
    };
    if day < 0 {
        put(out, "-")?;
    }
    put_number(out, day.unsigned_abs())
}

/// `sets`: the points that were black and white at some node, and how many were empty.
pub(crate) fn sets(ever: &EverSets, shape: Shape, out: &mut Vec<u8>) -> Result<(), CaseError> {
    put(out, "black ")?;
    put_set(&ever.black, shape, out)?;
    put(out, "; white ")?;
    put_set(&ever.white, shape, out)?;
    put(out, "; empty ")?;
    put_number(out, u32::from(ever.empty.len()))
}

fn put_set(set: &BitBoard, shape: Shape, out: &mut Vec<u8>) -> Result<(), CaseError> {
    let start = out.len();
    for number in 0..shape.count() {
        if set.contains(number) {
            separate(out, start, " ")?;
            let point = shape.point(number);
            put_point(out, point.x, point.y)?;
        }
    }
    end_list(out, start)
}

/// `corner`: the games that had a number in a corner, by the index and by the corners of each.
pub(crate) fn corner(asked: &str, part: &Segment, out: &mut Vec<u8>) -> Result<(), CaseError> {
    let (corner, key) = asked
        .split_once(" ")
        .ok_or(CaseError::Bad("no corner and number"))?;
    let corner = number_of(corner)?;
    let Ok(key) = key.parse::<u64>() else {
        return Err(CaseError::Bad("no number"));
    };
    if corner >= 4 {
        return Err(CaseError::Bad("no such corner"));
    }
    let found = part.with_corner(corner as u8, key);
    put_numbers(out, found)?;
    for g in 0..part.game_count() {
        if part.corners(g).has(corner as u8, key) != found.contains(&g) {
            put(out, "; but not by the corners of game ")?;
            put_number(out, g)?;
        }
    }
    Ok(())
}

/// `planes`: for each shape of the boards of each block which games had a point empty, black and
/// white.
pub(crate) fn planes(asked: &str, part: &Segment, out: &mut Vec<u8>) -> Result<(), CaseError> {
    let start = out.len();
    for numbered in part.blocks() {
        for planes in numbered.block.planes() {
            separate(out, start, "; ")?;
            put_planes(asked, planes, out)?;
        }
        if numbered.block.planes().len() != numbered.block.shapes().len() {
            put(out, "; but other shapes")?;
        }
    }
    end_list(out, start)
}

fn put_planes(asked: &str, planes: &Planes, out: &mut Vec<u8>) -> Result<(), CaseError> {
    let shape = planes.shape();
    let point = point_number(shape, asked)?;
    put_number(out, u32::from(shape.cols()))?;
    put(out, ":")?;
    put_number(out, u32::from(shape.rows()))?;
    put(out, " of ")?;
    put_count(out, planes.len())?;
    put(out, ", empty")?;
    put_bits(out, planes.word(point, Cell::Empty))?;
    put(out, ", black")?;
    put_bits(out, planes.word(point, Cell::Black))?;
    put(out, ", white")?;
    put_bits(out, planes.word(point, Cell::White))
}

/// `blocks`: segments of so many games, merged one after another: how many games there are, and the
/// number of the first game and the length of each block.
pub(crate) fn blocks(alloc: Global, case: &Case<'_>, out: &mut Vec<u8>) -> Result<(), CaseError> {
    let given = given_of(case)?;
    let mut all = SegmentBuilder::new(alloc).finish(alloc)?;
    for count in given.asked.split_whitespace() {
        let more = many(alloc, all.game_count(), number_of(count)?)?;
        all = crate::games::merged(alloc, &all, &more)?;
    }
    put_number(out, all.count())?;
    for numbered in all.blocks() {
        put(out, ", ")?;
        put_number(out, numbered.first)?;
        put(out, "+")?;
        put_count(out, numbered.block.len())?;
    }
    compare_places(&all, out)
}

// So many games, with places from this one on.
fn many(alloc: Global, first: u32, count: u32) -> Result<Segment, CaseError> {
    let mut builder = SegmentBuilder::new(alloc);
    for n in 0..count {
        for tree in trees_of(alloc, "(;SZ[9])")? {
            crate::games::add_tree(
                alloc,
                "many.sgf",
                first.saturating_add(n),
                tree,
                &mut builder,
            )?;
        }
    }
    Ok(builder.finish(alloc)?)
}

// Tells the games that aren't at the place of their number.
fn compare_places(part: &Segment, out: &mut Vec<u8>) -> Result<(), CaseError> {
    for g in 0..part.game_count() {
        if part.place(g) != g {
            put(out, "; but another game at ")?;
            put_number(out, g)?;
        }
    }
    Ok(())
}
