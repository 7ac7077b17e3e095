// Searches over the games of parts.
ghost use Rattle.std.specs.Prelude.{◌≡◌, ◌<◌, ◌+◌, ◌≤◌, length};

use crate::asked::{Given, given_of, has_word, query_of, value_of};
use crate::continuations::{next_at, put_next};
use crate::games::{merged_all, segments_of, segments_to};
use crate::tables::put_table;
use crate::texts::{end_list, outcome_name, put, put_count, put_number, put_point, separate};
use crate::versions::{merged_version, version_of};
use crate::walks::segment_hits;
use case_files::{Case, CaseError};
use continuation_table::number_of_place;
use game_tree::Bytes;
use info_filter::{Condition, ConditionList, Filter};
use pattern_images::{Hit, Query, images};
use search_engine::{Answer, find_game, search};
use segment_store::Segment;
use std::alloc::Global;
use std::marker::Brand;
use std::sync::ledger::Blank;
use std::thread::Threads;
use version_publisher::Version;

/// `hits`: those of a query in games of several parts. They are compared with those of the parts
/// merged into one, with those of the segment of all games, and their continuations with those that
/// are worked out from the place alone.
pub(crate) fn answer<R: Threads + Sync>(
    rt: &R,
    alloc: Global,
    case: &Case<'_>,
    out: &mut Vec<u8>,
) -> Result<(), CaseError> {
    let Given { asked, games } = given_of(case)?;
    let query = query_of(alloc, asked)?;
    let filter = filter_of(alloc, asked)?;
    let parts = match value_of(asked, "ends") {
        Some(ends) => segments_to(alloc, games, ends)?,
        None => segments_of(alloc, games)?,
    };
    let merged = merged_version(alloc, &parts)?;
    let by_merged = search(rt, alloc, &merged, &query, &filter)?;
    compare_segment(alloc, asked, &parts, &by_merged.hits, out)?;
    let version = version_of(alloc, parts)?;
    let answer = search(rt, alloc, &version, &query, &filter)?;
    put_answer(out, asked, &answer)?;
    if by_merged.hits.as_slice() != answer.hits.as_slice() {
        put(out, "; but other hits in the merged games")?;
    }
    compare_nexts(alloc, &query, &version, &answer.hits, out)
}

/// The filter that the words `black=NAME` and `white=NAME` tell.
pub(crate) fn filter_of(alloc: Global, asked: &str) -> Result<Filter, CaseError> {
    let mut conditions = Vec::new(alloc);
    if let Some(name) = value_of(asked, "black") {
        conditions.push(Condition::Black(Bytes::new(name.as_bytes().to_vec(alloc)?)))?;
    }
    if let Some(name) = value_of(asked, "white") {
        conditions.push(Condition::White(Bytes::new(name.as_bytes().to_vec(alloc)?)))?;
    }
    Ok(Filter {
        conditions: ConditionList::new(conditions),
    })
}

// Compares the hits in the segment of all games, numbered from 7 on.
fn compare_segment(
    alloc: Global,
    asked: &str,
    parts: &[Segment],
    hits: &[Hit],
    out: &mut Vec<u8>,
) -> Result<(), CaseError> {
    let all = merged_all(alloc, parts)?;
    let found = hits_from_seven(alloc, asked, &all)?;
    let mut moved = Vec::new(alloc);
    for hit in hits {
        let game = hit.game.saturating_add(7);
        moved.push(Hit { game, ..*hit })?;
    }
    if found.as_slice() != moved.as_slice() {
        put(out, "other hits in the segment; ")?;
    }
    Ok(())
}

// The hits in the segment of all games, numbered from 7 on.
fn hits_from_seven(alloc: Global, asked: &str, part: &Segment) -> Result<Vec<Hit>, CaseError> {
    let query = query_of(alloc, asked)?;
    let filter = filter_of(alloc, asked)?;
    let hits = segment_hits::<Brand>(alloc, part, &query, &filter, Blank::new(1))?;
    Ok(hits)
}

// Compares the continuation of each hit.
fn compare_nexts(
    alloc: Global,
    query: &Query,
    version: &Version<Segment>,
    hits: &[Hit],
    out: &mut Vec<u8>,
) -> Result<(), CaseError> {
    for hit in hits {
        let game = find_game(version, hit.game).ok_or(CaseError::Bad("no such game"))?;
        let images = images(alloc, query, game.tree().shape())?;
        let i = number_of_place(&images, hit.place);
        if next_at(game, &images, i, hit.node)? != hit.next {
            put(out, "; but another continuation at ")?;
            put_number(out, hit.node)?;
        }
    }
    Ok(())
}

// Appends the hits: all that is told of them with the word `told`, the games alone with the word
// `games`, else game, node and place.
fn put_answer(out: &mut Vec<u8>, asked: &str, answer: &Answer) -> Result<(), CaseError> {
    if has_word(asked, "told") {
        for hit in &answer.hits {
            put_hit(out, hit)?;
            put(out, "\n")?;
        }
        return put_table(out, &answer.table);
    }
    if has_word(asked, "games") {
        return put_games(out, &answer.hits);
    }
    put_places(out, &answer.hits)
}

/// Appends hits: of each its game, node and place.
pub(crate) fn put_places(out: &mut Vec<u8>, hits: &[Hit]) -> Result<(), CaseError> {
    let start = out.len();
    for hit in hits {
        separate(out, start, ", ")?;
        put_place(out, hit)?;
    }
    end_list(out, start)
}

fn put_place(out: &mut Vec<u8>, hit: &Hit) -> Result<(), CaseError> {
    put_number(out, hit.game)?;
    put(out, " ")?;
    put_number(out, hit.node)?;
    put(out, " ")?;
    put_point(out, hit.place.x, hit.place.y)?;
    put(out, " ")?;
    put_number(out, u32::from(hit.place.label.number()))
}

fn put_hit(out: &mut Vec<u8>, hit: &Hit) -> Result<(), CaseError> {
    put_place(out, hit)?;
    put(out, " ")?;
    put_number(out, u32::from(hit.place.cols))?;
    put(out, ":")?;
    put_number(out, u32::from(hit.place.rows))?;
    put(out, ", move ")?;
    put_number(out, hit.moves)?;
    put(out, ", ")?;
    put(out, outcome_name(hit.outcome))?;
    put(out, ", next ")?;
    put_next(out, hit.next)
}

// Appends the numbers of the games of hits: the first, the second and the last one, where all
// are equally far apart.
fn put_games(out: &mut Vec<u8>, hits: &[Hit]) -> Result<(), CaseError> {
    put_count(out, hits.len())?;
    put(out, " at")?;
    let apart = match hits {
        [first, second, ..] => second.game.wrapping_sub(first.game),
        _ => 0,
    };
    let mut before: Option<u32> = None;
    let mut run = 0u32;
    for hit in hits {
        if before.map(|game| game.wrapping_add(apart)) == Some(hit.game) {
            run = run.saturating_add(1);
        } else {
            put_run_end(out, before, run)?;
            run = 0;
        }
        before = Some(hit.game);
        if run < 2 {
            put(out, " ")?;
            put_number(out, hit.game)?;
        }
    }
    put_run_end(out, before, run)
}

// Appends the last number of a run of which only the first two were appended.
fn put_run_end(out: &mut Vec<u8>, last: Option<u32>, run: u32) -> Result<(), CaseError> {
    match last {
        Some(last) if run >= 2 => {
            put(out, " .. ")?;
            put_number(out, last)
        }
        _ => Ok(()),
    }
}
