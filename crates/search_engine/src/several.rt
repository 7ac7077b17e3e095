// The answers of several searches, each of a version of its own.
ghost use Rattle.std.specs.Prelude.{◌<◌, ◌≤◌, IfOk, IfSome, length, take};
ghost use Rattle.std.specs.List.{AllZip};
ghost use Rattle.search_engine.specs.Answers.{IsAnswerOf};
ghost use Rattle.search_engine.specs.Several.{AreAllAdded, AreMade};

use crate::answer::Answer;
use crate::items::items_of_version;
use crate::pieces::little_hits;
use crate::ready_query::ReadyQuery;
use crate::search_items::Searcher;
use crate::searches::search;
use continuation_table::Table;
use info_filter::Filter;
use kb_geometry::NoMemory;
use pattern_images::Query;
use segment_store::Segment;
use std::alloc::Global;
use std::thread;
use std::thread::Threads;
use version_publisher::Version;

// The most searches that are made before threads are started. Each does less than the start and end of
// threads takes, but all searches of a long block together would do more.
const MOST_ALONE: usize = 4;

/// A search that is asked for: that of a query in the games of a version that a filter accepts.
#[derive(Clone, Copy)]
pub struct Asked<'a> {
    /// The version.
    pub version: &'a Version<Segment>,
    /// The query.
    pub query: &'a Query,
    /// The filter.
    pub filter: &'a Filter,
}

/// The answers of several searches, in their order, each as [`search`] gives it.
///
/// The first four are made one after another, without a thread, as long as each does little. The
/// others, and those from the first one on that does much, are made side by side, where threads can be
/// had. The only error is `NoMemory`.
pub fn search_each<R: Threads + Sync>(
    rt: &R,
    alloc: Global,
    asked: &[Asked],
) -> Result<Vec<Answer>, NoMemory>
    ensures { IfOk result (λ answers. AllZip IsAnswerOf asked.now answers.items) }
{
    let little = little_answers(alloc, asked)?;
    let left = &asked[little.len()..];
    let made = made_side_by_side(rt, alloc, left)?;
    with_all(little, made)
}

// The answers of the first searches, made in the caller's thread as long as they are few and each does
// little.
fn little_answers(alloc: Global, asked: &[Asked]) -> Result<Vec<Answer>, NoMemory>
    ensures few { IfOk result (λ answers. length answers.items ≤ length asked.now) }
    ensures answered { IfOk result (λ answers.
        AllZip IsAnswerOf (take (length answers.items) asked.now) answers.items) }
{
    let mut answers = Vec::new(alloc);
    for one in asked {
        if answers.len() == MOST_ALONE {
            break;
        }
        let Some(answer) = little_answer(alloc, one)? else {
            break;
        };
        answers.push(answer)?;
    }
    Ok(answers)
}

// The answer of a search that does little, made in the caller's thread; none of one that does much.
fn little_answer(alloc: Global, asked: &Asked) -> Result<Option<Answer>, NoMemory>
    ensures { IfOk result (λ found. IfSome found (λ answer. IsAnswerOf asked.now answer)) }
{
    let items = items_of_version(alloc, asked.version)?;
    let ready = ReadyQuery::of(alloc, asked.query, &items)?;
    let searcher = Searcher {
        alloc,
        ready: &ready,
        filter: asked.filter,
    };
    let Some(hits) = little_hits(&searcher, &items)? else {
        return Ok(None);
    };
    let table = Table::of(alloc, &hits)?;
    Ok(Some(Answer { hits, table }))
}

// What is made of searches side by side.
fn made_side_by_side<R: Threads + Sync>(
    rt: &R,
    alloc: Global,
    asked: &[Asked],
) -> Result<Vec<Result<Answer, NoMemory>>, NoMemory>
    ensures { IfOk result (λ made. AreMade asked.now made.items) }
{
    let made = thread::map_indices(
        rt,
        alloc,
        asked.len(),
        &|i| -> Result<Answer, NoMemory>
            requires { i < length asked.now }
        { answer_of(rt, alloc, &asked[i]) },
    )?;
    Ok(made)
}

// The answer of a search.
fn answer_of<R: Threads + Sync>(rt: &R, alloc: Global, asked: &Asked) -> Result<Answer, NoMemory>
    ensures { IfOk result (λ answer. IsAnswerOf asked.now answer) }
{
    search(rt, alloc, asked.version, asked.query, asked.filter)
}

// The answers, with those that were made behind them, where there was memory for each.
fn with_all(
    answers: Vec<Answer>,
    made: Vec<Result<Answer, NoMemory>>,
) -> Result<Vec<Answer>, NoMemory>
    ensures { IfOk result (λ all. AreAllAdded answers.items made.items all.items) }
{
    let mut all = answers;
    for answer in made {
        all.push(answer?)?;
    }
    Ok(all)
}
