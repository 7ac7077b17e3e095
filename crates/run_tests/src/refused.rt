// What boxes tell behind a search that was refused amid its hits.
use crate::collectors::three_boxes;
use crate::files::GAME;
use game_tree::build;
use hit_collectors::Collector;
use info_filter::{ConditionList, Filter};
use pattern_images::Query;
use pattern_syntax::{PatternError, read_pattern};
use query_script::Statement;
use search_engine::game_count;
use segment_store::{MAX_BASE_GAMES, Segment, SegmentBuilder};
use session_core::Session;
use sgf_reader::read;
use std::alloc::Global;
use std::cell::Cell;
use std::process::Abort;
use std::rc::Rc;
use std::sync::Arc;
use std::test::Fail;
use std::thread::Threads;
use version_publisher::Version;

// A version of one game.
fn version_of_one_game(rt: &impl Abort, alloc: Global) -> Result<Version<Segment>, Fail> {
    let collection = read(alloc, GAME)?;
    let mut builder = SegmentBuilder::new(alloc);
    for tree in build(alloc, GAME, &collection)? {
        assert!(rt; builder.game_count() < MAX_BASE_GAMES);
        builder.add(alloc, "a.sgf", 0, tree)?;
    }
    let part = builder.finish(alloc)?;
    let mut version = Version::empty(alloc);
    assert!(rt; game_count(&version) + part.game_count() <= MAX_BASE_GAMES);
    assert!(rt; version.number() < 100);
    let pushed = version.push(Arc::new(alloc, part)?).is_ok();
    assert!(rt; pushed);
    Ok(version)
}

// The report behind a search for one black stone that is refused.
fn report_after_refusal<R: Threads + Sync + Abort, C: Collector>(
    rt: &R,
    alloc: Global,
    boxes: Vec<C>,
) -> Result<Vec<u8>, Fail> {
    let version = version_of_one_game(rt, alloc)?;
    let mut session = Session::new(alloc, boxes);
    let mut out = Vec::new(alloc);
    let query = Query::new(read_pattern(alloc, "X")?);
    let filter = Filter {
        conditions: ConditionList::new(Vec::new(alloc)),
    };
    let done = session.answer_search(rt, alloc, 3, &query, &filter, &version, &mut out);
    assert!(rt; done.is_err());
    assert!(rt; out.is_empty());
    session.answer(rt, alloc, 4, &Statement::Report, &version, &mut out)?;
    Ok(out)
}

// The second box has no room for a hit: the first has all three, the last has none, and no text was
// printed.
#[test]
fn a_refused_search_is_fed_in_part_and_not_printed(rt: HostRuntime) -> Result<(), Fail> {
    let alloc = rt.alloc();
    let taken = Rc::new(alloc, Cell::new(0))?;
    let boxes = three_boxes(alloc, &taken, 0)?;
    let wanted = "4 report collectors 3
collector all total 3
collector shown nexts 0 0 0
collector shown labels 0 0 0 0 0 0 0 0 0 0 0 0 0 0 0 0
";
    let report = report_after_refusal(&rt, alloc, boxes)?;
    assert_eq!(rt; report.as_slice(), wanted.as_bytes());
    let shown = PatternError::NoMemory.to_string(alloc)?;
    assert_eq!(rt; shown.as_str(), "out of memory");
    Ok(())
}
