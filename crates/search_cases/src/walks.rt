// What the matchers find in a game, each compared with one list.
ghost use Rattle.std.specs.Prelude.{◌≡◌, ◌<◌, IsTrue};
ghost use Rattle.std.specs.List.Sorted.{IsStrictlyIncreasing};

use crate::finding::put_found;
use crate::texts::{is_same, put};
use candidate_sieve::node_candidates;
use capture_board::{Steps, Walker};
use capture_index::RunIndex;
use case_files::CaseError;
use info_filter::Filter;
use line_matcher::{Matcher, Occurrence, match_along, match_at, match_game, match_with};
use pattern_images::{Found, Hit, Images, Query};
use ready_images::ReadyImages;
use run_matcher::{Buffers, Gathered, match_runs};
use search_engine::search_segment;
use segment_store::{FinishedGame, Segment};
use std::alloc::Global;
use std::sync::ledger::{Blank, Ledger};

const OTHER_BOARD: CaseError = CaseError::Bad("images of another board");

/// Images for a game's board, and where they begin to hold in it.
#[derive(Clone, Copy)]
pub(crate) struct Expected<'a> {
    pub(crate) game: &'a FinishedGame,
    pub(crate) images: &'a Images,
    pub(crate) found: &'a [Found],
}

/// Appends what was found instead, if that is another list.
pub(crate) fn compare(
    name: &str,
    found: &[Found],
    other: &[Found],
    out: &mut Vec<u8>,
) -> Result<(), CaseError> {
    if found == other {
        return Ok(());
    }
    put(out, "; but ")?;
    put(out, name)?;
    put(out, " finds ")?;
    put_found(out, other)
}

// The places of occurrences.
fn placed(
    alloc: Global,
    images: &Images,
    occurrences: &[Occurrence],
) -> Result<Vec<Found>, CaseError> {
    let mut found = Vec::new(alloc);
    for Occurrence { node, placement } in occurrences {
        let number = *placement as usize;
        if number < images.len() {
            let place = images.place(number);
            found.push(Found { node: *node, place })?;
        }
    }
    Ok(found)
}

/// Compares what the walks over the nodes find.
pub(crate) fn compare_walks<L: Ledger>(
    alloc: Global,
    expected: Expected<'_>,
    blank: Blank,
    out: &mut Vec<u8>,
) -> Result<(), CaseError>
    requires name { blank.name ≡ L.name }
    requires parts { blank.parts ≡ L.parts }
    requires some { 0 < blank.parts }
{
    let Expected {
        game,
        images,
        found,
    } = expected;
    let deltas = game.deltas();
    if !is_same(images.shape(), deltas.shape()) {
        return Err(OTHER_BOARD);
    }
    let mut steps = Steps::<L>::new(blank);
    let by_nodes = match_game(alloc, deltas, images, &mut steps)?;
    compare("match_game", found, &by_nodes, out)?;
    let matcher = Matcher::new(alloc, images)?;
    let mut walker = Walker::new(deltas);
    let _first = match_along(alloc, deltas, &matcher, &mut walker, &mut steps)?;
    // A walker that stands at the game's last node serves as well as a new one.
    let again = match_along(alloc, deltas, &matcher, &mut walker, &mut steps)?;
    compare("match_along", found, &placed(alloc, images, &again)?, out)?;
    let with = match_with(alloc, deltas, &matcher, &mut steps)?;
    compare("match_with", found, &placed(alloc, images, &with)?, out)
}

/// Compares what is found at the node candidates.
pub(crate) fn compare_at_candidates<L: Ledger>(
    alloc: Global,
    expected: Expected<'_>,
    blank: Blank,
    out: &mut Vec<u8>,
) -> Result<(), CaseError>
    requires name { blank.name ≡ L.name }
    requires parts { blank.parts ≡ L.parts }
    requires some { 0 < blank.parts }
{
    let Expected {
        game,
        images,
        found,
    } = expected;
    let runs = game.runs();
    let deltas = game.deltas();
    if !is_same(images.shape(), deltas.shape()) {
        return Err(OTHER_BOARD);
    }
    if !is_same(images.shape(), runs.shape()) {
        return Err(OTHER_BOARD);
    }
    let mut steps = Steps::<L>::new(blank);
    let nodes = node_candidates(alloc, runs, images)?;
    let at = match_at(alloc, deltas, images, &nodes, &mut steps)?;
    compare("match_at at the candidates", found, &at, out)
}

/// What is found at these nodes alone, which must ascend.
pub(crate) fn found_at<L: Ledger>(
    alloc: Global,
    game: &FinishedGame,
    images: &Images,
    nodes: &[u32],
    blank: Blank,
) -> Result<Vec<Found>, CaseError>
    requires name { blank.name ≡ L.name }
    requires parts { blank.parts ≡ L.parts }
    requires some { 0 < blank.parts }
{
    let deltas = game.deltas();
    if !is_same(images.shape(), deltas.shape()) {
        return Err(OTHER_BOARD);
    }
    if !ascend(nodes) {
        return Err(CaseError::Bad("the nodes don't ascend"));
    }
    let mut steps = Steps::<L>::new(blank);
    Ok(match_at(alloc, deltas, images, nodes, &mut steps)?)
}

/// The hits in a segment, whose games are numbered from 7 on.
pub(crate) fn segment_hits<L: Ledger>(
    alloc: Global,
    part: &Segment,
    query: &Query,
    filter: &Filter,
    blank: Blank,
) -> Result<Vec<Hit>, CaseError>
    requires name { blank.name ≡ L.name }
    requires parts { blank.parts ≡ L.parts }
    requires some { 0 < blank.parts }
{
    if part.game_count() > 300_000 {
        return Err(CaseError::Bad("too many games"));
    }
    let mut steps = Steps::<L>::new(blank);
    Ok(search_segment(alloc, part, 7, query, filter, &mut steps)?)
}

// Whether the numbers ascend, each once.
fn ascend(nodes: &[u32]) -> bool
    ensures { IsTrue result → IsStrictlyIncreasing nodes.now }
{
    for i in 1..nodes.len() {
        if nodes[i - 1] >= nodes[i] {
            return false;
        }
    }
    true
}

/// Compares what the runs of the points tell.
pub(crate) fn compare_runs(
    alloc: Global,
    game: &FinishedGame,
    ready: &ReadyImages,
    found: &[Found],
    out: &mut Vec<u8>,
) -> Result<(), CaseError> {
    let images = ready.images();
    let runs = game.runs();
    if !is_same(images.shape(), runs.shape()) {
        return Err(OTHER_BOARD);
    }
    let by_runs = match_runs(alloc, runs, ready)?;
    compare("match_runs", found, &placed(alloc, images, &by_runs)?, out)?;
    let gathered = gathered_of(alloc, runs, ready)?;
    compare("Gathered", found, &placed(alloc, images, &gathered)?, out)
}

// What is gathered of all placements, from the last one to the first.
fn gathered_of(
    alloc: Global,
    runs: &RunIndex,
    ready: &ReadyImages,
) -> Result<Vec<Occurrence>, CaseError>
    requires { ready.now.images.shape ≡ runs.now.shape }
{
    let mut gathered = Gathered::new(alloc);
    let mut buffers = Buffers::new(alloc);
    for placement in (0..ready.images().len()).rev() {
        gathered.add(runs, &ready.placement(placement as u32), &mut buffers)?;
    }
    let mut occurrences = Vec::new(alloc);
    for begun in &gathered.sorted(alloc)? {
        occurrences.push(begun.occurrence)?;
    }
    Ok(occurrences)
}
