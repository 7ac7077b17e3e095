// A standing query that goes on from version to version.
ghost use Rattle.std.specs.Prelude.{◌≡◌, ◌+◌, ◌<◌, ◌≤◌, [], OnOk, drop};
ghost use Rattle.version_publisher.specs.Contents.{items_in};
ghost use Rattle.segment_store.specs.Nodes.{nodes_of};
ghost use Rattle.search_cases.specs.Watching.{Covers, Fits};

use crate::asked::{Given, given_of, has_word, query_of};
use crate::games::{merged, segments_of};
use crate::hits::{filter_of, put_places};
use crate::texts::{put, separate};
use crate::versions::{add_part, version_of_one};
use capture_board::Steps;
use case_files::{Case, CaseError};
use info_filter::Filter;
use kb_geometry::{NoMemory, append_decimal};
use pattern_images::{Hit, Query};
use search_engine::search_from;
use segment_store::{Segment, SegmentBuilder};
use standing_query::{Finder, Standing};
use std::alloc::Global;
use std::marker::{Brand, Model};
use std::sync::ledger::{Blank, Ledger};
use version_publisher::Version;

// Finds the hits of a query in the games that a filter accepts, and counts the games that are handed
// to it.
#[derive(Debug, Drop)]
struct QueryFinder<'a> {
    query: &'a Query,
    filter: &'a Filter,
    handed: u32,
}

impl<'a> Model for QueryFinder<'a> {
    ghost use Rattle.search_cases.specs.Watching.{Asked};

    ghost Value = { Asked };

    ghost view = { λ f. record { query = f.query.now; filter = f.filter.now } };
}

impl<'a> Finder for QueryFinder<'a> {
    ghost use Rattle.std.specs.Prelude.{refl};
    ghost use Rattle.search_engine.specs.Hits.{AreHitsFrom};
    ghost use Rattle.search_engine.proofs.HitParts.{AreHitsFrom-append};
    ghost use Rattle.search_engine.proofs.HitsExist.{hits-found};
    ghost use Rattle.search_engine.proofs.OneListOfHits.{hits-unique};

    ghost finds = { λ asked first games hits.
        AreHitsFrom first asked.query asked.filter games hits };

    fn find<L: Ledger>(
        &mut self,
        alloc: Global,
        part: &Segment,
        from: u32,
        first: u32,
        steps: &mut Steps<L>,
    ) -> Result<Vec<Hit>, NoMemory> {
        let count = part.game_count().saturating_sub(from);
        self.handed = self.handed.saturating_add(count);
        search_from(alloc, part, from, first, self.query, self.filter, steps)
    }

    ghost some_list = { λ asked first games trees.
        hits-found first asked.query asked.filter games trees };

    ghost one_list = { λ asked first games a b trees one other.
        hits-unique first asked.query asked.filter games games a b trees one other refl };

    ghost by_parts = { λ asked first games more hits others one other.
        AreHitsFrom-append first asked.query asked.filter games hits one more others other };
}

// A search, and its hits in the games so far.
#[derive(Debug, Drop)]
struct Watched {
    query: Query,
    filter: Filter,
    standing: Standing,
}

/// `standing`: a standing query that is advanced over versions of the first games, then of more, and
/// of the last version again.
pub(crate) fn answer(alloc: Global, case: &Case<'_>, out: &mut Vec<u8>) -> Result<(), CaseError> {
    let given = given_of(case)?;
    let mut watched = Watched {
        query: query_of(alloc, given.asked)?,
        filter: filter_of(alloc, given.asked)?,
        standing: Standing::new(alloc),
    };
    watch::<Brand>(alloc, given, &mut watched, Blank::new(1), out)
}

// Each version has a part for each of the segments so far, or with the word `merged` one for all.
fn watch<L: Ledger>(
    alloc: Global,
    given: Given<'_>,
    watched: &mut Watched,
    blank: Blank,
    out: &mut Vec<u8>,
) -> Result<(), CaseError>
    requires none { watched.old.standing ≡ record { number = 0; games = 0; hits = [] } }
    requires name { blank.name ≡ L.name }
    requires parts { blank.parts ≡ L.parts }
    requires some { 0 < blank.parts }
{
    let parts = segments_of(alloc, given.games)?;
    let mut steps = Steps::<L>::new(blank);
    if has_word(given.asked, "merged") {
        over_merged(alloc, &parts, watched, &mut steps, out)
    } else {
        over_parts(alloc, parts, watched, &mut steps, out)
    }
}

// Goes on over a version without games, over one with one part more each, and over the last one again.
fn over_parts<L: Ledger>(
    alloc: Global,
    parts: Vec<Segment>,
    watched: &mut Watched,
    steps: &mut Steps<L>,
    out: &mut Vec<u8>,
) -> Result<(), CaseError>
    requires { Covers watched.old.query watched.old.filter [] watched.old.standing }
{
    let mut version = Version::empty(alloc);
    watched.go_on(alloc, &version, steps, out)?;
    for part in parts {
        add_part(alloc, part, &mut version)?;
        watched.go_on(alloc, &version, steps, out)?;
    }
    watched.go_on_again(alloc, &version, steps, out)
}

// Goes on over versions of one part each, which the segments so far are merged into, and over the last
// one again.
fn over_merged<L: Ledger>(
    alloc: Global,
    parts: &[Segment],
    watched: &mut Watched,
    steps: &mut Steps<L>,
    out: &mut Vec<u8>,
) -> Result<(), CaseError>
    requires { Covers watched.old.query watched.old.filter [] watched.old.standing }
{
    let mut whole = SegmentBuilder::new(alloc).finish(alloc)?;
    for part in parts {
        let joined = merged(alloc, &whole, part)?;
        let version = version_of_one(alloc, &joined)?;
        watched.go_on(alloc, &version, steps, out)?;
        whole = joined;
    }
    let version = version_of_one(alloc, &whole)?;
    watched.go_on_again(alloc, &version, steps, out)
}

impl Watched {
    // Goes on to a version, and appends what that tells.
    fn go_on<L: Ledger>(
        &mut self,
        alloc: Global,
        version: &Version<Segment>,
        steps: &mut Steps<L>,
        out: &mut Vec<u8>,
    ) -> Result<(), CaseError>
        requires { Fits self.old.query self.old.filter (items_in version.now.parts)
            self.old.standing }
        ensures covers { OnOk result (Covers self.new.query self.new.filter
            (items_in version.now.parts) self.new.standing) }
        ensures ticks { steps.new ≤ steps.old
            + nodes_of (drop self.old.standing.games (items_in version.now.parts)) }
        ensures grows { steps.old ≤ steps.new }
    {
        let mut finder = QueryFinder {
            query: &self.query,
            filter: &self.filter,
            handed: 0,
        };
        let at = self.standing.advance(alloc, &mut finder, version, steps)?;
        put_told(out, at, finder.handed, &self.standing)?;
        Ok(())
    }

    // Goes on to a version whose games it covers: no step is made.
    fn go_on_again<L: Ledger>(
        &mut self,
        alloc: Global,
        version: &Version<Segment>,
        steps: &mut Steps<L>,
        out: &mut Vec<u8>,
    ) -> Result<(), CaseError>
        requires { Covers self.old.query self.old.filter (items_in version.now.parts)
            self.old.standing }
        ensures { steps.new ≡ steps.old }
    {
        self.go_on(alloc, version, steps, out)
    }
}

// Appends a line: the place of the first new hit, the version's number, how many games it has and how
// many were handed to the finder, and all hits.
fn put_told(
    out: &mut Vec<u8>,
    at: usize,
    handed: u32,
    standing: &Standing,
) -> Result<(), CaseError> {
    separate(out, 0, "\n")?;
    for (name, number) in [
        ("new from ", at as u64),
        (", version ", standing.number()),
        (", games ", u64::from(standing.games())),
        (", handed ", u64::from(handed)),
    ] {
        put(out, name)?;
        append_decimal(out, number)?;
    }
    put(out, ": ")?;
    put_places(out, standing.hits())
}
