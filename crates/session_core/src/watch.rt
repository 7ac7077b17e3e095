// A watched search, and what finds its hits.
ghost use Rattle.std.specs.Prelude.{◌≡◌, ◌<◌, [], IfOk, OnErr, drop};
ghost use Rattle.search_engine.specs.Hits.{AreHits};
ghost use Rattle.version_publisher.specs.Contents.{items_in};
ghost use Rattle.session_core.specs.Watches.{IsWatchOf, watch_over};
ghost use Rattle.session_core.specs.Watching.{IsAdvanced};

use capture_board::Steps;
use info_filter::Filter;
use kb_geometry::{NoMemory, Text};
use pattern_images::{Hit, Query};
use search_engine::search_from;
use segment_store::Segment;
use standing_query::{Finder, Standing};
use std::alloc::Global;
use std::marker::{Brand, Model};
use std::sync::ledger::{Blank, Ledger};
use version_publisher::Version;

// A search that is to be watched, and the name under which it is.
#[derive(Clone, Copy, Debug)]
pub(crate) struct NamedSearch<'a> {
    pub(crate) name: &'a Text,
    pub(crate) query: &'a Query,
    pub(crate) filter: &'a Filter,
}

// Finds the hits of a query in the games that a filter accepts.
#[derive(Debug, Drop)]
struct QueryFinder<'a> {
    query: &'a Query,
    filter: &'a Filter,
}

impl<'a> Model for QueryFinder<'a> {
    ghost use Rattle.session_core.specs.Watching.{Asked};

    ghost Value = { Asked };

    ghost view = { λ f. record { query = f.query.now; filter = f.filter.now } };
}

impl<'a> Finder for QueryFinder<'a> {
    ghost use Rattle.std.specs.Prelude.{refl};
    ghost use Rattle.search_engine.specs.Hits.{AreHitsFrom};
    ghost use Rattle.search_engine.proofs.HitParts.{AreHitsFrom-append};
    ghost use Rattle.search_engine.proofs.HitsExist.{hits-found};
    ghost use Rattle.search_engine.proofs.OneListOfHits.{hits-unique};

    ghost finds = { λ asked first games hits.
        AreHitsFrom first asked.query asked.filter games hits };

    fn find<L: Ledger>(
        &mut self,
        alloc: Global,
        part: &Segment,
        from: u32,
        first: u32,
        steps: &mut Steps<L>,
    ) -> Result<Vec<Hit>, NoMemory> {
        search_from(alloc, part, from, first, self.query, self.filter, steps)
    }

    ghost some_list = { λ asked first games trees.
        hits-found first asked.query asked.filter games trees };

    ghost one_list = { λ asked first games a b trees one other.
        hits-unique first asked.query asked.filter games games a b trees one other refl };

    ghost by_parts = { λ asked first games more hits others one other.
        AreHitsFrom-append first asked.query asked.filter games hits one more others other };
}

// A watched search. Contracts see its name, what it looks for, how many games it covers, and the hits
// in these.
#[derive(Debug, Drop)]
pub(crate) struct Watch {
    name: Text,
    query: Query,
    filter: Filter,
    standing: Standing,
}

impl Model for Watch {
    ghost use Rattle.session_core.specs.SessionState.{Watched};

    ghost Value = { Watched };

    ghost view = { λ w. record {
      name = w.name;
      query = w.query;
      filter = w.filter;
      covered = w.standing.games;
      hits = w.standing.hits;
    } };
}

impl Watch {
    // This search, which covers no games yet. The only error is `NoMemory`.
    fn new(alloc: Global, wanted: NamedSearch) -> Result<Watch, NoMemory>
        ensures { IfOk result (λ watch. watch ≡ watch_over
            wanted.entry.name.now wanted.entry.query.now wanted.entry.filter.now [] []) }
    {
        let name = Text::new(String::from_str(alloc, wanted.name.as_str())?);
        let query = wanted.query.copy(alloc)?;
        let filter = wanted.filter.copy(alloc)?;
        Ok(Watch {
            name,
            query,
            filter,
            standing: Standing::new(alloc),
        })
    }

    // This search, which covers the games of a version. The only error is `NoMemory`.
    pub(crate) fn over(
        alloc: Global,
        wanted: NamedSearch,
        version: &Version<Segment>,
    ) -> Result<Watch, NoMemory>
        ensures covers { IfOk result (λ watch. watch ≡ watch_over
            wanted.entry.name.now wanted.entry.query.now wanted.entry.filter.now
            (items_in version.now.parts) watch.hits) }
        ensures hits { IfOk result (λ watch. AreHits wanted.entry.query.now wanted.entry.filter.now
            (items_in version.now.parts) watch.hits) }
    {
        let mut watch = Watch::new(alloc, wanted)?;
        watch.advance(alloc, version)?;
        Ok(watch)
    }

    // The name.
    pub(crate) fn name(&self) -> &str
        ensures { result.now ≡ self.now.name }
    {
        self.name.as_str()
    }

    // The hits in the games that it covers.
    pub(crate) fn hits(&self) -> &[Hit]
        ensures { result.now ≡ self.now.hits }
    {
        self.standing.hits()
    }

    // The hits from this one on.
    pub(crate) fn hits_from(&self, first: usize) -> &[Hit]
        ensures { result.now ≡ drop first self.now.hits }
    {
        let hits = self.standing.hits();
        &hits[first.min(hits.len())..]
    }

    // Goes on to a version, which begins with the games that it covers: only those behind them are
    // searched. Answers the place of the first new hit, which is the number of the hits where none is
    // new. The only error is `NoMemory`, after which it is as before.
    pub(crate) fn advance(
        &mut self,
        alloc: Global,
        version: &Version<Segment>,
    ) -> Result<usize, NoMemory>
        requires { IsWatchOf (items_in version.now.parts) self.old }
        ensures ok { IfOk result (λ first.
            IsAdvanced (items_in version.now.parts) self.old self.new first) }
        ensures refused { OnErr result (self.new ≡ self.old) }
    {
        self.advance_counted::<Brand>(alloc, version, Blank::new(1))
    }

    // The same, with steps that are counted in a ledger of their own.
    fn advance_counted<L: Ledger>(
        &mut self,
        alloc: Global,
        version: &Version<Segment>,
        blank: Blank,
    ) -> Result<usize, NoMemory>
        requires fits { IsWatchOf (items_in version.now.parts) self.old }
        requires name { blank.name ≡ L.name }
        requires parts { blank.parts ≡ L.parts }
        requires some { 0 < blank.parts }
        ensures ok { IfOk result (λ first.
            IsAdvanced (items_in version.now.parts) self.old self.new first) }
        ensures refused { OnErr result (self.new ≡ self.old) }
    {
        let mut steps = Steps::<L>::new(blank);
        let mut finder = QueryFinder {
            query: &self.query,
            filter: &self.filter,
        };
        self.standing
            .advance(alloc, &mut finder, version, &mut steps)
    }
}
