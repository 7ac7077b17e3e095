// The answers of statements.
ghost use Rattle.std.specs.Prelude.{
  ◌≡◌,
  ◌++◌,
  ◌∷◌,
  [],
  ℕ,
  IfOk,
  IsSomeAnd,
  List,
  OnErr,
  OnOk,
  Option,
  Some,
  false,
  length,
  map,
  true,
};
ghost use mathlib.Core.List.{IsPrefix};
ghost use Rattle.continuation_table.specs.Table.{IsTable};
ghost use Rattle.sgf_writer.specs.Written.{IsWritten};
ghost use Rattle.query_script.specs.Bytes.{line_feed};
ghost use Rattle.query_script.specs.Texts.{game_head, search_text};
ghost use Rattle.search_engine.specs.Hits.{AreHits};
ghost use Rattle.session_core.specs.Answers.{
  ChangesUnfed,
  IsAnswer,
  IsAnswered,
  IsAnsweredUnfed,
  IsGameText,
  IsKeptText,
  IsLeft,
  IsLeftBehind,
  IsOfWatches,
  IsSearched,
  View,
};
ghost use Rattle.query_script.specs.declared.statement.Statement.TheVariants as statement;
ghost use Rattle.session_core.specs.SessionState.{fed_with, new_session, with_watches};
ghost use Rattle.session_core.specs.Stores.{view_of};
ghost use Rattle.session_core.specs.Watches.{IsFree, IsWatch, WatchesFit, fed_by, new_hits};
ghost use Rattle.session_core.specs.Watching.{IsWatchAt};
ghost use Rattle.session_core.specs.declared.watches.NewHits.{NewHits};

use crate::boxes::{append_report, feed_boxes, retire_box};
use crate::lists::{append_doubles, append_players, append_signature};
use crate::openings::append_opening;
use crate::watch::{NamedSearch, Watch};
use crate::watches::{NewHits, advance_at, find_watch, hits_of};
use continuation_table::Table;
use hit_collectors::Collector;
use info_filter::Filter;
use kb_geometry::{NoMemory, cut_back};
use opening_tree::WantedOpenings;
use pattern_images::Query;
use query_script::{
    Heading, Statement, print_game, print_hits, print_kept, print_no_game, print_no_watch,
    print_taken, print_watch, print_watched,
};
use search_engine::{Answer, find_game, game_count, kept, search};
use segment_store::{FinishedGame, Segment};
use sgf_writer::write;
use std::alloc::Global;
use std::marker::Model;
use std::thread::Threads;
use version_publisher::Version;

/// Answers statements, each over the games that its call is given, and keeps boxes that tally the
/// hits of its searches, and the searches that are watched. Contracts see it as what it keeps from one
/// statement to the next: what the boxes tell, and the watched searches, both in order.
#[derive(Drop)]
pub struct Session<C: Collector> {
    boxes: Vec<C>,
    watches: Vec<Watch>,
}

impl<C: Collector> Model for Session<C> {
    ghost use Rattle.std.specs.Prelude.{map};
    ghost use Rattle.session_core.specs.SessionState.{SessionState, session_of};

    ghost Value = { SessionState };

    ghost view = { λ s. session_of (map (λ b. C.tally b) s.boxes.items) s.watches.items };
}

impl<C: Collector> Session<C> {
    /// A session with these boxes, which has answered nothing.
    pub fn new(alloc: Global, boards: Vec<C>) -> Session<C>
        ensures { result ≡ new_session (map (λ b. C.tally b) boards.items) }
    {
        Session {
            boxes: boards,
            watches: Vec::new(alloc),
        }
    }

    /// Appends the text of a search, of a count of kept games, of the games whose signature matches
    /// a pattern, of the players, of the double games, of a game or of openings, whose line is this one,
    /// over a version; or the report of the boxes, or that a box was retired. The hits of a search are
    /// given to all boxes.
    ///
    /// Of a search that is watched from now on the number of its hits is appended, or that its name is
    /// taken; a watched search is told as a search is, or that none has the name. The hits that are new
    /// are given to all boxes. The version begins with the games that each watched search covers, and
    /// only those behind them are searched. Other statements aren't answered.
    ///
    /// The only error is `NoMemory`; then `out` begins with what it held. The boxes are as before,
    /// or [`feed`](hit_collectors::feed) was refused: then the boxes before one have all hits, that
    /// one has those before the hit that it refused, and the later boxes have none. The watched search
    /// that the statement names may have been added, or have gone on to this version: then its new hits
    /// are given to no box again. Every other one is as before.
    pub fn answer<R: Threads + Sync>(
        &mut self,
        rt: &R,
        alloc: Global,
        line: u32,
        statement: &Statement,
        version: &Version<Segment>,
        out: &mut Vec<u8>,
    ) -> Result<(), NoMemory>
        requires answered { IsAnswered statement.now }
        requires fit { WatchesFit (view_of version.now).games self.old }
        ensures ok { OnOk result ((text : List ℕ)
            × IsAnswer line (view_of version.now) self.old statement.now text self.new
            × (out.new.items ≡ out.old.items ++ text)) }
        ensures refused { OnErr result (IsPrefix out.old.items out.new.items) }
        ensures left { OnErr result
            (IsLeftBehind (view_of version.now) statement.now self.old self.new) }
    {
        match statement {
            Statement::Search { query, filter } => {
                self.answer_search(rt, alloc, line, query, filter, version, out)
            }
            Statement::Kept { query } => append_kept(alloc, line, query, version, out),
            Statement::Signature { pattern } => {
                append_signature(alloc, line, pattern, version, out)
            }
            Statement::Players => append_players(alloc, line, version, out),
            Statement::Doubles => append_doubles(alloc, line, version, out),
            Statement::Game { number: game } => append_game(line, *game, version, out),
            Statement::Opening {
                shape,
                depth,
                least,
            } => {
                let wanted = WantedOpenings {
                    shape: *shape,
                    depth: *depth,
                    least: *least,
                };
                append_opening(rt, alloc, line, wanted, version, out)
            }
            Statement::Report => append_report(line, &self.boxes, out),
            Statement::Retire { name } => retire_box(line, name.as_str(), &mut self.boxes, out),
            Statement::Watch { .. } | Statement::Watched { .. } => {
                self.answer_watch(alloc, line, statement, version, out)
            }
            Statement::Import { .. }
            | Statement::Make { .. }
            | Statement::Wait
            | Statement::Until { .. }
            // The condition `answered` excludes these.
            | Statement::Together { .. } => unreachable!(),
        }
    }

    /// Appends the text of a search, as one that stands in a block, and gives its hits to all boxes.
    ///
    /// The only error is `NoMemory`; then `out` holds what it held, and the boxes are as for
    /// [`answer`](Session::answer).
    pub fn answer_search<R: Threads + Sync>(
        &mut self,
        rt: &R,
        alloc: Global,
        line: u32,
        query: &Query,
        filter: &Filter,
        version: &Version<Segment>,
        out: &mut Vec<u8>,
    ) -> Result<(), NoMemory>
        ensures ok { OnOk result ((text : List ℕ)
            × IsSearched line (view_of version.now) query.now filter.now self.old text self.new
            × (out.new.items ≡ out.old.items ++ text)) }
        ensures refused { OnErr result (out.new.items ≡ out.old.items) }
        ensures left { OnErr result
            (IsLeft (AreHits query.now filter.now (view_of version.now).games) self.old self.new) }
    {
        let answer = search(rt, alloc, version, query, filter)?;
        self.deliver(line, version.number(), game_count(version), &answer, out)
    }

    /// Appends the text of a search that was made elsewhere, by the number of a version, how many
    /// games it has, and the answer, and gives the hits of the answer to all boxes. For the answer
    /// that [`search`] gives over a version with this number and so many games, this is what
    /// [`answer`](Session::answer) does.
    ///
    /// The only error is `NoMemory`; then `out` holds what it held, and the boxes are as for
    /// [`answer`](Session::answer).
    pub fn deliver(
        &mut self,
        line: u32,
        number: u64,
        games: u32,
        answer: &Answer,
        out: &mut Vec<u8>,
    ) -> Result<(), NoMemory>
        ensures ok { OnOk result (out.new.items ≡ out.old.items
            ++ search_text line number games answer.now.hits.items answer.now.table) }
        ensures fed { OnOk result (self.new ≡ fed_with answer.now.hits.items self.old) }
        ensures searched { OnOk result ((view : View) (query : Query) (filter : Filter) →
            number ≡ view.version → games ≡ length view.games →
            AreHits query filter view.games answer.now.hits.items →
            IsTable answer.now.hits.items answer.now.table →
            (text : List ℕ) × IsSearched line view query filter self.old text self.new
            × (out.new.items ≡ out.old.items ++ text)) }
        ensures refused { OnErr result (out.new.items ≡ out.old.items) }
        ensures left { OnErr result
            (IsLeft (λ hits. hits ≡ answer.now.hits.items) self.old self.new) }
    {
        // The text is there before a box changes, so that a refusal for want of room changes none.
        let len = out.len();
        print_hits(line, number, games, &answer.hits, &answer.table, out)?;
        let fed = self.feed(answer);
        cut_back(out, len, fed)
    }

    /// Gives the hits of an answer to all boxes, as [`deliver`](Session::deliver) does behind the
    /// text.
    ///
    /// The only error is `NoMemory`; then the boxes are as for [`answer`](Session::answer).
    pub fn feed(&mut self, answer: &Answer) -> Result<(), NoMemory>
        ensures fed { OnOk result (self.new ≡ fed_with answer.now.hits.items self.old) }
        ensures left { OnErr result
            (IsLeft (λ hits. hits ≡ answer.now.hits.items) self.old self.new) }
    {
        feed_boxes(&mut self.boxes, &answer.hits)
    }

    /// Whether a search is watched under this name.
    pub fn is_watched(&self, name: &str) -> bool
        ensures some { result ≡ true → IsWatch name.now self.now.watches }
        ensures none { result ≡ false → IsFree name.now self.now.watches }
    {
        find_watch(&self.watches, name).is_some()
    }

    /// Appends the text of a statement that watches a search, or that tells a watched one, as
    /// [`answer`](Session::answer) does, and adds the watched search, or lets it go on to the version, but
    /// gives no hits to the boxes. Answers which hits are new, if some may be: once the boxes are given
    /// these by [`feed_new`](Session::feed_new), the statement is answered. No other statement is told.
    ///
    /// The only error is `NoMemory`; then `out` holds what it held, and the boxes are as before. The
    /// watched search that the statement names may have gone on to this version.
    pub fn tell_watch(
        &mut self,
        alloc: Global,
        line: u32,
        statement: &Statement,
        version: &Version<Segment>,
        out: &mut Vec<u8>,
    ) -> Result<Option<NewHits>, NoMemory>
        requires told { IsOfWatches statement.now }
        requires fit { WatchesFit (view_of version.now).games self.old }
        ensures ok { IfOk result (λ new. (text : List ℕ)
            × IsAnsweredUnfed line (view_of version.now) self.old statement.now text self.new new
            × (out.new.items ≡ out.old.items ++ text)) }
        ensures refused { OnErr result (out.new.items ≡ out.old.items) }
        ensures left { OnErr result ((new : Option NewHits)
            × ChangesUnfed (view_of version.now) statement.now self.old self.new new) }
    {
        match statement {
            Statement::Watch {
                name,
                query,
                filter,
            } => {
                let wanted = NamedSearch {
                    name,
                    query,
                    filter,
                };
                self.begin_watch(alloc, line, wanted, version, out)
            }
            Statement::Watched { name } => {
                self.go_on_with(alloc, line, name.as_str(), version, out)
            }
            // The condition `told` excludes the others.
            _ => unreachable!(),
        }
    }

    /// Gives hits that are new to all boxes, if there are some.
    ///
    /// The only error is `NoMemory`; then the boxes are as for [`answer`](Session::answer).
    pub fn feed_new(&mut self, new: Option<NewHits>) -> Result<(), NoMemory>
        ensures fed { OnOk result (self.new ≡ fed_by new self.old) }
        ensures left { OnErr result (IsSomeAnd new (λ n.
            IsLeft (λ hits. hits ≡ new_hits self.old.watches n) self.old self.new)) }
    {
        match new {
            Some(new) => feed_boxes(&mut self.boxes, hits_of(&self.watches, new)),
            None => Ok(()),
        }
    }

    // Appends the text of a statement that watches a search, or that tells a watched one, and gives its
    // new hits to all boxes.
    fn answer_watch(
        &mut self,
        alloc: Global,
        line: u32,
        statement: &Statement,
        version: &Version<Segment>,
        out: &mut Vec<u8>,
    ) -> Result<(), NoMemory>
        requires told { IsOfWatches statement.now }
        requires fit { WatchesFit (view_of version.now).games self.old }
        ensures ok { OnOk result ((text : List ℕ)
            × IsAnswer line (view_of version.now) self.old statement.now text self.new
            × (out.new.items ≡ out.old.items ++ text)) }
        ensures refused { OnErr result (out.new.items ≡ out.old.items) }
        ensures left { OnErr result
            (IsLeftBehind (view_of version.now) statement.now self.old self.new) }
    {
        let len = out.len();
        let new = self.tell_watch(alloc, line, statement, version, out)?;
        let fed = self.feed_new(new);
        cut_back(out, len, fed)
    }

    // Appends the text of a search that is watched from now on, which is added; or that its name is
    // taken.
    fn begin_watch(
        &mut self,
        alloc: Global,
        line: u32,
        wanted: NamedSearch,
        version: &Version<Segment>,
        out: &mut Vec<u8>,
    ) -> Result<Option<NewHits>, NoMemory>
        ensures ok { IfOk result (λ new. (text : List ℕ)
            × IsAnsweredUnfed line (view_of version.now) self.old (statement.Watch
            wanted.entry.name.now wanted.entry.query.now wanted.entry.filter.now) text self.new new
            × (out.new.items ≡ out.old.items ++ text)) }
        ensures refused { OnErr result (out.new.items ≡ out.old.items) }
        ensures left { OnErr result (self.new ≡ self.old) }
    {
        if self.is_watched(wanted.name.as_str()) {
            print_taken(line, wanted.name.as_str(), out)?;
            return Ok(None);
        }
        let watch = Watch::over(alloc, wanted, version)?;
        // The text is there before anything changes, so that a refusal for want of room changes nothing.
        let len = out.len();
        let count = watch.hits().len();
        print_watch(line, wanted.name.as_str(), version.number(), count, out)?;
        let at = self.watches.len();
        let added = self.add_watch(watch);
        cut_back(out, len, added)?;
        Ok(Some(NewHits { at, first: 0 }))
    }

    // Adds a watched search.
    fn add_watch(&mut self, watch: Watch) -> Result<(), NoMemory>
        ensures ok { OnOk result
            (self.new ≡ with_watches self.old (self.old.watches ++ watch ∷ [])) }
        ensures left { OnErr result (self.new ≡ self.old) }
    {
        self.watches.push(watch)?;
        Ok(())
    }

    // Appends the text of the watched search of a name, which goes on to a version; or that none is
    // watched under it.
    fn go_on_with(
        &mut self,
        alloc: Global,
        line: u32,
        name: &str,
        version: &Version<Segment>,
        out: &mut Vec<u8>,
    ) -> Result<Option<NewHits>, NoMemory>
        requires { WatchesFit (view_of version.now).games self.old }
        ensures ok { IfOk result (λ new. (text : List ℕ)
            × IsAnsweredUnfed line (view_of version.now) self.old (statement.Watched name.now) text
            self.new new × (out.new.items ≡ out.old.items ++ text)) }
        ensures refused { OnErr result (out.new.items ≡ out.old.items) }
        ensures left { OnErr result ((new : Option NewHits)
            × ChangesUnfed (view_of version.now) (statement.Watched name.now) self.old self.new new) }
    {
        match find_watch(&self.watches, name) {
            Some(at) => {
                let new = self.go_on_at(alloc, line, name, at, version, out)?;
                Ok(Some(new))
            }
            None => {
                print_no_watch(line, name, out)?;
                Ok(None)
            }
        }
    }

    // Lets the watched search at a place go on to a version, and appends its text.
    fn go_on_at(
        &mut self,
        alloc: Global,
        line: u32,
        name: &str,
        at: usize,
        version: &Version<Segment>,
        out: &mut Vec<u8>,
    ) -> Result<NewHits, NoMemory>
        requires at { IsWatchAt name.now self.old.watches at }
        requires fit { WatchesFit (view_of version.now).games self.old }
        ensures ok { IfOk result (λ new. (text : List ℕ)
            × IsAnsweredUnfed line (view_of version.now) self.old (statement.Watched name.now) text
            self.new (Some new) × (out.new.items ≡ out.old.items ++ text)) }
        ensures refused { OnErr result (out.new.items ≡ out.old.items) }
        ensures left { OnErr result ((new : Option NewHits)
            × ChangesUnfed (view_of version.now) (statement.Watched name.now) self.old self.new new) }
    {
        let first = advance_at(alloc, &mut self.watches, at, version)?;
        let hits = self.watches[at].hits();
        let table = Table::of(alloc, hits)?;
        let heading = Heading {
            line,
            version: version.number(),
            games: game_count(version),
        };
        print_watched(heading, name, hits, &table, out)?;
        Ok(NewHits { at, first })
    }
}

// Appends the text of a count of kept games.
fn append_kept(
    alloc: Global,
    line: u32,
    query: &Query,
    version: &Version<Segment>,
    out: &mut Vec<u8>,
) -> Result<(), NoMemory>
    ensures ok { OnOk result ((text : List ℕ)
        × IsKeptText line (view_of version.now) query.now text
        × (out.new.items ≡ out.old.items ++ text)) }
    ensures refused { OnErr result (out.new.items ≡ out.old.items) }
{
    let kept = kept(alloc, version, query)?;
    print_kept(line, version.number(), game_count(version), kept, out)
}

// Appends the text of the game with this number, or that the version has no such game.
fn append_game(
    line: u32,
    game: u32,
    version: &Version<Segment>,
    out: &mut Vec<u8>,
) -> Result<(), NoMemory>
    ensures ok { OnOk result ((text : List ℕ)
        × IsGameText line (view_of version.now) game text
        × (out.new.items ≡ out.old.items ++ text)) }
    ensures refused { OnErr result (IsPrefix out.old.items out.new.items) }
{
    match find_game(version, game) {
        Some(found) => append_found(line, game, version.number(), found, out),
        None => print_no_game(line, game, version.number(), out),
    }
}

// Appends the text of a game that is there: its head, the written tree, and a line feed.
fn append_found(
    line: u32,
    game: u32,
    number: u64,
    found: &FinishedGame,
    out: &mut Vec<u8>,
) -> Result<(), NoMemory>
    ensures ok { OnOk result ((written : List ℕ) × IsWritten found.now.tree written
        × (out.new.items
        ≡ out.old.items ++ (game_head line game number found.now.place
        found.now.file ++ (written ++ line_feed ∷ [])))) }
    ensures refused { OnErr result (IsPrefix out.old.items out.new.items) }
{
    print_game(line, game, number, found.place(), found.file(), out)?;
    write(found.tree(), out)?;
    out.push(b'\n')?;
    Ok(())
}
