// Searches whose texts are compared with a record.
ghost use Rattle.std.specs.Prelude.{◌≡◌, ◌≤◌, ◌++◌, ℕ, All, IfOk, IsErrOf, List, length};
ghost use Rattle.std.specs.List.{flat_map};
ghost use Rattle.kb_edges.specs.Files.{File};
ghost use Rattle.game_tree.specs.Tree.{IsTree};
ghost use Rattle.node_position.specs.Games.{Game};
ghost use Rattle.query_script.specs.Texts.{hit_text};
ghost use Rattle.query_script.specs.declared.statement.Placed.{Placed};
ghost use Rattle.query_script.specs.declared.statement.Statement.TheVariants as statement;
ghost use Rattle.session_core.specs.Answers.{IsSearched};
ghost use Rattle.session_core.specs.Lawful.{Rules};
ghost use Rattle.session_core.specs.SessionState.{SessionState};
ghost use Rattle.session_core.specs.Stores.{view_of};
ghost use Rattle.run_audit.specs.Standing.{
  DepartsGuided,
  DepartsIn,
  FitsFloor,
  FitsTogether,
  PassesGuided,
  kept_last,
};
ghost use Rattle.run_audit.specs.declared.stop.Stop.TheVariants as stop;

use crate::base::Base;
use crate::named::version_head;
use crate::numbers::{behind, number_named};
use crate::stop::Stop;
use crate::whole::least_named;
use hit_collectors::Collector;
use info_filter::Filter;
use pattern_images::{Hit, Query};
use query_script::{PlacedSearch, print_hit_lines, print_rows, print_search_head, print_totals};
use search_engine::{game_count, search};
use segment_store::Segment;
use session_core::Session;
use std::alloc::Global;
use std::thread::Threads;
use version_publisher::Version;

// How many hits are printed at once.
const HITS_AT_ONCE: usize = 4096;

// What is left of a record behind the text of a search over a version, which is to stand next. The hits
// are given to the boxes once the whole text stands there. No more than a piece of the text is held.
pub(crate) fn behind_search<'a, R: Threads + Sync, C: Collector>(
    rt: &R,
    alloc: Global,
    session: &mut Session<C>,
    line: u32,
    query: &Query,
    filter: &Filter,
    version: &Version<Segment>,
    left: &'a [u8],
) -> Result<&'a [u8], Stop>
    ensures stands { IfOk result (λ rest. (text : List ℕ) × (left.now ≡ text ++ rest.now)
        × IsSearched line (view_of version.now) query.now filter.now session.old text session.new) }
    ensures departs { (count : ℕ) → IsErrOf result (stop.Departs count) →
        All (λ (g : Game). IsTree g.tree) (view_of version.now).games →
        (text : List ℕ) (after : SessionState) →
        IsSearched line (view_of version.now) query.now filter.now session.old text after →
        DepartsIn left.now text count }
    ensures within { (count : ℕ) → IsErrOf result (stop.Departs count) → count ≤ length left.now }
    ensures shorter { IfOk result (λ rest. length rest.now ≤ length left.now) }
    ensures folder { ¬ IsErrOf result stop.FolderUnread }
    // Where the record departs, nothing is given to the boxes.
    ensures unfed { (count : ℕ) → IsErrOf result (stop.Departs count) →
        session.new.boxes ≡ session.old.boxes }
{
    let answer = search(rt, alloc, version, query, filter)?;
    let mut head = Vec::new(alloc);
    let count = answer.hits.len();
    print_search_head(
        line,
        version.number(),
        game_count(version),
        count,
        &mut head,
    )?;
    let behind_head = behind(left, &head)?;
    let behind_lines = behind_hits(alloc, &answer.hits, behind_head)?;
    let mut end = Vec::new(alloc);
    print_rows(answer.table.rows(), &mut end)?;
    print_totals(answer.table.totals(), &mut end)?;
    let rest = behind(behind_lines, &end)?;
    session.feed(&answer)?;
    Ok(rest)
}

// What is left of a record behind the lines of these hits.
fn behind_hits<'a>(alloc: Global, hits: &[Hit], left: &'a [u8]) -> Result<&'a [u8], Stop>
    ensures stands { IfOk result (λ rest. left.now ≡ flat_map hit_text hits.now ++ rest.now) }
    ensures departs { (count : ℕ) → IsErrOf result (stop.Departs count) →
        DepartsIn left.now (flat_map hit_text hits.now) count }
    ensures within { (count : ℕ) → IsErrOf result (stop.Departs count) → count ≤ length left.now }
    ensures shorter { IfOk result (λ rest. length rest.now ≤ length left.now) }
    ensures folder { ¬ IsErrOf result stop.FolderUnread }
{
    let mut left = left;
    let mut text = Vec::new(alloc);
    for some in hits.chunks(HITS_AT_ONCE) {
        text.clear();
        print_hit_lines(some, &mut text)?;
        left = behind(left, &text)?;
    }
    Ok(left)
}

// What is left of a record behind the texts of the searches of a block, in order. Each names a version by
// the floor before the block.
pub(crate) fn behind_block<'a, R: Threads + Sync, C: Collector>(
    rt: &R,
    alloc: Global,
    serial: bool,
    session: &mut Session<C>,
    searches: &[PlacedSearch],
    base: &mut Base,
    left: &'a [u8],
) -> Result<&'a [u8], Stop>
    requires { FitsTogether base.old }
    ensures passed { IfOk result (λ rest. (files : List File) (recorded : List ℕ) (rules : Rules)
        (p : Placed) → rules.serial ≡ serial → p.statement ≡ statement.Together searches.now →
        PassesGuided files rules recorded left.now p base.old session.old rest.now base.new
        session.new) }
    ensures departs { (count : ℕ) → IsErrOf result (stop.Departs count) → (files : List File)
        (recorded : List ℕ) (rules : Rules) (p : Placed) → rules.serial ≡ serial →
        p.statement ≡ statement.Together searches.now →
        DepartsGuided files rules recorded left.now p base.old session.old count }
    ensures within { (count : ℕ) → IsErrOf result (stop.Departs count) → count ≤ length left.now }
    ensures shorter { IfOk result (λ rest. length rest.now ≤ length left.now) }
    ensures last { IfOk result (λ _. kept_last base.new ≡ kept_last base.old) }
    ensures fits { IfOk result (λ _. FitsTogether base.new) }
    ensures watched { IfOk result (λ _. FitsFloor base.old session.old →
        FitsFloor base.new session.new) }
    ensures folder { ¬ IsErrOf result stop.FolderUnread }
{
    let mut left = left;
    let mut greatest = 0;
    for p in searches {
        let head = version_head(alloc, p.line, b"search")?;
        let rest = behind(left, &head)?;
        let number = number_named(alloc, rest, least_named(serial, base), base.last())?;
        let version = base.version_at(alloc, number)?;
        left = behind_search(
            rt, alloc, session, p.line, &p.query, &p.filter, &version, left,
        )?;
        greatest = greatest.max(number);
    }
    base.raise(alloc, greatest)?;
    Ok(left)
}
