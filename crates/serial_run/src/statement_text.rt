// The texts of statements that are answered from one version.
ghost use Rattle.std.specs.Prelude.{◌≡◌, List, ℕ, IfOk};
ghost use Rattle.std.specs.declared.option.Option.{Option};
ghost use Rattle.query_script.specs.Texts.{until_text};
ghost use Rattle.session_core.specs.Answers.{IsAnswer, IsAnswered};
ghost use Rattle.session_core.specs.Stores.{view_of};
ghost use Rattle.session_core.specs.Watches.{WatchesFit};
ghost use Rattle.version_publisher.specs.Contents.{items_in};
ghost use Rattle.session_core.specs.Lawful.{Rules};
ghost use Rattle.serial_run.specs.Steps.{AreAnswered, IsTextByKept, LeavesBase, kept_at};

use crate::block::block_text;
use hit_collectors::Collector;
use kb_geometry::NoMemory;
use query_script::{Placed, PlacedSearch, Statement, print_until};
use segment_store::Segment;
use session_core::Session;
use std::alloc::Global;
use std::thread::Threads;
use version_publisher::Version;

/// The text of a statement that is neither an import nor a wait, where a version is the last one. The
/// session's boxes tally the hits of its searches. The version begins with the games that the session's
/// watched searches cover, and has all of them behind the statement, too.
pub fn version_text<R: Threads + Sync, C: Collector>(
    rt: &R,
    alloc: Global,
    session: &mut Session<C>,
    placed: &Placed,
    version: &Version<Segment>,
) -> Result<Vec<u8>, NoMemory>
    requires leaves { LeavesBase placed.now.statement }
    requires fit { WatchesFit (items_in version.now.parts) session.old }
    ensures text { IfOk result (λ text. (rules : Rules) (waiting : Option (List ℕ)) →
        IsTextByKept rules (kept_at version.now waiting) session.old placed.now.line
        placed.now.statement text.items session.new) }
    ensures fit { IfOk result (λ text. WatchesFit (items_in version.now.parts) session.new) }
{
    let line = placed.line;
    match &placed.statement {
        Statement::Until { number } => until_text(alloc, line, *number, version),
        Statement::Together { searches } => {
            block_at(rt, alloc, session, searches.as_slice(), version)
        }
        // The condition excludes these.
        Statement::Import { .. } | Statement::Make { .. } | Statement::Wait => unreachable!(),
        answered => answer_text(rt, alloc, session, line, answered, version),
    }
}

fn until_text(
    alloc: Global,
    line: u32,
    number: u64,
    version: &Version<Segment>,
) -> Result<Vec<u8>, NoMemory>
    ensures { IfOk result (λ text. text.items ≡ until_text line number version.now.number) }
{
    let mut text = Vec::new(alloc);
    print_until(line, number, version.number(), &mut text)?;
    Ok(text)
}

fn answer_text<R: Threads + Sync, C: Collector>(
    rt: &R,
    alloc: Global,
    session: &mut Session<C>,
    line: u32,
    statement: &Statement,
    version: &Version<Segment>,
) -> Result<Vec<u8>, NoMemory>
    requires answered { IsAnswered statement.now }
    requires fit { WatchesFit (items_in version.now.parts) session.old }
    ensures { IfOk result (λ text.
        IsAnswer line (view_of version.now) session.old statement.now text.items session.new) }
{
    let mut text = Vec::new(alloc);
    session.answer(rt, alloc, line, statement, version, &mut text)?;
    Ok(text)
}

// The texts of the searches of a block, in order, each over one version.
fn block_at<R: Threads + Sync, C: Collector>(
    rt: &R,
    alloc: Global,
    session: &mut Session<C>,
    searches: &[PlacedSearch],
    version: &Version<Segment>,
) -> Result<Vec<u8>, NoMemory>
    ensures { IfOk result (λ text.
        AreAnswered (view_of version.now) searches.now session.old text.items session.new) }
{
    let mut versions = Vec::new(alloc);
    for _ in searches {
        versions.push(version)?;
    }
    block_text(rt, alloc, session, searches, &versions)
}
