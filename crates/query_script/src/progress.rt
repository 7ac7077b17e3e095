// How far a script is read, and what its next line does.
ghost use Rattle.std.specs.Prelude.{◌≡◌, ◌+◌, ℕ, List, IfOk, IsErrOf};
ghost use Rattle.query_script.specs.Progress.{IsLineAt, IsReadBefore};
ghost use Rattle.query_script.specs.Script.{IsLeastBadLine};
ghost use Rattle.query_script.specs.declared.line.Line.TheVariants as line;
ghost use Rattle.query_script.specs.declared.progress.Progress.TheVariants as progress;
ghost use Rattle.query_script.specs.declared.statement.Statement.TheVariants as statement;

use crate::line::Line;
use crate::statement::{Placed, PlacedSearch, ScriptError, SearchList, Statement};
use info_filter::Filter;
use pattern_images::Query;
use std::alloc::Global;

// The most searches of a block.
const MAX_SEARCHES: usize = 8;

// A block of searches that goes on.
#[derive(Debug, Drop)]
pub(crate) struct Block {
    /// The line of its `together`, from 1.
    pub(crate) line: u32,
    /// Its searches so far.
    pub(crate) searches: Vec<PlacedSearch>,
}

impl Block {
    // A line of the block is bad.
    fn broken(self, bad: u32) -> Progress
        ensures { result ≡ progress.Broken self.line bad }
    {
        Progress::Broken {
            begun: self.line,
            bad,
        }
    }
}

// Where reading stands between two lines.
#[derive(Debug, Drop)]
pub(crate) enum Progress {
    /// Outside blocks.
    Outside,
    /// In a block without a bad line so far.
    Inside(Block),
    /// In a block with a bad line. If no line ends the block, then the line that begins it is bad,
    /// too.
    Broken { begun: u32, bad: u32 },
}

impl Progress {
    // Where reading stands after the line with this number. A statement that is whole then is
    // appended to those so far. The errors are the least bad line, where it is known by now, and
    // `NoMemory`.
    pub(crate) fn after(
        self,
        alloc: Global,
        number: u32,
        line: Line,
        placed: &mut Vec<Placed>,
    ) -> Result<Progress, ScriptError>
        ensures read { IfOk result (λ next. (lines : List (List ℕ)) →
            IsReadBefore lines number placed.old.items self
            → IsLineAt lines number line → IsReadBefore lines (number + 1) placed.new.items next) }
        ensures bad_line { (k : ℕ) → IsErrOf result (ScriptError.BadLine k) →
            (lines : List (List ℕ))
            → IsReadBefore lines number placed.old.items self → IsLineAt lines number line →
            IsLeastBadLine lines k }
    {
        match self {
            Progress::Outside => read_outside(alloc, number, line, placed),
            Progress::Inside(block) => read_inside(block, number, line, placed),
            Progress::Broken { begun, bad } => read_broken(begun, bad, line),
        }
    }
}

// What a line outside blocks does.
fn read_outside(
    alloc: Global,
    number: u32,
    line: Line,
    placed: &mut Vec<Placed>,
) -> Result<Progress, ScriptError>
    ensures read { IfOk result (λ next. (lines : List (List ℕ)) →
        IsReadBefore lines number placed.old.items progress.Outside
        → IsLineAt lines number line → IsReadBefore lines (number + 1) placed.new.items next) }
    ensures bad_line { (k : ℕ) → IsErrOf result (ScriptError.BadLine k) → (lines : List (List ℕ))
        → IsReadBefore lines number placed.old.items progress.Outside → IsLineAt lines number line →
        IsLeastBadLine lines k }
{
    match line {
        Line::Skipped => Ok(Progress::Outside),
        Line::Together => Ok(Progress::Inside(Block {
            line: number,
            searches: Vec::new(alloc),
        })),
        Line::Statement(statement) => {
            placed.push(Placed {
                line: number,
                statement,
            })?;
            Ok(Progress::Outside)
        }
        Line::End => Err(ScriptError::BadLine { line: number }),
        Line::Bad => Err(ScriptError::BadLine { line: number }),
    }
}

// What a line inside a block does.
fn read_inside(
    block: Block,
    number: u32,
    line: Line,
    placed: &mut Vec<Placed>,
) -> Result<Progress, ScriptError>
    ensures read { IfOk result (λ next. (lines : List (List ℕ)) →
        IsReadBefore lines number placed.old.items (progress.Inside block)
        → IsLineAt lines number line → IsReadBefore lines (number + 1) placed.new.items next) }
    ensures bad_line { (k : ℕ) → IsErrOf result (ScriptError.BadLine k) → (lines : List (List ℕ))
        → IsReadBefore lines number placed.old.items (progress.Inside block) →
        IsLineAt lines number line → IsLeastBadLine lines k }
{
    match line {
        Line::Skipped => Ok(Progress::Inside(block)),
        Line::End => end_block(block, number, placed),
        Line::Statement(statement) => read_statement(block, number, statement),
        Line::Together => Ok(block.broken(number)),
        Line::Bad => Ok(block.broken(number)),
    }
}

// What a statement inside a block does.
fn read_statement(block: Block, number: u32, statement: Statement) -> Result<Progress, ScriptError>
    ensures read { IfOk result (λ next. (lines : List (List ℕ)) (placed : List Placed) →
        IsReadBefore lines number placed (progress.Inside block)
        → IsLineAt lines number (line.Statement statement) →
        IsReadBefore lines (number + 1) placed next) }
    ensures bad_line { (k : ℕ) → ¬ IsErrOf result (ScriptError.BadLine k) }
{
    match statement {
        Statement::Search { query, filter } => add_search(block, number, query, filter),
        _ => Ok(block.broken(number)),
    }
}

// What the end of a block does.
fn end_block(block: Block, number: u32, placed: &mut Vec<Placed>) -> Result<Progress, ScriptError>
    ensures read { IfOk result (λ next. (lines : List (List ℕ)) →
        IsReadBefore lines number placed.old.items (progress.Inside block)
        → IsLineAt lines number line.End → IsReadBefore lines (number + 1) placed.new.items next) }
    ensures bad_line { (k : ℕ) → IsErrOf result (ScriptError.BadLine k) → (lines : List (List ℕ))
        → IsReadBefore lines number placed.old.items (progress.Inside block) →
        IsLineAt lines number line.End → IsLeastBadLine lines k }
{
    if block.searches.is_empty() {
        return Err(ScriptError::BadLine { line: number });
    }
    placed.push(Placed {
        line: block.line,
        statement: Statement::Together {
            searches: SearchList::new(block.searches),
        },
    })?;
    Ok(Progress::Outside)
}

// What a search inside a block does.
fn add_search(
    mut block: Block,
    number: u32,
    query: Query,
    filter: Filter,
) -> Result<Progress, ScriptError>
    ensures read { IfOk result (λ next. (lines : List (List ℕ)) (placed : List Placed) →
        IsReadBefore lines number placed (progress.Inside block)
        → IsLineAt lines number (line.Statement (statement.Search query filter)) →
        IsReadBefore lines (number + 1) placed next) }
    ensures bad_line { (k : ℕ) → ¬ IsErrOf result (ScriptError.BadLine k) }
{
    if block.searches.len() >= MAX_SEARCHES {
        return Ok(block.broken(number));
    }
    block.searches.push(PlacedSearch {
        line: number,
        query,
        filter,
    })?;
    Ok(Progress::Inside(block))
}

// What a line behind a bad one in a block does.
fn read_broken(begun: u32, bad: u32, line: Line) -> Result<Progress, ScriptError>
    ensures read { IfOk result (λ next. (lines : List (List ℕ)) (placed : List Placed)
        (number : ℕ) → IsReadBefore lines number placed (progress.Broken begun bad)
        → IsLineAt lines number line → IsReadBefore lines (number + 1) placed next) }
    ensures bad_line { (k : ℕ) → IsErrOf result (ScriptError.BadLine k) →
        (lines : List (List ℕ)) (placed : List Placed) (number : ℕ)
        → IsReadBefore lines number placed (progress.Broken begun bad) →
        IsLineAt lines number line → IsLeastBadLine lines k }
{
    match line {
        Line::End => Err(ScriptError::BadLine { line: bad }),
        _ => Ok(Progress::Broken { begun, bad }),
    }
}
