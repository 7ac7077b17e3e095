// Scripts, and the canonical texts of their statements.
use case_files::{Case, CaseError};
use game_tree::Bytes;
use info_filter::{Condition, Filter};
use kb_geometry::{Outcome, Rect, Shape, append};
use pattern_images::Query;
use pattern_syntax::print_pattern;
use query_script::{MAX_SCRIPT, Placed, PlacedSearch, ScriptError, Statement, read_script};
use std::alloc::Global;

/// Appends the statement of a script of one line.
pub fn answer_line(alloc: Global, case: &Case<'_>, out: &mut Vec<u8>) -> Result<(), CaseError> {
    match read_checked(alloc, case.text()) {
        Ok(placed) => append_only(alloc, placed.as_slice(), out),
        Err(ScriptError::BadLine { line: 1 }) => Ok(append(out, b"no statement\n")?),
        Err(ScriptError::BadLine { .. }) => Err(CaseError::Bad("more than one line")),
        Err(ScriptError::NoMemory) => Err(CaseError::NoMemory),
    }
}

/// Appends the statements of a script with their lines, or its least bad line.
pub fn answer_script(alloc: Global, case: &Case<'_>, out: &mut Vec<u8>) -> Result<(), CaseError> {
    match read_checked(alloc, case.text()) {
        Ok(placed) => append_all(alloc, placed.as_slice(), out),
        Err(ScriptError::BadLine { line }) => {
            let told = format!(in alloc; "bad line {line}\n")?;
            Ok(append(out, told.as_bytes())?)
        }
        Err(ScriptError::NoMemory) => Err(CaseError::NoMemory),
    }
}

// What is read of a script. One that is too long has line 0 bad.
fn read_checked(alloc: Global, text: &[u8]) -> Result<Vec<Placed>, ScriptError> {
    if text.len() > MAX_SCRIPT {
        return Err(ScriptError::BadLine { line: 0 });
    }
    read_script(alloc, text)
}

fn append_only(alloc: Global, placed: &[Placed], out: &mut Vec<u8>) -> Result<(), CaseError> {
    match placed {
        [] => append(out, b"skipped")?,
        [one] => append_statement(alloc, &one.statement, out)?,
        _ => return Err(CaseError::Bad("more than one line")),
    }
    Ok(append(out, b"\n")?)
}

fn append_all(alloc: Global, placed: &[Placed], out: &mut Vec<u8>) -> Result<(), CaseError> {
    for one in placed {
        let line = one.line;
        append(out, format!(in alloc; "{line} ")?.as_bytes())?;
        append_statement(alloc, &one.statement, out)?;
        append(out, b"\n")?;
    }
    Ok(())
}

fn append_statement(
    alloc: Global,
    statement: &Statement,
    out: &mut Vec<u8>,
) -> Result<(), CaseError> {
    match statement {
        Statement::Import { path } => append_named(alloc, "import", path.as_str(), out),
        Statement::Make { games, start } => {
            let told = format!(in alloc; "make {games} {start}")?;
            Ok(append(out, told.as_bytes())?)
        }
        Statement::Until { number } => {
            let told = format!(in alloc; "until {number}")?;
            Ok(append(out, told.as_bytes())?)
        }
        Statement::Game { number } => {
            let told = format!(in alloc; "game {number}")?;
            Ok(append(out, told.as_bytes())?)
        }
        Statement::Search { query, filter } => append_search(alloc, query, filter, out),
        Statement::Together { searches } => append_block(alloc, searches.as_slice(), out),
        Statement::Kept { query } => append_query(alloc, "kept", query, out),
        Statement::Signature { pattern } => {
            append(out, b"signature ")?;
            Ok(append(out, &pattern.bytes)?)
        }
        Statement::Opening {
            shape,
            depth,
            least,
        } => append_opening(alloc, *shape, *depth, *least, out),
        Statement::Retire { name } => append_named(alloc, "retire", name.as_str(), out),
        Statement::Watch {
            name,
            query,
            filter,
        } => {
            append_named(alloc, "watch", name.as_str(), out)?;
            append(out, b" ")?;
            append_search(alloc, query, filter, out)
        }
        Statement::Watched { name } => append_named(alloc, "watched", name.as_str(), out),
        Statement::Wait => Ok(append(out, b"wait")?),
        Statement::Players => Ok(append(out, b"players")?),
        Statement::Doubles => Ok(append(out, b"doubles")?),
        Statement::Report => Ok(append(out, b"report")?),
    }
}

fn append_opening(
    alloc: Global,
    shape: Shape,
    depth: u32,
    least: u32,
    out: &mut Vec<u8>,
) -> Result<(), CaseError> {
    let (cols, rows) = (shape.cols(), shape.rows());
    let told = format!(in alloc; "opening {cols} {rows} {depth} {least}")?;
    Ok(append(out, told.as_bytes())?)
}

fn append_named(alloc: Global, name: &str, text: &str, out: &mut Vec<u8>) -> Result<(), CaseError> {
    let told = format!(in alloc; "{name} <{text}>")?;
    Ok(append(out, told.as_bytes())?)
}

// Appends a block: a line for each search, with its line's number.
fn append_block(
    alloc: Global,
    searches: &[PlacedSearch],
    out: &mut Vec<u8>,
) -> Result<(), CaseError> {
    append(out, b"together")?;
    for search in searches {
        let line = search.line;
        append(out, format!(in alloc; "\n  {line} ")?.as_bytes())?;
        append_search(alloc, &search.query, &search.filter, out)?;
    }
    Ok(())
}

fn append_search(
    alloc: Global,
    query: &Query,
    filter: &Filter,
    out: &mut Vec<u8>,
) -> Result<(), CaseError> {
    append_query(alloc, "search", query, out)?;
    let mut joining = "where";
    for condition in filter.conditions.as_slice() {
        append_condition(alloc, joining, condition, out)?;
        joining = "and";
    }
    Ok(())
}

// Appends the name of a statement, its options that are given, its moves and its pattern.
fn append_query(
    alloc: Global,
    name: &str,
    query: &Query,
    out: &mut Vec<u8>,
) -> Result<(), CaseError> {
    append(out, name.as_bytes())?;
    append_flags(query, out)?;
    if let Some(board) = query.board {
        append_board(alloc, board, out)?;
    }
    let (from, to) = (query.from_move, query.to_move);
    append(out, format!(in alloc; " moves {from} {to}")?.as_bytes())?;
    if let Some(at) = query.at {
        append_at(alloc, at, out)?;
    }
    append(out, b" ")?;
    Ok(print_pattern(&query.pattern, out)?)
}

fn append_flags(query: &Query, out: &mut Vec<u8>) -> Result<(), CaseError> {
    if query.same {
        append(out, b" same")?;
    }
    if query.fixed {
        append(out, b" fixed")?;
    }
    if query.main {
        append(out, b" main")?;
    }
    Ok(())
}

fn append_board(alloc: Global, board: Shape, out: &mut Vec<u8>) -> Result<(), CaseError> {
    let (cols, rows) = (board.cols(), board.rows());
    let told = format!(in alloc; " board {cols} {rows}")?;
    Ok(append(out, told.as_bytes())?)
}

fn append_at(alloc: Global, at: Rect, out: &mut Vec<u8>) -> Result<(), CaseError> {
    let Rect { x0, y0, x1, y1 } = at;
    let told = format!(in alloc; " at {x0} {y0} to {x1} {y1}")?;
    Ok(append(out, told.as_bytes())?)
}

fn append_condition(
    alloc: Global,
    joining: &str,
    condition: &Condition,
    out: &mut Vec<u8>,
) -> Result<(), CaseError> {
    append(out, format!(in alloc; " {joining} ")?.as_bytes())?;
    match condition {
        Condition::Player(text) => append_asked(b"player", text, out),
        Condition::Black(text) => append_asked(b"black", text, out),
        Condition::White(text) => append_asked(b"white", text, out),
        Condition::Event(text) => append_asked(b"event", text, out),
        Condition::Place(text) => append_asked(b"place", text, out),
        Condition::Result(outcome) => {
            append(out, b"result ")?;
            Ok(append(out, outcome_word(*outcome).as_bytes())?)
        }
        Condition::From(day) => append_day(alloc, "from", *day, out),
        Condition::To(day) => append_day(alloc, "to", *day, out),
    }
}

fn append_asked(kind: &[u8], text: &Bytes, out: &mut Vec<u8>) -> Result<(), CaseError> {
    append(out, kind)?;
    append(out, b" <")?;
    append(out, text.as_slice())?;
    Ok(append(out, b">")?)
}

fn append_day(alloc: Global, kind: &str, day: i32, out: &mut Vec<u8>) -> Result<(), CaseError> {
    let told = format!(in alloc; "{kind} day {day}")?;
    Ok(append(out, told.as_bytes())?)
}

fn outcome_word(outcome: Outcome) -> &'static str {
    match outcome {
        Outcome::Black => "black",
        Outcome::White => "white",
        Outcome::Draw => "draw",
        Outcome::Void => "void",
        Outcome::Unknown => "unknown",
        Outcome::Other => "other",
    }
}
