// What stands in a text before the number of the version that it names.
ghost use Rattle.std.specs.Prelude.{◌≡◌, ◌++◌, ℕ, IfOk, List, OnOk, Some, false, true};
ghost use Rattle.std.specs.Fmt.{decimal};
ghost use Rattle.run_audit.specs.Asked.{HasNoNumber, HasNumber};
ghost use Rattle.run_audit.specs.Guided.{asked_by, version_head};

use hit_collectors::Collector;
use kb_geometry::{NoMemory, append, append_decimal};
use query_script::{Placed, Statement};
use session_core::Session;
use std::alloc::Global;

// Whether the text of a statement names a version behind what it asks. The text of a wait names the last
// version alone, and that of a block stands for its searches.
pub(crate) fn names_version<C: Collector>(session: &Session<C>, statement: &Statement) -> bool
    ensures some { result ≡ true → HasNumber session.now statement.now }
    ensures none { result ≡ false → HasNoNumber session.now statement.now }
{
    match statement {
        Statement::Watch { name, .. } => !session.is_watched(name.as_str()),
        Statement::Watched { name } => session.is_watched(name.as_str()),
        Statement::Search { .. }
        | Statement::Kept { .. }
        | Statement::Signature { .. }
        | Statement::Players
        | Statement::Doubles
        | Statement::Game { .. }
        | Statement::Opening { .. }
        | Statement::Until { .. } => true,
        Statement::Import { .. }
        | Statement::Make { .. }
        | Statement::Wait
        | Statement::Together { .. }
        | Statement::Report
        | Statement::Retire { .. } => false,
    }
}

// `LINE ASKED version `, for a statement whose text names a version behind what it asks.
pub(crate) fn statement_head(alloc: Global, placed: &Placed) -> Result<Vec<u8>, NoMemory>
    ensures { IfOk result (λ head. (asked : List ℕ) → asked_by placed.now.statement ≡ Some asked →
        head.items ≡ version_head placed.now.line asked) }
{
    let mut asked = Vec::new(alloc);
    append_asked(&placed.statement, &mut asked)?;
    version_head(alloc, placed.line, &asked)
}

// `LINE ASKED version `.
pub(crate) fn version_head(alloc: Global, line: u32, asked: &[u8]) -> Result<Vec<u8>, NoMemory>
    ensures { IfOk result (λ head. head.items ≡ version_head line asked.now) }
{
    let mut head = Vec::new(alloc);
    append_decimal(&mut head, u64::from(line))?;
    append(&mut head, b" ")?;
    append(&mut head, asked)?;
    append(&mut head, b" version ")?;
    Ok(head)
}

// Appends what a statement asks whose text names a version behind that.
fn append_asked(statement: &Statement, out: &mut Vec<u8>) -> Result<(), NoMemory>
    ensures { OnOk result ((asked : List ℕ) → asked_by statement.now ≡ Some asked →
        out.new.items ≡ out.old.items ++ asked) }
{
    match statement {
        Statement::Search { .. } => append(out, b"search"),
        Statement::Kept { .. } => append(out, b"kept"),
        Statement::Signature { .. } => append(out, b"signature"),
        Statement::Players => append(out, b"players"),
        Statement::Doubles => append(out, b"doubles"),
        Statement::Opening { .. } => append(out, b"opening"),
        Statement::Game { number } => append_numbered(out, b"game ", u64::from(*number)),
        Statement::Until { number } => append_numbered(out, b"until ", *number),
        Statement::Watch { name, .. } => append_both(out, b"watch ", name.as_str().as_bytes()),
        Statement::Watched { name } => append_both(out, b"watched ", name.as_str().as_bytes()),
        // These name no version.
        _ => Ok(()),
    }
}

// Appends words and a number behind them.
fn append_numbered(out: &mut Vec<u8>, words: &[u8], number: u64) -> Result<(), NoMemory>
    ensures { OnOk result (out.new.items ≡ out.old.items ++ (words.now ++ decimal number)) }
{
    append(out, words)?;
    append_decimal(out, number)
}

// Appends words and a name behind them.
fn append_both(out: &mut Vec<u8>, words: &[u8], name: &[u8]) -> Result<(), NoMemory>
    ensures { OnOk result (out.new.items ≡ out.old.items ++ (words.now ++ name.now)) }
{
    append(out, words)?;
    append(out, name)
}
