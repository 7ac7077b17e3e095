// Statements that begin an import.
ghost use Rattle.std.specs.Prelude.{◌≡◌, ◌++◌, IfNone, IfOk, IfSome, OnErr, OnOk};
ghost use Rattle.session_core.specs.ImportTexts.{import_line_text};
ghost use Rattle.session_core.specs.Sources.{IsNoImport, statement_of};

use import_work::Source;
use kb_geometry::{NoMemory, Text};
use query_script::{Statement, print_import, print_make};
use std::alloc::Global;

/// The source of the import that a statement begins, if it begins one. The only error is `NoMemory`.
pub fn source_of(alloc: Global, statement: &Statement) -> Result<Option<Source>, NoMemory>
    ensures some { IfOk result (λ found. IfSome found
        (λ source. statement.now ≡ statement_of source)) }
    ensures none { IfOk result (λ found. IfNone found (IsNoImport statement.now)) }
{
    match statement {
        Statement::Import { path } => {
            let path = Text::new(String::from_str(alloc, path.as_str())?);
            Ok(Some(Source::Under { path }))
        }
        Statement::Make { games, start } => Ok(Some(Source::Made {
            games: *games,
            start: *start,
        })),
        _ => Ok(None),
    }
}

/// Appends the text of a statement that begins an import from a source. The only error is
/// `NoMemory`; then `out` holds what it held.
pub fn print_import_line(line: u32, source: &Source, out: &mut Vec<u8>) -> Result<(), NoMemory>
    ensures ok { OnOk result (out.new.items ≡ out.old.items ++ import_line_text line source.now) }
    ensures refused { OnErr result (out.new.items ≡ out.old.items) }
{
    match source {
        Source::Under { path } => print_import(line, path.as_str(), out),
        Source::Made { games, start } => print_make(line, *games, *start, out),
    }
}
