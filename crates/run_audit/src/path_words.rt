// The words of an audit.
ghost use Rattle.std.specs.Prelude.{◌≡◌, ℕ, List, Err, IfOk, false, map, string_bytes, true};
ghost use Rattle.query_script.specs.declared.command_words.Words.{Words};
ghost use Rattle.query_script.specs.declared.command_words.WordsError.TheVariants.{BadWords};
ghost use Rattle.run_audit.specs.AuditWords.{AreAuditWords, IsRecordPath};

use query_script::{Words, WordsError, read_words};
use std::alloc::Global;

// Reads the words of an audit: the path of the record, and then the words of the run that made it, which
// say what is answered.
pub(crate) fn read_audit_words<'a>(
    alloc: Global,
    words: &'a [String],
) -> Result<(&'a str, Words), WordsError>
    ensures read { IfOk result (λ said.
        AreAuditWords (map string_bytes words.now) said.0.now said.1) }
    ensures bad { result ≡ Err BadWords → (path : List ℕ) (read : Words) →
        ¬ AreAuditWords (map string_bytes words.now) path read }
{
    let [path, others @ ..] = words else {
        return Err(WordsError::BadWords);
    };
    if !is_record_path(path.as_str()) {
        return Err(WordsError::BadWords);
    }
    match read_words(alloc, others) {
        Ok(said) => Ok((path.as_str(), said)),
        Err(error) => Err(error),
    }
}

// Whether a word is the path of a record: it isn't empty, and no hyphen stands in front.
fn is_record_path(word: &str) -> bool
    ensures some { result ≡ true → IsRecordPath word.now }
    ensures none { result ≡ false → ¬ IsRecordPath word.now }
{
    match word.as_bytes() {
        [] => false,
        [first, ..] => *first != b'-',
    }
}
