// Which task the words of a command line ask for.
ghost use Rattle.std.specs.Prelude.{◌≡◌, ◌↔◌, map, string_bytes};
ghost use Rattle.run_audit.specs.AuditWords.{AsksForAudit};

use crate::tasks::Task;

/// The task that these words, without the program's name, ask for: an audit exactly where the first one
/// is `audit`. It takes no memory.
pub fn task(words: &[String]) -> Task
    ensures { (result ≡ Task.Audit) ↔ AsksForAudit (map string_bytes words.now) }
{
    match words.first() {
        Some(word) if word.as_str() == "audit" => Task::Audit,
        _ => Task::Run,
    }
}
