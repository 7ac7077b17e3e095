// A whole audit.
ghost use Rattle.std.specs.Prelude.{
  ◌≡◌,
  ◌≤◌,
  ◌⊎◌,
  ℕ,
  IfOk,
  IsErrOf,
  List,
  Some,
  length,
  map,
  string_bytes,
};
ghost use Rattle.kb_edges.specs.Faults.{Rose};
ghost use Rattle.kb_edges.specs.Files.{File, HasFile, content_of};
ghost use Rattle.kb_edges.specs.Told.{IfTold};
ghost use Rattle.query_script.specs.declared.command_words.Words.{Words};
ghost use Rattle.serial_run.specs.Script.{IsScript};
ghost use Rattle.run_audit.specs.AuditWords.{AreAuditWords, record_name, rules_of};
ghost use Rattle.run_audit.specs.Audited.{
  WritesLine,
  WritesLinePrefix,
  WritesVerdict,
  WritesVerdictPrefix,
};
ghost use Rattle.run_audit.specs.Causes.{HasAuditCause, IsEarly};
ghost use Rattle.run_audit.specs.Texts.{verdict_text};
ghost use Rattle.run_audit.specs.Verdict.{IsVerdict};
ghost use Rattle.run_audit.specs.declared.auditing.NoVerdict.TheVariants as none;
ghost use Rattle.run_audit.specs.declared.status.AuditStatus.{AuditStatus};

use crate::path_words::read_audit_words;
use crate::status::AuditStatus;
use crate::stop::Stop;
use crate::verdict::Verdict;
use crate::whole::audit_statements;
use hit_collectors::Collector;
use kb_edges::{Folder, FolderError, MAX_LIMIT, Sink, Source};
use query_script::{Placed, Words, WordsError};
use serial_run::{NoStatements, Stopped, read_statements};
use std::alloc::Global;
use std::thread::Threads;

// The name of the file that is audited.
const RECORD: &str = "record";

/// Reads a script, and the file `record` of a folder, and writes whether that record is a lawful output of
/// the script over the folder: one line, `audit lawful`, `audit departs at K` or `audit too long`. How that
/// ended is told by the [`AuditStatus`]. It never waits; a search may be made by several threads, which end
/// before the next one begins.
///
/// The record is a lawful output where some run with these words could have written it, whatever its
/// threads did, and whichever of its imports weren't listed and of its files weren't read. Else K is the
/// first offset at which it departs from its guided output: the one lawful output by the course that the
/// record shows and by the numbers that it has where they are printed, as far as they may be named there.
/// A record of more than 268,435,456 bytes is too long.
///
/// The boxes are those that the run had when it began. The words are the path of the record in the folder,
/// not empty and without a hyphen in front, and then those of the run. The folder is asked for nothing that
/// the record shows as unlisted or unread, and the first call of it that fails ends the audit with
/// [`AuditStatus::FolderUnread`]. It is handed back.
pub fn audit<R: Threads + Sync, F: Folder, S: Source, K: Sink>(
    rt: &R,
    alloc: Global,
    words: &[String],
    folder: F,
    script: &mut S,
    out: &mut K,
    boards: Vec<Box<dyn Collector>>,
) -> (AuditStatus, F)
    // Why it ended so: by its words, then by the script and its grammar, then by the folder and the sink.
    ensures causes { HasAuditCause (map string_bytes words.now) result.0
        (record {
          left = S.left script.old;
          left_now = S.left script.new;
          source_faults = S.faults script.old;
          source_faults_now = S.faults script.new;
          written = K.written out.old;
          written_now = K.written out.new;
          sink_faults = K.faults out.old;
          sink_faults_now = K.faults out.new;
        })
        (record {
          files = F.files folder;
          faults = F.faults folder;
          faults_now = F.faults result.1;
        }) }

    // Where the words aren't lawful, nothing is read, written or asked. Before the script was read the
    // folder isn't asked, where the audit didn't end for want of memory.
    ensures nothing_read { ((path : List ℕ) (read : Words) →
        ¬ AreAuditWords (map string_bytes words.now) path read) → script.new ≡ script.old }
    ensures nothing_done { ((path : List ℕ) (read : Words) →
        ¬ AreAuditWords (map string_bytes words.now) path read) →
        (K.written out.new ≡ K.written out.old) × (result.1 ≡ folder) }
    ensures nothing_asked { IsEarly result.0 → result.1 ≡ folder }

    // What was written, where the source, the folder and the sink tell their contents.
    ensures done { (bytes : List ℕ) (files : List File) (before : List ℕ) →
        S.left script.old ≡ Some bytes → F.files folder ≡ Some files →
        K.written out.old ≡ Some before →
        result.0 ≡ AuditStatus.Done →
        WritesVerdict (map string_bytes words.now) (map (λ b. tally b) boards.items) bytes files
        before (K.written out.new) }
    ensures stopped { (bytes : List ℕ) (files : List File) (before : List ℕ) →
        S.left script.old ≡ Some bytes → F.files folder ≡ Some files →
        K.written out.old ≡ Some before →
        result.0 ≡ AuditStatus.SinkFault →
        WritesVerdictPrefix (map string_bytes words.now) (map (λ b. tally b) boards.items) bytes
        files before (K.written out.new) }
    ensures no_memory { (bytes : List ℕ) (files : List File) (before : List ℕ) →
        S.left script.old ≡ Some bytes → F.files folder ≡ Some files →
        K.written out.old ≡ Some before →
        result.0 ≡ AuditStatus.NoMemory → (K.written out.new ≡ Some before)
        ⊎ WritesVerdictPrefix (map string_bytes words.now) (map (λ b. tally b) boards.items)
        bytes files before (K.written out.new) }

    // Whatever source and folder tell, one line is written.
    ensures one_line { (before : List ℕ) → K.written out.old ≡ Some before →
        result.0 ≡ AuditStatus.Done → WritesLine before (K.written out.new) }
    ensures part_of_a_line { (before : List ℕ) → K.written out.old ≡ Some before →
        (result.0 ≡ AuditStatus.SinkFault) ⊎ (result.0 ≡ AuditStatus.NoMemory) →
        WritesLinePrefix before (K.written out.new) }

    // The folder's files stay, and its count of faults doesn't fall.
    ensures same { F.files result.1 ≡ F.files folder }
    ensures later { F.faults folder ≤ F.faults result.1 }
{
    let (path, said) = match read_audit_words(alloc, words) {
        Ok(said) => said,
        Err(WordsError::BadWords) => return (AuditStatus::BadWords, folder),
        Err(WordsError::NoMemory) => return (AuditStatus::NoMemory, folder),
    };
    let placed = match read_statements(alloc, script) {
        Ok(placed) => placed,
        Err(NoStatements::Unread) => return (AuditStatus::ScriptUnread, folder),
        Err(NoStatements::BadLine { line }) => return (AuditStatus::BadScript { line }, folder),
        Err(NoStatements::NoMemory) => return (AuditStatus::NoMemory, folder),
    };
    let mut folder = folder;
    let verdict = match verdict_of(rt, alloc, path, said, boards, &placed, &mut folder) {
        Ok(verdict) => verdict,
        Err(NoVerdict::FolderUnread) => return (AuditStatus::FolderUnread, folder),
        Err(NoVerdict::NoMemory) => return (AuditStatus::NoMemory, folder),
    };
    match verdict.write(alloc, out) {
        Ok(()) => (AuditStatus::Done, folder),
        Err(Stopped::SinkFault) => (AuditStatus::SinkFault, folder),
        Err(Stopped::NoMemory) => (AuditStatus::NoMemory, folder),
    }
}

// Why nothing is said of a record.
enum NoVerdict {
    // A call of the folder failed, or it has no record under the path.
    FolderUnread,
    // Want of memory.
    NoMemory,
}

// What is said of the record under a path for these statements, by the words of the run and with the boxes
// that it had when it began.
fn verdict_of<R: Threads + Sync, F: Folder, C: Collector>(
    rt: &R,
    alloc: Global,
    path: &str,
    said: Words,
    boxes: Vec<C>,
    placed: &[Placed],
    folder: &mut F,
) -> Result<Verdict, NoVerdict>
    requires some { 1 ≤ said.batch }
    requires few { length placed.now ≤ 1048576 }
    ensures told { IfTold (F.files folder.old) (λ files. IfOk result (λ verdict.
        (script : List ℕ) → IsScript script placed.now → (recorded : List ℕ)
        × (content_of files path.now record_name ≡ Some recorded)
        × IsVerdict files (rules_of said) (map (λ b. C.tally b) boxes.items) placed.now recorded
        (verdict_text verdict))) }
    ensures unread { IsErrOf result none.FolderUnread → Rose (F.faults folder.old) (F.faults folder.new)
        ⊎ ((files : List File) × (F.files folder.old ≡ Some files)
        × (¬ HasFile files path.now record_name)) }
    ensures same { F.files folder.new ≡ F.files folder.old }
    ensures later { F.faults folder.old ≤ F.faults folder.new }
{
    let recorded = match folder.read(alloc, path, RECORD, MAX_LIMIT) {
        Ok(recorded) => recorded,
        Err(FolderError::Failed) => return Err(NoVerdict::FolderUnread),
        Err(FolderError::Missing) => return Err(NoVerdict::FolderUnread),
        Err(FolderError::NoMemory) => return Err(NoVerdict::NoMemory),
    };
    if recorded.len() > MAX_LIMIT {
        return Ok(Verdict::TooLong);
    }
    match audit_statements(rt, alloc, said, boxes, placed, folder, &recorded) {
        Ok(()) => Ok(Verdict::Lawful),
        Err(Stop::Departs { left }) => Ok(Verdict::Departs {
            at: recorded.len() - left,
        }),
        Err(Stop::FolderUnread) => Err(NoVerdict::FolderUnread),
        Err(Stop::NoMemory) => Err(NoVerdict::NoMemory),
    }
}
