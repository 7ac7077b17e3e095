// A whole run, one statement after another.
ghost use Rattle.std.specs.Prelude.{◌≡◌, ◌≤◌, ◌⊎◌, ℕ, List, Some, map, string_bytes};
ghost use Rattle.kb_edges.specs.Faults.{Rose};
ghost use Rattle.kb_edges.specs.Files.{File};
ghost use Rattle.query_script.specs.CommandWords.{AreLawful};
ghost use Rattle.query_script.specs.declared.command_words.Words.{Words};
ghost use Rattle.serial_run.specs.Causes.{HasCause, IsEarly};
ghost use Rattle.serial_run.specs.Serial.{Prints, PrintsAll, PrintsPrefix};
ghost use Rattle.serial_run.specs.declared.status.Status.{Status};

use crate::script::{NoStatements, read_statements};
use crate::statements::run_statements;
use crate::status::Status;
use hit_collectors::Collector;
use kb_edges::{Folder, Sink, Source};
use query_script::{WordsError, read_words};
use std::alloc::Global;
use std::thread::Threads;

/// Reads a script, imports its folders, and writes its answers, one statement after another. How
/// that ended is told by the [`Status`]. A statement may be answered by several threads; they end
/// before its text is written.
///
/// The boxes tally the hits of the searches, in order of the script; `report` prints what they tell,
/// and `retire` drops the first one of a name.
///
/// The words are those of the command line without the program's name: `--batch N`, by which the
/// files of an import come into the base N at a time, and `--serial`, which changes nothing here. A
/// run of lawful words never ends with [`Status::BadWords`]. The folder is handed back.
pub fn run_serial<R: Threads + Sync, F: Folder, S: Source, K: Sink>(
    rt: &R,
    alloc: Global,
    words: &[String],
    folder: F,
    script: &mut S,
    out: &mut K,
    boards: Vec<Box<dyn Collector>>,
) -> (Status, F)
    // Why it ended so: by its words, then by the script and its grammar, then amid its statements.
    ensures causes { HasCause (map string_bytes words.now) result.0 (record {
      left = S.left script.old;
      left_now = S.left script.new;
      source_faults = S.faults script.old;
      source_faults_now = S.faults script.new;
      written = K.written out.old;
      written_now = K.written out.new;
      sink_faults = K.faults out.old;
      sink_faults_now = K.faults out.new;
    }) }

    // Where the words aren't lawful, nothing is read, written or asked. Before the first statement the
    // folder isn't asked, where the run didn't end for want of memory.
    ensures nothing_read { ((read : Words) → ¬ AreLawful (map string_bytes words.now) read) →
        script.new ≡ script.old }
    ensures nothing_done { ((read : Words) → ¬ AreLawful (map string_bytes words.now) read) →
        (K.written out.new ≡ K.written out.old) × (result.1 ≡ folder) }
    ensures nothing_asked { IsEarly result.0 → result.1 ≡ folder }

    // What was written, where the source, the folder and the sink tell their contents.
    ensures done { (bytes : List ℕ) (files : List File) (before : List ℕ) →
        S.left script.old ≡ Some bytes → F.files folder ≡ Some files →
        K.written out.old ≡ Some before →
        result.0 ≡ Status.Done →
        Prints (map string_bytes words.now) (map (λ b. tally b) boards.items) bytes files
        before (K.written out.new) (F.faults folder) (F.faults result.1) }
    ensures stopped { (bytes : List ℕ) (files : List File) (before : List ℕ) →
        S.left script.old ≡ Some bytes → F.files folder ≡ Some files →
        K.written out.old ≡ Some before →
        result.0 ≡ Status.SinkFault →
        PrintsPrefix (map string_bytes words.now) (map (λ b. tally b) boards.items) bytes
        files before (K.written out.new) (F.faults folder) (F.faults result.1) }
    ensures no_memory { (bytes : List ℕ) (files : List File) (before : List ℕ) →
        S.left script.old ≡ Some bytes → F.files folder ≡ Some files →
        K.written out.old ≡ Some before →
        result.0 ≡ Status.NoMemory → (K.written out.new ≡ Some before) × (result.1 ≡ folder)
        ⊎ PrintsPrefix (map string_bytes words.now) (map (λ b. tally b) boards.items)
        bytes files before (K.written out.new) (F.faults folder) (F.faults result.1) }

    // Where the folder doesn't fail, nothing is lost.
    ensures no_loss { (bytes : List ℕ) (files : List File) (before : List ℕ) →
        S.left script.old ≡ Some bytes → F.files folder ≡ Some files →
        K.written out.old ≡ Some before →
        result.0 ≡ Status.Done → ¬ Rose (F.faults folder) (F.faults result.1) →
        PrintsAll (map string_bytes words.now) (map (λ b. tally b) boards.items) bytes files
        before (K.written out.new) }

    // The folder's files stay, and its count of faults doesn't fall.
    ensures same { F.files result.1 ≡ F.files folder }
    ensures later { F.faults folder ≤ F.faults result.1 }
{
    let said = match read_words(alloc, words) {
        Ok(said) => said,
        Err(WordsError::BadWords) => return (Status::BadWords, folder),
        Err(WordsError::NoMemory) => return (Status::NoMemory, folder),
    };
    let placed = match read_statements(alloc, script) {
        Ok(placed) => placed,
        Err(NoStatements::Unread) => return (Status::ScriptUnread, folder),
        Err(NoStatements::BadLine { line }) => return (Status::BadScript { line }, folder),
        Err(NoStatements::NoMemory) => return (Status::NoMemory, folder),
    };
    let mut folder = folder;
    match run_statements(rt, alloc, said.batch, boards, &placed, &mut folder, out) {
        Ok(()) => (Status::Done, folder),
        Err(stopped) => (Status::from(stopped), folder),
    }
}
