// The top call, whose imports go on beside the statements.
ghost use Rattle.std.specs.Prelude.{
  ◌≡◌,
  ◌≤◌,
  ◌⊎◌,
  ℕ,
  List,
  None,
  Some,
  IsErrOf,
  OnErr,
  OnOk,
  false,
  length,
  map,
  string_bytes,
  true,
};
ghost use Rattle.kb_edges.specs.Faults.{Rose};
ghost use Rattle.kb_edges.specs.Files.{File};
ghost use Rattle.kb_edges.specs.Told.{IfTold};
ghost use Rattle.node_position.specs.Games.{Game};
ghost use Rattle.query_script.specs.CommandWords.{AreLawful};
ghost use Rattle.query_script.specs.declared.command_words.Words.{Words};
ghost use Rattle.version_publisher.specs.declared.state.PublisherState.{PublisherState};
ghost use Rattle.search_run.specs.Bases.{BaseState, IsNewBase};
ghost use Rattle.search_run.specs.Run.{PrintsPublished, WritesPublished, beside_rules};
ghost use Rattle.search_run.specs.Stopped.{PrintsStopped, WritesPublishedPrefix};
ghost use Rattle.serial_run.specs.Causes.{HasCause, IsEarly};
ghost use Rattle.serial_run.specs.Run.{WritesLawful, WritesPrefix, serial_rules};
ghost use Rattle.serial_run.specs.Serial.{Prints, PrintsPrefix};
ghost use Rattle.serial_run.specs.declared.status.Status.{Status};

use crate::base::Base;
use crate::importer::ImporterState;
use crate::owned_publisher::OwnedPublisher;
use crate::run_beside::run_beside;
use hit_collectors::Collector;
use kb_edges::{Folder, Gate, Sink, Source};
use query_script::{Placed, Words, WordsError, lawful_words_say_one_thing, read_words};
use segment_store::Segment;
use serial_run::{NoStatements, Status, Stopped, read_statements, run_serial, run_statements};
use std::alloc::Global;
use std::marker::Brand;
use std::sync::Wait;
use std::thread::Threads;
use version_publisher::{Publisher, Searcher};

/// Reads a script, imports its folders, and writes its answers. How that ended is told by the
/// [`Status`].
///
/// An import goes on in a thread of its own, batch by batch, and the statements behind it are
/// answered meanwhile, each from a version that was published: it holds all that was named before,
/// and whatever it is, its answer is that of this version. The next import, a `wait` and the end of
/// the script join the import that is under way, and so does an `until` of a version that doesn't
/// come. The gate is asked before each version is published. It may wait.
///
/// The words are those of the command line without the program's name: `--batch N`, by which the
/// files of an import come into the base N at a time, and `--serial`, by which each statement is done
/// before the next begins. Without a base this is [`run_serial`]. The boxes are those of
/// [`run_serial`]. The folder is handed back, and so is the publisher of the base: with
/// [`Status::Done`], and without `--serial`, its log has the segments of all imports, nothing is
/// pending, and the last part has fewer games than the one before it, where there are two. With
/// [`Status::SinkFault`] and [`Status::NoMemory`] its log is a prefix of that.
pub fn run<
    R: Threads + Wait + Clone + Drop + Send + Sync + 'static,
    F: Folder + Send + 'static,
    S: Source,
    K: Sink,
    G: Gate + Send + 'static,
>(
    rt: &R,
    alloc: Global,
    words: &[String],
    folder: F,
    script: &mut S,
    out: &mut K,
    gate: G,
    boards: Vec<Box<dyn Collector>>,
    base: Option<Base>,
) -> (Status, F, Option<Publisher<Segment>>)
    // Why it ended so: by its words, then by the script and its grammar, then amid its statements.
    ensures causes { HasCause (map string_bytes words.now) result.0 (record {
      left = S.left script.old;
      left_now = S.left script.new;
      source_faults = S.faults script.old;
      source_faults_now = S.faults script.new;
      written = K.written out.old;
      written_now = K.written out.new;
      sink_faults = K.faults out.old;
      sink_faults_now = K.faults out.new;
    }) }

    // Where the words aren't lawful, nothing is read, written or asked. Before the first statement the
    // folder isn't asked, where the run didn't end for want of memory.
    ensures nothing_read { ((read : Words) → ¬ AreLawful (map string_bytes words.now) read) →
        script.new ≡ script.old }
    ensures nothing_done { ((read : Words) → ¬ AreLawful (map string_bytes words.now) read) →
        (K.written out.new ≡ K.written out.old) × (result.1 ≡ folder) }
    ensures nothing_asked { IsEarly result.0 → result.1 ≡ folder }

    // What was written, where the source, the folder and the sink tell their contents; and with a
    // base what its publisher's log has.
    ensures done { (bytes : List ℕ) (files : List File) (before : List ℕ) →
        S.left script.old ≡ Some bytes → F.files folder ≡ Some files →
        K.written out.old ≡ Some before → base ≡ None →
        result.0 ≡ Status.Done →
        Prints (map string_bytes words.now) (map (λ b. tally b) boards.items) bytes files
        before (K.written out.new) (F.faults folder) (F.faults result.1) }
    ensures done_published { (bytes : List ℕ) (files : List File) (before : List ℕ) →
        S.left script.old ≡ Some bytes → F.files folder ≡ Some files →
        K.written out.old ≡ Some before → (given : BaseState) → base ≡ Some given →
        result.0 ≡ Status.Done → (back : PublisherState Game) × (result.2 ≡ Some back)
        × PrintsPublished (map string_bytes words.now) (map (λ b. tally b) boards.items)
        bytes files before (K.written out.new) (F.faults folder) (F.faults result.1)
        given.publisher back }

    // The same where the run stopped.
    ensures stopped { (bytes : List ℕ) (files : List File) (before : List ℕ) →
        S.left script.old ≡ Some bytes → F.files folder ≡ Some files →
        K.written out.old ≡ Some before → base ≡ None →
        result.0 ≡ Status.SinkFault →
        PrintsPrefix (map string_bytes words.now) (map (λ b. tally b) boards.items) bytes
        files before (K.written out.new) (F.faults folder) (F.faults result.1) }
    ensures no_memory { (bytes : List ℕ) (files : List File) (before : List ℕ) →
        S.left script.old ≡ Some bytes → F.files folder ≡ Some files →
        K.written out.old ≡ Some before → base ≡ None →
        result.0 ≡ Status.NoMemory → (K.written out.new ≡ Some before) × (result.1 ≡ folder)
        ⊎ PrintsPrefix (map string_bytes words.now) (map (λ b. tally b) boards.items)
        bytes files before (K.written out.new) (F.faults folder) (F.faults result.1) }
    ensures stopped_with_base { (bytes : List ℕ) (files : List File) (before : List ℕ) →
        S.left script.old ≡ Some bytes → F.files folder ≡ Some files →
        K.written out.old ≡ Some before → (given : BaseState) → base ≡ Some given →
        result.0 ≡ Status.SinkFault → (back : PublisherState Game) × (result.2 ≡ Some back)
        × PrintsStopped (map string_bytes words.now) (map (λ b. tally b) boards.items)
        bytes files before (K.written out.new) (F.faults folder) (F.faults result.1)
        given.publisher back }
    ensures no_memory_with_base { (bytes : List ℕ) (files : List File) (before : List ℕ) →
        S.left script.old ≡ Some bytes → F.files folder ≡ Some files →
        K.written out.old ≡ Some before → (given : BaseState) → base ≡ Some given →
        result.0 ≡ Status.NoMemory → (K.written out.new ≡ Some before) × (result.1 ≡ folder)
        × (result.2 ≡ Some given.publisher)
        ⊎ ((back : PublisherState Game) × (result.2 ≡ Some back)
        × PrintsStopped (map string_bytes words.now) (map (λ b. tally b) boards.items)
        bytes files before (K.written out.new) (F.faults folder) (F.faults result.1)
        given.publisher back) }

    // The publisher of a base comes back, and as it was where the run ended before the first
    // statement and not for want of memory, where the words aren't lawful, and with `--serial`.
    ensures without_base { base ≡ None → result.2 ≡ None }
    ensures given_back { (given : BaseState) → base ≡ Some given → (back : PublisherState Game)
        × (result.2 ≡ Some back) × (back.opening ≡ given.publisher.opening) }
    ensures as_it_was { (given : BaseState) → base ≡ Some given → IsEarly result.0 →
        result.2 ≡ Some given.publisher }
    ensures unlawful_back { ((read : Words) → ¬ AreLawful (map string_bytes words.now) read) →
        (given : BaseState) → base ≡ Some given → result.2 ≡ Some given.publisher }
    ensures serial_back { (read : Words) → AreLawful (map string_bytes words.now) read →
        read.serial ≡ true → (given : BaseState) → base ≡ Some given →
        result.2 ≡ Some given.publisher }

    // The folder's files stay, and its count of faults doesn't fall.
    ensures same { F.files result.1 ≡ F.files folder }
    ensures later { F.faults folder ≤ F.faults result.1 }
{
    let Some(base) = base else {
        let (status, folder) = run_serial(rt, alloc, words, folder, script, out, boards);
        return (status, folder, None);
    };
    let Base {
        publisher,
        searchers,
    } = base;
    let said = match read_words(alloc, words) {
        Ok(said) => said,
        Err(WordsError::BadWords) => return (Status::BadWords, folder, Some(publisher)),
        Err(WordsError::NoMemory) => return (Status::NoMemory, folder, Some(publisher)),
    };
    let placed = match read_statements(alloc, script) {
        Ok(placed) => placed,
        Err(NoStatements::Unread) => return (Status::ScriptUnread, folder, Some(publisher)),
        Err(NoStatements::BadLine { line }) => {
            return (Status::BadScript { line }, folder, Some(publisher));
        }
        Err(NoStatements::NoMemory) => return (Status::NoMemory, folder, Some(publisher)),
    };
    // Whatever the words were read as, they say this and nothing else.
    lawful_words_say_one_thing();
    let (ran, folder, publisher) = run_base(
        rt, alloc, said, &placed, folder, out, gate, boards, publisher, searchers,
    );
    match ran {
        Ok(()) => (Status::Done, folder, Some(publisher)),
        Err(stopped) => (Status::from(stopped), folder, Some(publisher)),
    }
}

// Runs statements with the publisher and the searchers of a base: one after another, or with imports
// that go on beside them, as the words say.
fn run_base<
    R: Threads + Wait + Clone + Drop + Send + Sync + 'static,
    F: Folder + Send + 'static,
    K: Sink,
    G: Gate + Send + 'static,
    C: Collector,
>(
    rt: &R,
    alloc: Global,
    said: Words,
    placed: &[Placed],
    folder: F,
    out: &mut K,
    gate: G,
    boxes: Vec<C>,
    publisher: Publisher<Segment>,
    searchers: Vec<Searcher<Segment>>,
) -> (Result<(), Stopped>, F, Publisher<Segment>)
    requires some { (1 ≤ said.batch) × (said.batch ≤ 4096) }
    requires few { length placed.now ≤ 1048576 }
    requires base { IsNewBase (record {
      publisher = publisher;
      searchers = searchers.items;
    }) }
    ensures one_by_one { IfTold (F.files folder) (λ files. IfTold (K.written out.old) (λ before.
        OnOk result.0 (said.serial ≡ true →
        WritesLawful (serial_rules said.batch) files (map (λ b. C.tally b) boxes.items)
        placed.now before (K.written out.new) (F.faults folder) (F.faults result.1)
        × (result.2 ≡ publisher)))) }
    ensures published { IfTold (F.files folder) (λ files. IfTold (K.written out.old) (λ before.
        OnOk result.0 (said.serial ≡ false →
        WritesPublished (beside_rules said.batch) files
        (map (λ b. C.tally b) boxes.items) placed.now before (K.written out.new)
        (F.faults folder) (F.faults result.1) result.2))) }
    ensures stopped { IfTold (F.files folder) (λ files. IfTold (K.written out.old) (λ before.
        OnErr result.0 (said.serial ≡ true →
        WritesPrefix (serial_rules said.batch) files (map (λ b. C.tally b) boxes.items)
        placed.now before (K.written out.new) (F.faults folder) (F.faults result.1)
        × (result.2 ≡ publisher)))) }
    ensures stopped_beside { IfTold (F.files folder)
        (λ files. IfTold (K.written out.old) (λ before. OnErr result.0 (said.serial ≡ false →
        WritesPublishedPrefix (beside_rules said.batch) files
        (map (λ b. C.tally b) boxes.items) placed.now before (K.written out.new)
        (F.faults folder) (F.faults result.1) result.2.log))) }
    ensures sink_fault { IsErrOf result.0 Stopped.SinkFault →
        Rose (K.faults out.old) (K.faults out.new) }
    ensures serial_back { said.serial ≡ true → result.2 ≡ publisher }
    ensures opening { result.2.opening ≡ publisher.opening }
    ensures same { F.files result.1 ≡ F.files folder }
    ensures later { F.faults folder ≤ F.faults result.1 }
    ensures sink_later { K.faults out.old ≤ K.faults out.new }
{
    let batch = said.batch;
    if said.serial {
        let mut folder = folder;
        let ran = run_statements(rt, alloc, batch, boxes, placed, &mut folder, out);
        return (ran, folder, publisher);
    }
    let Ok(own) = rt.clone() else {
        return (Err(Stopped::NoMemory), folder, publisher);
    };
    let importer = ImporterState {
        owned: OwnedPublisher { publisher, rt: own },
        folder,
        gate,
    };
    let (ran, importer) = run_beside::<Brand, R, F, G, K, C>(
        rt, alloc, batch, boxes, placed, importer, searchers, out,
    );
    let ImporterState {
        owned,
        folder,
        gate: _gate,
    } = importer;
    (ran, folder, owned.into_publisher())
}
