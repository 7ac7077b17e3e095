// Laws of the definitions of files and imports, for who reads a contract over them. Each stands as
// a contract of a function that does nothing.
ghost use Rattle.std.specs.Prelude.{◌≡◌, ◌⊎◌, ◌+◌, ◌≤◌, [], ◌∷◌, Bool, List, length, ℕ, Some};
ghost use Rattle.std.specs.declared.option.Option.{Option};
ghost use Rattle.kb_edges.specs.Faults.{Rose, RoseBy};
ghost use Rattle.kb_edges.specs.Files.{File};
ghost use Rattle.game_tree.specs.Tree.{Tree};
ghost use Rattle.import_work.specs.Batches.{IsImportedFile, IsTurnedAway, full_told};
ghost use Rattle.import_work.specs.Course.{
  AreNames,
  Finding,
  FindsBy,
  HasMade,
  ImportCourse,
  ImportFile,
  IsImported,
  games_of_files,
  losses_of,
  nothing_lost,
  reports_of,
};
ghost use Rattle.import_work.specs.Imports.{
  AddsUp,
  FindsIn,
  GivesAll,
  GivesFirst,
  GivesMade,
  HasGiven,
  ImportState,
  IsListed,
  IsListedIn,
  IsNotThere,
};
ghost use Rattle.import_work.specs.Log.{Segment};
ghost use Rattle.import_work.specs.Made.{AreAddedFirst};
ghost use Rattle.import_work.specs.Outcome.{IsOutcome, with_games};
ghost use Rattle.import_work.specs.declared.outcome.Counts.{Counts};
ghost use Rattle.import_work.specs.declared.outcome.FileOutcome.{FileOutcome};
ghost use Rattle.import_work.specs.declared.report.ReportBody.TheVariants.{Unlisted};
ghost use Rattle.import_work.specs.declared.source.Source.{Source};
ghost use Rattle.import_work.specs.declared.source.Source.TheVariants as source;

/// An import of each path has a list of names, in each folder, and one only.
pub fn an_import_has_one_list_of_names()
    ensures some { (files : List File) (path : List ℕ) →
        (names : List (List ℕ)) × AreNames files path names }
    ensures one { (files : List File) (path : List ℕ) (a b : List (List ℕ)) →
        AreNames files path a → AreNames files path b → a ≡ b }
{}

/// Each file has an outcome in each base, and one only, with the games that it adds.
pub fn a_file_has_one_outcome()
    ensures some { (bytes : List ℕ) (before : Counts) →
        (outcome : FileOutcome) × (trees : List Tree) × IsOutcome bytes before outcome trees }
    ensures one { (bytes : List ℕ) (before : Counts) (a b : FileOutcome) (xs ys : List Tree) →
        IsOutcome bytes before a xs → IsOutcome bytes before b ys → (a ≡ b) × (xs ≡ ys) }
{}

/// An import from each source can find something by which nothing is lost, and, whichever of its
/// files are lost, or it as a whole, something by exactly these losses. By one entry of the course it
/// finds one thing only.
pub fn an_import_finds_one_thing()
    ensures whole { (files : List File) (source : Source) (before : Counts) →
        (finding : Finding) × IsImported files source before nothing_lost finding }
    ensures some { (files : List File) (source : Source) (before : Counts) (lost : Bool)
        (is_lost : List ℕ → Bool) → FindsBy files source before lost is_lost }
    ensures one { (files : List File) (source : Source) (before : Counts) (entry : ImportCourse)
        (a b : Finding) → IsImported files source before entry a →
        IsImported files source before entry b → a ≡ b }
{}

/// A file that is refused, full or unread adds no game and changes no count.
pub fn a_file_that_is_turned_away_adds_nothing()
    ensures { (told : Option (List File)) (path name : List ℕ) (before : Counts)
        (faults_before faults_now : ℕ) (outcome : FileOutcome) (trees : List Tree) →
        IsImportedFile told path name before faults_before faults_now outcome trees →
        IsTurnedAway outcome → (trees ≡ []) × (with_games before trees ≡ before) }
{}

/// Whatever the folder tells, the counts of an import are those at first with the games of the
/// segments that it gave, and it adds a game only where the base stays within its limits.
pub fn an_import_adds_up()
    ensures { (told : Option (List File)) (batch : ℕ) (start now : ImportState)
        (segments : List Segment) (first last : ℕ) → 1 ≤ batch →
        HasGiven told batch start first segments now last → AddsUp start now segments }
{}

/// In a folder that tells its files, an import that has no name left has given the segments of what
/// it finds there, and its report tells that. One that has names left has given the first of them,
/// also where the count of faults has risen further by a step that was refused.
pub fn an_import_gives_what_it_finds()
    ensures all { (all : List File) (batch : ℕ) (start now : ImportState) (segments : List Segment)
        (first last : ℕ) → 1 ≤ batch → IsListed start.source start.body start.left →
        IsListedIn all start.source start.body start.left →
        HasGiven (Some all) batch start first segments now last → now.left ≡ [] →
        GivesAll all batch start segments now.body first last }
    ensures first { (all : List File) (batch : ℕ) (start now : ImportState) (segments : List Segment)
        (first last after : ℕ) → 1 ≤ batch → IsListed start.source start.body start.left →
        IsListedIn all start.source start.body start.left →
        HasGiven (Some all) batch start first segments now last → last ≤ after →
        GivesFirst all batch start segments first after }
{}

/// What an import loses in a folder that tells its files is at most the rise of the folder's count of
/// faults, from the opening on: an import is unlisted by a fault where its path is there.
pub fn an_import_loses_by_faults_alone()
    ensures { (all : List File) (start : ImportState) (before first last : ℕ)
        (finds : FindsIn all start first last) →
        (start.body ≡ Unlisted → Rose before first ⊎ IsNotThere all start.source) →
        before ≤ first → first ≤ last → RoseBy (losses_of (finds.entry ∷ [])) before last }
{}

/// Whatever the folder tells, an import of made games that has none left has given the segments of all
/// of them, each added where there was room for it, and its report tells how many were added and for
/// how many there was no room: all of them together.
pub fn made_games_give_all()
    ensures given { (told : Option (List File)) (batch : ℕ) (start now : ImportState)
        (segments : List Segment) (first last games seed : ℕ) → 1 ≤ batch →
        start.source ≡ source.Made games seed →
        IsListed (source.Made games seed) start.body start.left →
        HasGiven told batch start first segments now last → now.left ≡ [] →
        GivesMade batch games seed start now segments }
    ensures told { (games seed : ℕ) (before : Counts) (files : List ImportFile) →
        HasMade games seed before files →
        length (games_of_files files) + full_told (reports_of files) ≡ games }
{}

/// The made games that a base takes are the first ones, by their numbers, as many as it has room for.
pub fn made_games_are_added_in_order()
    ensures { (games seed : ℕ) (before : Counts) (files : List ImportFile) →
        HasMade games seed before files →
        (added : ℕ) × AreAddedFirst seed games added before (games_of_files files) }
{}
