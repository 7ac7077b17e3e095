// Laws. Each stands as a contract of a function that does nothing.
ghost use mathlib.Core.List.{IsPrefix};
ghost use Rattle.std.specs.Prelude.{◌≡◌, ◌↔◌, ℕ, All, IsTrue, List, false};
ghost use Rattle.kb_edges.specs.Files.{File};
ghost use Rattle.game_tree.specs.Tree.{IsTree};
ghost use Rattle.node_position.specs.Games.{Game};
ghost use Rattle.hit_collectors.specs.Tallies.{BoxTally};
ghost use Rattle.query_script.specs.declared.statement.Placed.{Placed};
ghost use Rattle.query_script.specs.declared.statement.Statement.{Statement};
ghost use Rattle.import_work.specs.Course.{ImportCourse, losses_of};
ghost use Rattle.session_core.specs.Answers.{IsAnswer, IsAnswered, View};
ghost use Rattle.session_core.specs.Lawful.{IsBegun, IsLawful, Rules};
ghost use Rattle.session_core.specs.SessionState.{SessionState};
ghost use Rattle.session_core.specs.Signed.{AreAllGamesFound, AreGamesFound, FoundGame};

/// A statement that a session answers has a text over a version of trees, and one only; and so has
/// what it leaves behind.
pub fn a_statement_has_one_answer()
    ensures some { (line : ℕ) (view : View) (session : SessionState) (statement : Statement) →
        IsAnswered statement → All (λ (g : Game). IsTree g.tree) view.games →
        (text : List ℕ) × (after : SessionState) × IsAnswer line view session statement text after }
    ensures one { (line : ℕ) (view : View) (session : SessionState) (statement : Statement)
        (a b : List ℕ) (after other : SessionState) →
        All (λ (g : Game). IsTree g.tree) view.games →
        IsAnswer line view session statement a after →
        IsAnswer line view session statement b other → (a ≡ b) × (after ≡ other) }
{}

/// Statements have a lawful output by which nothing is lost.
pub fn each_script_has_a_lawful_output()
    ensures { (files : List File) (rules : Rules) (boxes : List BoxTally) (placed : List Placed) →
        (course : List ImportCourse) × (out : List ℕ) ×
        IsLawful files rules boxes course placed out × (losses_of course ≡ 0) }
{}

/// Where each statement is done before the next begins, statements by which nothing is lost have one
/// lawful output only.
pub fn a_serial_run_without_a_loss_has_one_output()
    ensures { (files : List File) (rules : Rules) (boxes : List BoxTally) (placed : List Placed)
        (course other : List ImportCourse) (a b : List ℕ) → IsTrue rules.serial →
        IsLawful files rules boxes course placed a → losses_of course ≡ 0 →
        IsLawful files rules boxes other placed b → losses_of other ≡ 0 → a ≡ b }
{}

/// Each begun text is a prefix of a lawful output of the same statements, with the same losses.
pub fn a_begun_text_is_a_prefix_of_a_lawful_output()
    ensures { (files : List File) (rules : Rules) (boxes : List BoxTally) (placed : List Placed)
        (course : List ImportCourse) (text : List ℕ) →
        IsBegun files rules boxes course placed text →
        (whole_course : List ImportCourse) × (whole : List ℕ) ×
        IsLawful files rules boxes whole_course placed whole × IsPrefix text whole ×
        (losses_of whole_course ≡ losses_of course) }
{}

/// A lawful output of a run in which each statement is done before the next begins is lawful also where
/// imports go on beside the statements, with the same losses.
pub fn a_serial_output_is_lawful_beside_imports()
    ensures { (files : List File) (rules : Rules) (boxes : List BoxTally) (placed : List Placed)
        (course : List ImportCourse) (out : List ℕ) →
        IsLawful files rules boxes course placed out →
        IsLawful files (record rules { serial = false }) boxes course placed out }
{}

/// The games that a signature pattern finds are exactly those whose signature matches it, each once,
/// ascending by number, with the canonical forms of their signatures.
pub fn a_pattern_finds_the_games_that_match()
    ensures { (pattern : List ℕ) (games : List Game) (found : List FoundGame) →
        All (λ (g : Game). IsTree g.tree) games →
        AreGamesFound pattern games found ↔ AreAllGamesFound pattern games found }
{}
