// Laws of the definitions of scripts, for who reads a contract of this crate.
ghost use Rattle.std.specs.Prelude.{◌≡◌, ◌⊎◌, ℕ, List};
ghost use Rattle.query_script.specs.declared.command_words.Words.{Words};
ghost use Rattle.query_script.specs.declared.statement.Placed.{Placed};
ghost use Rattle.query_script.specs.declared.statement.TheConstants.{MAX_SCRIPT};
ghost use Rattle.query_script.specs.CommandWords.{AreLawful};
ghost use Rattle.query_script.specs.Script.{
  AreStatements,
  IsLeastBadLine,
  most_script_bytes,
  script_lines,
};

/// The longest script that [`read_script`](crate::read_script) reads has 1,048,576 bytes.
pub fn the_longest_script_has_1048576_bytes()
    ensures number { MAX_SCRIPT ≡ 1048576 }
    ensures limit { MAX_SCRIPT ≡ most_script_bytes }
{}

/// A script has its statements or a least bad line, which is what
/// [`read_script`](crate::read_script) answers. It has one list of statements only, one least bad
/// line only, and not both.
pub fn a_script_has_its_statements_or_a_bad_line()
    ensures some { (text : List ℕ) →
        ((placed : List Placed) × AreStatements (script_lines text) placed)
        ⊎ ((k : ℕ) × IsLeastBadLine (script_lines text) k) }
    ensures one_list { (text : List ℕ) (a b : List Placed) →
        AreStatements (script_lines text) a → AreStatements (script_lines text) b → a ≡ b }
    ensures one_bad_line { (text : List ℕ) (j k : ℕ) →
        IsLeastBadLine (script_lines text) j → IsLeastBadLine (script_lines text) k → j ≡ k }
    ensures not_both { (text : List ℕ) (placed : List Placed) (k : ℕ) →
        AreStatements (script_lines text) placed → ¬ IsLeastBadLine (script_lines text) k }
{}

/// Lawful words of the command line say one thing only, which is what
/// [`read_words`](crate::read_words) answers.
pub fn lawful_words_say_one_thing()
    ensures { (words : List (List ℕ)) (one other : Words) →
        AreLawful words one → AreLawful words other → one ≡ other }
{}
