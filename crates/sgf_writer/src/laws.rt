// Laws of the written text, for who reads a contract of this crate.
ghost use Rattle.std.specs.Prelude.{◌≡◌, ℕ, List};
ghost use Rattle.game_tree.specs.Tree.{Tree, IsTree};
ghost use Rattle.sgf_writer.specs.Written.{IsWritten};

/// A tree has one text only.
pub fn a_tree_has_one_text()
    ensures { (tree : Tree) (a b : List ℕ) → IsWritten tree a → IsWritten tree b → a ≡ b }
{}

/// Each tree has a text.
pub fn each_tree_has_a_text()
    ensures { (tree : Tree) → IsTree tree → (text : List ℕ) × IsWritten tree text }
{}
