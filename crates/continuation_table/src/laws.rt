// Laws of the definitions for continuations and tables, for who reads a contract of this crate.
ghost use Rattle.std.specs.Prelude.{◌≡◌, ◌⊎◌, ℕ, List};
ghost use Rattle.game_tree.specs.Tree.{IsTree, Tree};
ghost use Rattle.capture_board.specs.Deltas.{Deltas};
ghost use Rattle.pattern_images.specs.declared.hit.Hit.{Hit};
ghost use Rattle.pattern_images.specs.declared.hit.Next.{Next};
ghost use Rattle.pattern_images.specs.ImageList.{IsPlacedOn};
ghost use Rattle.pattern_images.specs.Placements.{Placement};
ghost use Rattle.continuation_table.specs.Continuation.{IsContinuation};
ghost use Rattle.continuation_table.specs.Table.{IsTable, TableView};

/// A placement has a continuation at a node of a tree or has none there, and has one only: that of
/// [`next_below`](crate::next_below).
pub fn a_placement_has_one_continuation_or_none()
    ensures one_or_none { (tree : Tree) (changes : Deltas) (placement : Placement) (n : ℕ) →
        IsTree tree → IsPlacedOn changes.shape placement →
        ((next : Next) × IsContinuation tree changes placement n next)
        ⊎ ((next : Next) → ¬ IsContinuation tree changes placement n next) }
    ensures one { (tree : Tree) (changes : Deltas) (placement : Placement) (n : ℕ) (a b : Next) →
        IsContinuation tree changes placement n a → IsContinuation tree changes placement n b →
        a ≡ b }
{}

/// A list of hits has a table, and one only: that of [`Table::of`](crate::Table::of).
pub fn a_list_of_hits_has_one_table()
    ensures some { (hits : List Hit) → (table : TableView) × IsTable hits table }
    ensures one { (hits : List Hit) (a b : TableView) → IsTable hits a → IsTable hits b → a ≡ b }
{}
