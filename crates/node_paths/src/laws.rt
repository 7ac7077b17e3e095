// Laws of parents and paths. Each stands as a contract of a function that does nothing.
ghost use Rattle.std.specs.Prelude.{◌≡◌, ℕ, ◌+◌, ◌<◌, ◌≤◌, ◌↔◌, [], ◌∷◌, ◌++◌, Contains, List};
ghost use Rattle.std.specs.declared.option.Option.{Option};
ghost use Rattle.node_paths.specs.Parents.{AreParents, IsOnPathTo};
ghost use Rattle.node_paths.specs.Paths.{path_to};

/// A node and each of its ancestors have at most the number of the node.
pub fn ancestors_come_first()
    ensures { (parent : ℕ → Option ℕ) (count a n : ℕ) → AreParents parent count →
        IsOnPathTo parent a n → a ≤ n }
{}

/// The path to a node holds the node and its ancestors, and no other.
pub fn a_path_holds_the_node_and_its_ancestors()
    ensures { (parent : ℕ → Option ℕ) (count n a : ℕ) → AreParents parent count →
        Contains (path_to parent n) a ↔ IsOnPathTo parent a n }
{}

/// Each path ends at the root, whose number is 0.
pub fn a_path_ends_at_the_root()
    ensures { (parent : ℕ → Option ℕ) (count n : ℕ) → AreParents parent count → n < count →
        (lower : List ℕ) × (path_to parent n ≡ lower ++ 0 ∷ []) }
{}
