// Laws of the definitions for trees and faults, for who reads a contract of this crate.
ghost use Rattle.std.specs.Prelude.{◌≡◌, ◌⊎◌, All, List, ℕ};
ghost use Rattle.sgf_reader.specs.declared.collection.Collection.{Collection};
ghost use Rattle.sgf_reader.specs.declared.fault.FaultKind.{FaultKind};
ghost use Rattle.sgf_reader.specs.Faults.{IsRead};
ghost use Rattle.game_tree.specs.Tree.{IsTree, Tree};
ghost use Rattle.game_tree.specs.Trees.{AreTreesOf};
ghost use Rattle.game_tree.specs.ValueFaults.{HasValueFault, IsFirstValueFault};

/// The collection of a text has one list of trees only: that of [`build`](crate::build), where it
/// answers one.
pub fn a_collection_has_one_list_of_trees()
    ensures { (text : List ℕ) (collection : Collection) (a b : List Tree) →
        AreTreesOf text collection a → AreTreesOf text collection b → a ≡ b }
{}

/// The values of a collection have one first fault at most: one kind at one offset.
pub fn a_collection_has_one_first_value_fault()
    ensures { (text : List ℕ) (collection : Collection) (of other : FaultKind) (at offset : ℕ) →
        IsFirstValueFault text collection of at →
        IsFirstValueFault text collection other offset → (of ≡ other) × (at ≡ offset) }
{}

/// Each collection that was read has trees and no fault of its values, or a first fault.
pub fn a_collection_has_trees_or_a_first_value_fault()
    ensures { (text : List ℕ) (collection : Collection) → IsRead text collection →
        ((trees : List Tree) × AreTreesOf text collection trees ×
        ((of : FaultKind) (at : ℕ) → ¬ HasValueFault text collection of at)) ⊎
        ((of : FaultKind) × (at : ℕ) × IsFirstValueFault text collection of at) }
{}

/// The trees of a collection that was read are trees: each has a root, and each other node hangs
/// below a node before it; what a node sets up and plays lies on the board.
pub fn the_trees_of_a_collection_are_trees()
    ensures { (text : List ℕ) (collection : Collection) (trees : List Tree) →
        IsRead text collection → AreTreesOf text collection trees → All IsTree trees }
{}
