// Laws of the positions and the changes at the nodes of a tree.
ghost use Rattle.std.specs.Prelude.{◌≡◌, List};
ghost use Rattle.kb_geometry.specs.Capture.{Position};
ghost use Rattle.game_tree.specs.Tree.{IsTree, Tree};
ghost use Rattle.game_tree.specs.Position.{ArePositions};
ghost use Rattle.capture_board.specs.Deltas.{AreDeltas, Deltas};
ghost use Rattle.node_position.specs.Positions.{AreDeltasOf};

/// Each tree has its positions, one at each node.
pub fn a_tree_has_positions()
    ensures { (game : Tree) → IsTree game →
        (positions : List Position) × ArePositions game positions }
{}

/// A tree has one list of positions: setups and the capture rule leave nothing open.
pub fn a_tree_has_one_list_of_positions()
    ensures { (game : Tree) (one other : List Position) → IsTree game → ArePositions game one →
        ArePositions game other → one ≡ other }
{}

/// Each tree has its changes: net changes at each node, which give the positions.
pub fn a_tree_has_changes()
    ensures { (game : Tree) (positions : List Position) → IsTree game →
        ArePositions game positions →
        (changes : Deltas) × AreDeltas changes × AreDeltasOf game positions changes }
{}

/// A tree has one list of changes.
pub fn a_tree_has_one_list_of_changes()
    ensures { (game : Tree) (positions : List Position) (one other : Deltas) → IsTree game →
        AreDeltas one → AreDeltas other →
        AreDeltasOf game positions one → AreDeltasOf game positions other → one ≡ other }
{}
