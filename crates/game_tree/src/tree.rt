// A game tree.
ghost use Rattle.std.specs.Prelude.{◌≡◌, ℕ, ◌<◌, ◌≤◌, ◌↔◌, IsTrue, IfOk, IfSome, All};

use crate::stored::{TreeNode, setups_start};
use crate::{Children, Info, Move, Setup};
use kb_geometry::{NoMemory, Shape};
use std::alloc::Global;
use std::marker::Model;

/// A game: its board, its information, and its nodes in order of the text.
///
/// Nodes are numbered from 0, the root, in order of the text. Each node has setups and at most one
/// move. Contracts see it as a shape, an information and a list of nodes.
// The setups of all nodes stand in one list. The nodes below `main_line` are those of the main
// line: a first child always has the number behind its parent's.
#[derive(Debug, Drop)]
pub struct GameTree {
    shape: Shape,
    info: Info,
    nodes: Vec<TreeNode>,
    setups: Vec<Setup>,
    main_line: u32,
}

impl Model for GameTree {
    ghost use Rattle.game_tree.specs.Tree.{Tree};
    ghost use Rattle.game_tree.specs.Stored.{shown_tree, IsStored};

    ghost Value = { Tree };

    ghost view = { λ t. shown_tree t.shape t.info t.nodes.items t.setups.items };

    ghost invariant = { λ t. IsStored t.shape t.info t.nodes.items t.setups.items t.main_line };
}

impl GameTree {
    ghost use Rattle.kb_geometry.specs.declared.shape.Shape.{Shape};
    ghost use Rattle.kb_geometry.specs.declared.shape.Point.{Point};
    ghost use Rattle.kb_geometry.specs.Board.{IsOnBoard, IsOrderedRectOnBoard};
    ghost use Rattle.game_tree.specs.declared.node.Setup.{Setup};
    ghost use Rattle.game_tree.specs.declared.node.Move.{Move};
    ghost use Rattle.game_tree.specs.MainLine.{IsOnMainLine};
    ghost use Rattle.game_tree.specs.Stored.{shown_tree, IsStored};
    ghost use Rattle.game_tree.specs.Tree.{
      Tree,
      IsTree,
      node_count,
      node_at,
      parent_of,
      children_of,
      first_child_of,
      next_sibling_of,
      move_number_of,
    };

    // The tree that is stored so.
    pub(crate) fn stored(
        shape: Shape,
        info: Info,
        nodes: Vec<TreeNode>,
        setups: Vec<Setup>,
        main_line: u32,
    ) -> Self
        requires { IsStored shape info nodes.items setups.items main_line }
        ensures { result ≡ shown_tree shape info nodes.items setups.items }
    {
        GameTree {
            shape,
            info,
            nodes,
            setups,
            main_line,
        }
    }

    /// The board.
    pub fn shape(&self) -> Shape
        ensures value { result ≡ self.now.shape }
        ensures tree { IsTree self.now }
    {
        let _nodes = &self.nodes;
        self.shape
    }

    /// The information.
    pub fn info(&self) -> &Info
        ensures { result.now ≡ self.now.info }
    {
        &self.info
    }

    /// How many nodes there are, 1 to 65,536.
    pub fn node_count(&self) -> u32
        ensures value { result ≡ node_count self.now }
        ensures some { 1 ≤ result }
        ensures most { result ≤ 65536 }
        ensures tree { IsTree self.now }
    {
        self.nodes.len() as u32
    }

    /// The parent of a node. The root has none.
    pub fn parent(&self, n: u32) -> Option<u32>
        requires { n < node_count self.now }
        ensures value { result ≡ parent_of self.now n }
        ensures before { IfSome result (λ m. m < n) }
    {
        if n == 0 {
            None
        } else {
            Some(u32::from(self.nodes[n as usize].parent))
        }
    }

    /// The first child of a node.
    pub fn first_child(&self, n: u32) -> Option<u32>
        requires { n < node_count self.now }
        ensures value { result ≡ first_child_of self.now n }
        ensures in_range { IfSome result (λ c. (n < c) × (c < node_count self.now)) }
        ensures child { IfSome result (λ c. parent_of self.now c ≡ Some n) }
    {
        // The first child stands behind its parent.
        let nodes = self.nodes.as_slice();
        let next = n as usize + 1;
        if next < nodes.len() && u32::from(nodes[next].parent) == n {
            Some(n + 1)
        } else {
            None
        }
    }

    /// The next child of the node's parent.
    pub fn next_sibling(&self, n: u32) -> Option<u32>
        requires { n < node_count self.now }
        ensures value { result ≡ next_sibling_of self.now n }
        ensures in_range { IfSome result (λ s. (n < s) × (s < node_count self.now)) }
        ensures sibling { IfSome result (λ s. parent_of self.now s ≡ parent_of self.now n) }
    {
        let next = self.nodes[n as usize].next_sibling;
        if next == 0 {
            None
        } else {
            Some(u32::from(next))
        }
    }

    /// What a node sets up, in order.
    pub fn setups(&self, n: u32) -> &[Setup]
        requires { n < node_count self.now }
        ensures value { result.now ≡ (node_at self.now n).setups }
        ensures on_board { All (λ (s : Setup). IsOrderedRectOnBoard self.now.shape s.rect)
            result.now }
    {
        let nodes = self.nodes.as_slice();
        let start = setups_start(nodes, n as usize);
        let end = nodes[n as usize].setups_end as usize;
        &self.setups[start..end]
    }

    /// The move that a node plays, if it plays one.
    pub fn played(&self, n: u32) -> Option<Move>
        requires { n < node_count self.now }
        ensures value { result ≡ (node_at self.now n).played }
        ensures on_board { IfSome result (λ (m : Move).
            IfSome m.point (λ (p : Point). IsOnBoard self.now.shape p)) }
    {
        self.nodes[n as usize].played
    }

    /// The number of moves and passes on the path from the root to a node, itself among them.
    pub fn move_number(&self, n: u32) -> u32
        requires { n < node_count self.now }
        ensures { result ≡ move_number_of self.now n }
    {
        let node = self.nodes[n as usize];
        u32::from(node.moves_above) + u32::from(node.played.is_some())
    }

    /// Whether a node lies on the main line: the root, and from there always the first child.
    pub fn is_main(&self, n: u32) -> bool
        requires { n < node_count self.now }
        ensures { IsTrue result ↔ IsOnMainLine self.now n }
    {
        n < self.main_line
    }

    /// How many nodes the main line has. They are the first ones in order of the text.
    pub fn main_count(&self) -> u32
        ensures { (n : ℕ) → (n < result) ↔ IsOnMainLine self.now n }
    {
        self.main_line
    }

    /// The children of a node, in order of the text.
    pub fn children(&self, n: u32) -> Children<'_>
        requires { n < node_count self.now }
        ensures value { result ≡ children_of self.now n }
        ensures in_range { All (λ c. (n < c) × (c < node_count self.now)) result }
        ensures each { All (λ c. parent_of self.now c ≡ Some n) result }
    {
        let _nodes = &self.nodes;
        Children::of(self, self.first_child(n))
    }

    /// An equal tree. The only error is `NoMemory`. For the library's callers
    /// and tests: the program copies none.
    pub fn copy(&self, alloc: Global) -> Result<GameTree, NoMemory>
        ensures { IfOk result (λ copied. copied ≡ self.now) }
    {
        let info = self.info.copy(alloc)?;
        let nodes = self.nodes.as_slice().to_vec(alloc)?;
        let setups = self.setups.as_slice().to_vec(alloc)?;
        Ok(GameTree {
            shape: self.shape,
            info,
            nodes,
            setups,
            main_line: self.main_line,
        })
    }
}
