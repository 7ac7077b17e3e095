// A tree that is built node by node.
ghost use Rattle.std.specs.Prelude.{◌≡◌, ℕ, ◌+◌, ◌-◌, ◌<◌, ◌≤◌, length, IfOk, IfErr, IfSome};

use crate::stored::TreeNode;
use crate::{GameTree, Info, Move, Setup};
use kb_geometry::{NoMemory, Shape};
use std::alloc::Global;
use std::marker::Model;

// Takes the nodes of a game in order of the text, each with its setups and then its parent and its
// move.
//
// Contracts see it as the nodes so far, and the setups so far of the node that is being read.
#[derive(Debug, Drop)]
pub(crate) struct TreeBuilder {
    shape: Shape,
    nodes: Vec<TreeNode>,
    setups: Vec<Setup>,
    main_line: u32,
}

impl Model for TreeBuilder {
    ghost use Rattle.game_tree.specs.Built.{Built};
    ghost use Rattle.game_tree.specs.Stored.{shown_built, IsBeginning};

    ghost Value = { Built };

    ghost view = { λ b. shown_built b.shape b.nodes.items b.setups.items };

    ghost invariant = { λ b. IsBeginning b.shape b.nodes.items b.setups.items b.main_line };
}

impl TreeBuilder {
    ghost use Rattle.kb_geometry.specs.declared.shape.Point.{Point};
    ghost use Rattle.kb_geometry.specs.Board.{IsOnBoard, IsOrderedRectOnBoard};
    ghost use Rattle.game_tree.specs.declared.node.Setup.{Setup};
    ghost use Rattle.game_tree.specs.declared.node.Move.{Move};
    ghost use Rattle.game_tree.specs.Built.{
      Built,
      nothing_built,
      with_setup,
      with_node,
      tree_of,
      tree_so_far,
      IsNextParent,
      IsGrown,
    };
    ghost use Rattle.game_tree.specs.Information.{HasSimpleTexts};
    ghost use Rattle.game_tree.specs.Tree.{IsTree, branchings_to, next_sibling_of, parent_of};

    // Nothing is read yet of a game on this board. There is room for so many nodes, and no more.
    pub(crate) fn with_room(alloc: Global, shape: Shape, nodes: usize) -> Result<Self, NoMemory>
        ensures { IfOk result (λ built. built ≡ nothing_built shape) }
    {
        Ok(TreeBuilder {
            shape,
            nodes: Vec::with_capacity(alloc, nodes)?,
            setups: Vec::new(alloc),
            main_line: 0,
        })
    }

    // What is known of the nodes so far. It reads nothing.
    pub(crate) fn is_grown(&self)
        ensures grown { IsGrown (tree_so_far self.now) }
    {
        let _nodes = &self.nodes;
    }

    // One setup more of the node that is being read. After `NoMemory` all is as before.
    pub(crate) fn add_setup(&mut self, setup: Setup) -> Result<(), NoMemory>
        requires room { self.old.setup_count < 4294967295 }
        requires on_board { IsOrderedRectOnBoard self.old.shape setup.rect }
        ensures ok { IfOk result (λ _. self.new ≡ with_setup self.old setup) }
        ensures error { IfErr result (λ _. self.new ≡ self.old) }
    {
        self.setups.push(setup)?;
        Ok(())
    }

    // The node that is being read ends, with its setups so far. After `NoMemory` all is as before.
    pub(crate) fn add_node(
        &mut self,
        parent: Option<u32>,
        played: Option<Move>,
    ) -> Result<(), NoMemory>
        requires room { length self.old.nodes < 65536 }
        requires parent { IsNextParent self.old parent }
        requires on_board { IfSome played (λ (m : Move).
            IfSome m.point (λ (p : Point). IsOnBoard self.old.shape p)) }
        ensures ok { IfOk result (λ _. self.new ≡ with_node self.old parent played) }
        ensures error { IfErr result (λ _. self.new ≡ self.old) }
    {
        match parent {
            None => self.add_root(played),
            Some(above) => self.add_child(above as u16, played),
        }
    }

    // The tree of the nodes so far. Setups behind the last node are dropped, and so is the room that
    // isn't used.
    pub(crate) fn finish(mut self, info: Info) -> GameTree
        requires some { 1 ≤ length self.nodes }
        requires depth { (n : ℕ) → n < length self.nodes →
            branchings_to (tree_of self info) n < 1024 }
        requires texts { HasSimpleTexts info }
        ensures value { result ≡ tree_of self info }
        ensures tree { IsTree result }
    {
        self.nodes.shrink_to_fit();
        self.setups.shrink_to_fit();
        GameTree::stored(self.shape, info, self.nodes, self.setups, self.main_line)
    }

    // The first node, which has no parent.
    fn add_root(&mut self, played: Option<Move>) -> Result<(), NoMemory>
        requires first { IsNextParent self.old None }
        requires on_board { IfSome played (λ (m : Move).
            IfSome m.point (λ (p : Point). IsOnBoard self.old.shape p)) }
        ensures ok { IfOk result (λ _. self.new ≡ with_node self.old None played) }
        ensures error { IfErr result (λ _. self.new ≡ self.old) }
    {
        self.nodes.push(TreeNode {
            parent: 0,
            next_sibling: 0,
            moves_above: 0,
            setups_end: self.setups.len() as u32,
            played,
        })?;
        self.main_line = 1;
        Ok(())
    }

    // A node below another.
    fn add_child(&mut self, parent: u16, played: Option<Move>) -> Result<(), NoMemory>
        requires room { length self.old.nodes < 65536 }
        requires parent { IsNextParent self.old (Some parent) }
        requires on_board { IfSome played (λ (m : Move).
            IfSome m.point (λ (p : Point). IsOnBoard self.old.shape p)) }
        ensures ok { IfOk result (λ _. self.new ≡ with_node self.old (Some parent) played) }
        ensures error { IfErr result (λ _. self.new ≡ self.old) }
    {
        let number = self.nodes.len();
        let before = self.sibling_before(parent);
        let above = self.nodes[usize::from(parent)];
        self.nodes.push(TreeNode {
            parent,
            next_sibling: 0,
            moves_above: above.moves_above + u16::from(above.played.is_some()),
            setups_end: self.setups.len() as u32,
            played,
        })?;
        match before {
            Some(sibling) => self.nodes[sibling].next_sibling = number as u16,
            None => {
                if self.main_line as usize == number {
                    self.main_line = number as u32 + 1;
                }
            }
        }
        Ok(())
    }

    // The last child so far of a node that can be the next one's parent.
    fn sibling_before(&self, parent: u16) -> Option<usize>
        requires { IsNextParent self.now (Some parent) }
        ensures none { result ≡ None → parent + 1 ≡ length self.now.nodes }
        ensures some { IfSome result (λ n. (n < length self.now.nodes)
            × (parent_of (tree_so_far self.now) n ≡ Some parent)
            × (next_sibling_of (tree_so_far self.now) n ≡ None)) }
    {
        // The last node's ancestors are each the last child so far of their parents.
        let nodes = self.nodes.as_slice();
        let mut n = nodes.len() - 1;
        if n == usize::from(parent) {
            return None;
        }
        while nodes[n].parent != parent {
            n = usize::from(nodes[n].parent);
        }
        Some(n)
    }
}
