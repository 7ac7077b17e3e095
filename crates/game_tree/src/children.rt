// The children of a node, one after another.
ghost use Rattle.std.specs.Prelude.{◌≡◌, ℕ, ◌<◌, List, IfSome};
ghost use Rattle.std.specs.Iterator.{YieldsFirst, item_count};

use crate::GameTree;
use std::marker::Model;

/// An iterator over the children of a node in order of the text. Contracts see it as the list of
/// the nodes that are left.
#[derive(Debug, Drop)]
pub struct Children<'a> {
    tree: &'a GameTree,
    next: Option<u32>,
}

impl<'a> Model for Children<'a> {
    ghost use Rattle.std.specs.Prelude.{ℕ, ◌<◌, List, IfSome};
    ghost use Rattle.game_tree.specs.Stored.{siblings_from};
    ghost use Rattle.game_tree.specs.Tree.{node_count};

    ghost Value = { List ℕ };

    ghost view = { λ c. siblings_from c.tree.now c.next };

    ghost invariant = { λ c. IfSome c.next (λ n. n < node_count c.tree.now) };
}

impl<'a> Children<'a> {
    ghost use Rattle.game_tree.specs.Stored.{siblings_from};
    ghost use Rattle.game_tree.specs.Tree.{node_count};

    // The node, if there is one, and its next siblings.
    pub(crate) fn of(tree: &'a GameTree, next: Option<u32>) -> Self
        requires { IfSome next (λ n. n < node_count tree.now) }
        ensures { result ≡ siblings_from tree.now next }
    {
        Children { tree, next }
    }
}

impl<'a> Iterator for Children<'a> {
    type Item = u32;

    ghost next_gives = { YieldsFirst (λ rest. rest) };

    ghost remaining = { item_count (λ rest. rest) };

    fn next(&mut self) -> Option<u32> {
        let here = self.next?;
        self.next = self.tree.next_sibling(here);
        Some(here)
    }
}
