// A node as a tree stores it.
ghost use Rattle.std.specs.Prelude.{◌≡◌, ◌<◌, length};
ghost use Rattle.game_tree.specs.Stored.{setups_start};

use crate::Move;
use std::mem::size_of;

// One node, in 16 bytes. The number of a node is less than 65,536, and that of a child is more than
// 0.
#[derive(Clone, Copy, Debug)]
pub(crate) struct TreeNode {
    // Where the node's setups end in the list of the tree's setups. They begin where those of the
    // node before it end.
    pub(crate) setups_end: u32,
    // The parent's number; 0 at the root, too.
    pub(crate) parent: u16,
    // The next child of the parent; 0 if there is none.
    pub(crate) next_sibling: u16,
    // How many moves and passes stand on the path from the root to the node, without its own.
    pub(crate) moves_above: u16,
    pub(crate) played: Option<Move>,
}

const _: () = prove!(size_of::<TreeNode>() == 16);

// Where the setups of a node begin: where those of the node before it end.
pub(crate) fn setups_start(nodes: &[TreeNode], n: usize) -> usize
    requires { n < length nodes.now }
    ensures { result ≡ setups_start nodes.now n }
{
    if n == 0 {
        0
    } else {
        nodes[n - 1].setups_end as usize
    }
}
