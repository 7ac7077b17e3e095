// Parents, by the nodes at which the text goes back.
ghost use Rattle.std.specs.Prelude.{◌≡◌, ◌+◌, ◌<◌, All, IfSome};
ghost use Rattle.capture_index.specs.declared.run.Branch.{Branch};
ghost use Rattle.capture_index.specs.Branches.{AreAscending, IsFirstAt, parent_by};
ghost use Rattle.capture_index.specs.Seen.{GoesOnTo};

use crate::run::Branch;

// The parent of a node: that of a branch at the node, or the node before. The root has none.
pub(crate) fn parent(branches: &[Branch], node: u32) -> Option<u32>
    requires { AreAscending branches.now }
    ensures value { result ≡ parent_by branches.now node }
    ensures before { All (λ (b : Branch). b.parent < b.node) branches.now →
        IfSome result (λ m. m < node) }
{
    if node == 0 {
        return None;
    }
    let at = first_at(branches, node);
    if at == branches.len() {
        return Some(node - 1);
    }
    let branch = branches[at];
    if u32::from(branch.node) == node {
        Some(u32::from(branch.parent))
    } else {
        Some(node - 1)
    }
}

// The first branch behind the node; the number of nodes, where there is none.
pub(crate) fn next_branch(branches: &[Branch], node: u32, nodes: u32) -> u32
    requires ascending { AreAscending branches.now }
    requires in_range { node < nodes }
    ensures { GoesOnTo (parent_by branches.now) nodes node result }
{
    let at = first_at(branches, node + 1);
    if at == branches.len() {
        return nodes;
    }
    nodes.min(u32::from(branches[at].node))
}

// How many branches are at nodes before this one.
pub(crate) fn first_at(branches: &[Branch], node: u32) -> usize
    requires { AreAscending branches.now }
    ensures { IsFirstAt branches.now node result }
{
    let mut low = 0;
    let mut high = branches.len();
    while low < high {
        let middle = low + (high - low) / 2;
        if u32::from(branches[middle].node) < node {
            low = middle + 1;
        } else {
            high = middle;
        }
    }
    low
}
