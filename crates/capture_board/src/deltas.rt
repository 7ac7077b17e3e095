// The changes at each node of a game.
ghost use Rattle.std.specs.Prelude.{◌≡◌, ◌<◌, ◌≤◌, ◌++◌, IfOk, IfSome, OnErr, OnOk, length};
ghost use Rattle.capture_board.specs.StoredDeltas.{changes_start};

use kb_geometry::{Change, NoMemory, Shape};
use std::alloc::Global;
use std::marker::Model;
use std::mem::size_of;

// One node. The number of a node is less than 65,536.
#[derive(Clone, Copy, Debug)]
struct StoredNode {
    // The parent's number; 0 at the root, too.
    parent: u16,
    // Where the node's changes end in the list of all changes. They begin where those of the node
    // before it end. In two halves, since a field of 32 bits would make it eight bytes.
    end_high: u16,
    end_low: u16,
}

const _: () = prove!(size_of::<StoredNode>() == 6);

impl StoredNode {
    ghost use Rattle.capture_board.specs.StoredDeltas.{changes_end};

    // The node with this parent whose changes end there.
    fn new(parent: u16, end: u32) -> StoredNode
        ensures parent { result.parent ≡ parent }
        ensures end { changes_end result ≡ end }
    {
        StoredNode {
            parent,
            end_high: (end / 65536) as u16,
            end_low: (end % 65536) as u16,
        }
    }

    // Where the node's changes end.
    fn changes_end(self) -> u32
        ensures { result ≡ changes_end self }
    {
        u32::from(self.end_high) * 65536 + u32::from(self.end_low)
    }
}

const _: () = prove!(size_of::<Change>() == 4);

/// The board of a game, and for each node its parent and what it changes against the position at
/// its parent.
///
/// Nodes are numbered from 0, the root, in order of the text. At the root the changes are those
/// against the empty board. The changes of a node are on points of their own, by point ascending.
// The changes of all nodes stand in one list, four bytes each.
#[derive(Debug, Drop)]
pub struct NodeDeltas {
    shape: Shape,
    nodes: Vec<StoredNode>,
    changes: Vec<Change>,
}

impl Model for NodeDeltas {
    ghost use Rattle.capture_board.specs.Deltas.{Deltas};
    ghost use Rattle.capture_board.specs.StoredDeltas.{shown_deltas, IsStored};

    ghost Value = { Deltas };

    ghost view = { λ d. shown_deltas d.shape d.nodes.items d.changes.items };

    ghost invariant = { λ d. IsStored d.shape d.nodes.items d.changes.items };
}

impl NodeDeltas {
    ghost use Rattle.capture_board.specs.Changes.{AreChangesOf};
    ghost use Rattle.capture_board.specs.Deltas.{
      AreDeltas,
      IsNextParent,
      changes_of,
      no_nodes,
      node_count,
      parent_of,
      position_where,
      with_node,
    };

    /// No node yet, on this board.
    pub fn new(alloc: Global, shape: Shape) -> Self
        ensures { result ≡ no_nodes shape }
    {
        NodeDeltas {
            shape,
            nodes: Vec::new(alloc),
            changes: Vec::new(alloc),
        }
    }

    /// No node yet, on this board, with room for so many nodes that change one point each. The only
    /// error is `NoMemory`.
    pub fn with_room(alloc: Global, shape: Shape, nodes: u32) -> Result<Self, NoMemory>
        ensures { IfOk result (λ deltas. deltas ≡ no_nodes shape) }
    {
        Ok(NodeDeltas {
            shape,
            nodes: Vec::with_capacity(alloc, nodes as usize)?,
            changes: Vec::with_capacity(alloc, nodes as usize)?,
        })
    }

    /// Gives back the room that the nodes and their changes don't take. Where the allocator refuses
    /// a smaller block, the room stays.
    pub fn shrink_to_fit(&mut self)
        ensures { self.new ≡ self.old }
    {
        self.nodes.shrink_to_fit();
        self.changes.shrink_to_fit();
    }

    /// The next node, with its parent and its changes. After `NoMemory` all is as before.
    pub fn push(&mut self, parent: Option<u32>, changes: &[Change]) -> Result<(), NoMemory>
        requires room { node_count self.old < 65536 }
        requires parent { IsNextParent self.old parent }
        requires changes { AreChangesOf (position_where self.old parent) changes.now }
        ensures ok { OnOk result (self.new ≡ with_node self.old parent changes.now) }
        ensures error { OnErr result (self.new ≡ self.old) }
    {
        self.nodes.reserve(1)?;
        append(&mut self.changes, changes)?;
        let end = self.changes.len() as u32;
        let node = StoredNode::new(parent.unwrap_or(0) as u16, end);
        self.nodes.push(node)?;
        Ok(())
    }

    /// The board.
    pub fn shape(&self) -> Shape
        ensures value { result ≡ self.now.shape }
        ensures deltas { AreDeltas self.now }
    {
        let _nodes = &self.nodes;
        self.shape
    }

    /// How many nodes there are, at most 65,536.
    pub fn node_count(&self) -> u32
        ensures value { result ≡ node_count self.now }
        ensures most { result ≤ 65536 }
        ensures deltas { AreDeltas self.now }
    {
        self.nodes.len() as u32
    }

    /// The parent of a node. The root has none.
    pub fn parent(&self, n: u32) -> Option<u32>
        requires { n < node_count self.now }
        ensures value { result ≡ parent_of self.now n }
        ensures before { IfSome result (λ m. m < n) }
        ensures deltas { AreDeltas self.now }
    {
        if n == 0 {
            None
        } else {
            Some(u32::from(self.nodes[n as usize].parent))
        }
    }

    /// What a node changes against the position at its parent, or against the empty board at the
    /// root.
    pub fn changes(&self, n: u32) -> &[Change]
        requires { n < node_count self.now }
        ensures value { result.now ≡ changes_of self.now n }
        ensures changes { AreChangesOf (position_where self.now (parent_of self.now n)) result.now }
        ensures deltas { AreDeltas self.now }
    {
        let nodes = self.nodes.as_slice();
        let start = changes_start(nodes, n as usize);
        let end = nodes[n as usize].changes_end() as usize;
        &self.changes[start..end]
    }

    /// Equal changes. The only error is `NoMemory`. For the library's callers
    /// and tests: the program copies none.
    pub fn copy(&self, alloc: Global) -> Result<NodeDeltas, NoMemory>
        ensures { IfOk result (λ copied. copied ≡ self.now) }
    {
        let nodes = self.nodes.as_slice().to_vec(alloc)?;
        let changes = self.changes.as_slice().to_vec(alloc)?;
        Ok(NodeDeltas {
            shape: self.shape,
            nodes,
            changes,
        })
    }
}

// Adds changes to others. Mostly there is one.
fn append(all: &mut Vec<Change>, changes: &[Change]) -> Result<(), NoMemory>
    ensures ok { OnOk result (all.new.items ≡ all.old.items ++ changes.now) }
    ensures error { OnErr result (all.new.items ≡ all.old.items) }
{
    if let [change] = changes {
        all.push(*change)?;
        return Ok(());
    }
    all.extend_from_slice(changes)?;
    Ok(())
}

// Where the changes of a node begin: where those of the node before it end.
fn changes_start(nodes: &[StoredNode], n: usize) -> usize
    requires { n < length nodes.now }
    ensures { result ≡ changes_start nodes.now n }
{
    if n == 0 {
        0
    } else {
        nodes[n - 1].changes_end() as usize
    }
}
