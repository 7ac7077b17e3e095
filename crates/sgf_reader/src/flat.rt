// A collection that is stored flat: all values in one list, all nodes in another.
ghost use Rattle.std.specs.Prelude.{◌≡◌, ◌<◌, ◌≤◌, length, get_or, take};
ghost use Rattle.std.specs.List.{between};
ghost use Rattle.sgf_reader.specs.Flat.{IsFlat, last_end, shown_collection, start_of};

use crate::Pair;
use std::marker::Model;
use std::mem::size_of;

/// The games of a text in three lists, however many nodes they have: the values of all nodes, the
/// nodes of all games, and the games.
///
/// Contracts see it as the same collection that [`Collection`](crate::Collection) is.
#[derive(Debug, Drop)]
pub struct FlatCollection {
    pairs: Vec<Pair>,
    nodes: Vec<NodeStart>,
    // For each game the place behind its last node.
    ends: Vec<usize>,
}

/// A game of a flat collection. Contracts see it as a [`RawGame`](crate::RawGame).
#[derive(Debug, Drop)]
pub struct FlatGame<'a> {
    // The values of this game and of those before it.
    pairs: &'a [Pair],
    nodes: &'a [NodeStart],
}

/// A node of a flat collection. Contracts see it as a [`RawNode`](crate::RawNode).
#[derive(Debug, Drop)]
pub struct FlatNode<'a> {
    parent: Option<u32>,
    pairs: &'a [Pair],
}

// A node as it is stored: its parent, and the place of its first value. They go up to the first
// value of the next node.
#[derive(Clone, Copy, Debug)]
pub(crate) struct NodeStart {
    pub parent: Option<u32>,
    pub values_from: usize,
}

const _: () = prove!(size_of::<NodeStart>() == 16);

const _: () = prove!(size_of::<NodeStart>() == 16);

impl Model for FlatCollection {
    ghost use Rattle.sgf_reader.specs.declared.collection.Collection.{Collection};
    ghost use Rattle.sgf_reader.specs.Flat.{IsFlat, shown_collection};

    ghost Value = { Collection };

    ghost view = { λ c. shown_collection c.pairs.items c.nodes.items c.ends.items };

    ghost invariant = { λ c. IsFlat c.pairs.items c.nodes.items c.ends.items };
}

impl<'a> Model for FlatGame<'a> {
    ghost use Rattle.std.specs.Prelude.{length};
    ghost use Rattle.sgf_reader.specs.declared.collection.RawGame.{RawGame};
    ghost use Rattle.sgf_reader.specs.Flat.{AreStarts, shown_nodes};

    ghost Value = { RawGame };

    ghost view = { λ g. record { nodes = shown_nodes g.nodes.now g.pairs.now } };

    ghost invariant = { λ g. AreStarts 0 g.nodes.now (length g.pairs.now) };
}

impl<'a> Model for FlatNode<'a> {
    ghost use Rattle.sgf_reader.specs.declared.collection.RawNode.{RawNode};

    ghost Value = { RawNode };

    ghost view = { λ n. record { parent = n.parent; pairs = n.pairs.now } };
}

// Where the values of the node with this number begin, or where all end behind the last node.
fn start_of(nodes: &[NodeStart], number: usize, pairs: &[Pair]) -> usize
    ensures { result ≡ start_of nodes.now number pairs.now }
{
    match nodes.get(number) {
        Some(node) => node.values_from,
        None => pairs.len(),
    }
}

// The items from one place up to another.
fn part<T>(items: &[T], from: usize, end: usize) -> &[T]
    requires order { from ≤ end }
    requires within { end ≤ length items.now }
    ensures { result.now ≡ between from end items.now }
{
    &items[from..end]
}

// Where the game before this one ends.
fn end_before(ends: &[usize], number: usize) -> usize
    requires { number < length ends.now }
    ensures { result ≡ last_end 0 (take number ends.now) }
{
    if number == 0 { 0 } else { ends[number - 1] }
}

impl FlatCollection {
    // The collection that is stored so.
    pub(crate) fn stored(pairs: Vec<Pair>, nodes: Vec<NodeStart>, ends: Vec<usize>) -> Self
        requires { IsFlat pairs.items nodes.items ends.items }
        ensures { result ≡ shown_collection pairs.items nodes.items ends.items }
    {
        FlatCollection { pairs, nodes, ends }
    }

    /// How many games there are.
    pub fn game_count(&self) -> usize
        ensures { result ≡ length self.now.games }
    {
        self.ends.len()
    }

    /// The game with this number, from 0.
    pub fn game(&self, number: usize) -> FlatGame<'_>
        requires { number < length self.now.games }
        ensures { result ≡ get_or self.now.games number result }
    {
        let from = end_before(&self.ends, number);
        let end = self.ends[number];
        let values_end = start_of(&self.nodes, end, &self.pairs);
        FlatGame {
            pairs: part(&self.pairs, 0, values_end),
            nodes: part(&self.nodes, from, end),
        }
    }
}

impl<'a> FlatGame<'a> {
    /// How many nodes there are.
    pub fn node_count(&self) -> usize
        ensures { result ≡ length self.now.nodes }
    {
        let _pairs = self.pairs;
        self.nodes.len()
    }

    /// The node with this number, from 0, the root.
    pub fn node(&self, number: usize) -> FlatNode<'a>
        requires { number < length self.now.nodes }
        ensures { result ≡ get_or self.now.nodes number result }
    {
        let nodes = self.nodes;
        let node = nodes[number];
        let values_end = start_of(nodes, number + 1, self.pairs);
        FlatNode {
            parent: node.parent,
            pairs: part(self.pairs, node.values_from, values_end),
        }
    }
}

impl<'a> FlatNode<'a> {
    /// The number of the node's parent, which the root has not.
    pub fn parent(&self) -> Option<u32>
        ensures { result ≡ self.now.parent }
    {
        let _pairs = self.pairs;
        self.parent
    }

    /// The values of the node in order of the text.
    pub fn pairs(&self) -> &'a [Pair]
        ensures { result.now ≡ self.now.pairs }
    {
        self.pairs
    }
}
