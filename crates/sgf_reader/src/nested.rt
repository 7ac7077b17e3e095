// From a flat collection to lists in lists, and back.
ghost use Rattle.std.specs.Prelude.{◌≡◌, ◌++◌, IfOk, length};
ghost use Rattle.sgf_reader.specs.Flat.{AreStarts, shown_nodes};

use crate::flat::NodeStart;
use crate::{
    Collection, FlatCollection, FlatGame, Pair, PairList, RawGame, RawGameList, RawNode,
    RawNodeList,
};
use std::alloc::{AllocError, Global};

impl FlatCollection {
    /// The same collection as lists in lists. The only error is want of memory.
    pub fn to_collection(&self, alloc: Global) -> Result<Collection, AllocError>
        ensures { IfOk result (λ collection. collection ≡ self.now) }
    {
        let mut games = Vec::with_capacity(alloc, self.game_count())?;
        for number in 0..self.game_count() {
            let game = raw_game(alloc, &self.game(number))?;
            games.push(game)?;
        }
        Ok(Collection {
            games: RawGameList::new(games),
        })
    }

    /// The same collection stored flat. The only error is want of memory.
    pub fn of(alloc: Global, collection: &Collection) -> Result<FlatCollection, AllocError>
        ensures { IfOk result (λ flat. flat ≡ collection.now) }
    {
        let mut pairs = Vec::new(alloc);
        let mut nodes = Vec::new(alloc);
        let mut ends = Vec::new(alloc);
        for game in collection.games.as_slice() {
            add_nodes(&mut pairs, &mut nodes, game)?;
            ends.push(nodes.len())?;
        }
        Ok(FlatCollection::stored(pairs, nodes, ends))
    }
}

// A game as a list of nodes.
fn raw_game(alloc: Global, game: &FlatGame<'_>) -> Result<RawGame, AllocError>
    ensures { IfOk result (λ raw. raw ≡ game.now) }
{
    let mut nodes = Vec::with_capacity(alloc, game.node_count())?;
    for number in 0..game.node_count() {
        let node = game.node(number);
        nodes.push(RawNode {
            parent: node.parent(),
            pairs: values_of(alloc, node.pairs())?,
        })?;
    }
    Ok(RawGame {
        nodes: RawNodeList::new(nodes),
    })
}

// Values as a list of their own.
fn values_of(alloc: Global, pairs: &[Pair]) -> Result<PairList, AllocError>
    ensures { IfOk result (λ values. values ≡ pairs.now) }
{
    let mut values = Vec::with_capacity(alloc, pairs.len())?;
    values.extend_from_slice(pairs)?;
    Ok(PairList::new(values))
}

// Adds the nodes of a game to a flat list of nodes, and their values to that of values.
fn add_nodes(
    pairs: &mut Vec<Pair>,
    nodes: &mut Vec<NodeStart>,
    game: &RawGame,
) -> Result<(), AllocError>
    requires { AreStarts 0 nodes.old.items (length pairs.old.items) }
    ensures { IfOk result (λ _. AreStarts 0 nodes.new.items (length pairs.new.items)
        × (shown_nodes nodes.new.items pairs.new.items
        ≡ shown_nodes nodes.old.items pairs.old.items ++ game.now.nodes)) }
{
    for node in game.nodes.as_slice() {
        nodes.push(NodeStart {
            parent: node.parent,
            values_from: pairs.len(),
        })?;
        pairs.extend_from_slice(node.pairs.as_slice())?;
    }
    Ok(())
}
