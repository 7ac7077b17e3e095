// Games in a row that several segments share.
ghost use Rattle.std.specs.Prelude.{
  ◌≡◌,
  ◌<◌,
  ◌≤◌,
  ◌+◌,
  ◌++◌,
  length,
  map,
  All,
  Some,
  IfOk,
  IfSome,
  OnOk,
};
ghost use Rattle.std.specs.Arc.{arc_value};
ghost use Rattle.std.specs.List.{slice_get};
ghost use Rattle.game_tree.specs.Tree.{IsTree};
ghost use Rattle.node_position.specs.Games.{Game};
ghost use Rattle.segment_store.specs.BoardShapes.{AreDifferent, AreShapesWith, HaveShapes};
ghost use Rattle.segment_store.specs.Orders.{AreOrdersOn};
ghost use Rattle.segment_store.specs.Planes.{AreMadeFor, ArePlanesFor, ArePlanesOf};

use crate::block_order::{LEAST, order_on, order_with, orders_of};
use crate::block_planes::{planes_of, planes_with};
use crate::finished::FinishedGame;
use final_index::{OrderPlanes, Planes};
use kb_geometry::{NoMemory, Shape};
use std::alloc::Global;
use std::marker::Model;
use std::sync::Arc;
use std::vec::VecCloneMethods;

// The most games of a block.
pub(crate) const MAX_BLOCK: usize = 64;

/// From 1 to 64 games in a row, which several segments may share. Contracts see the list of them.
#[derive(Debug, Drop)]
pub struct Block {
    games: Vec<Arc<FinishedGame>>,
    // The shapes of their boards, each once.
    shapes: Vec<Shape>,
    // The planes of the games, for each of the shapes.
    planes: Vec<Planes>,
    // Those of their order, for each of the shapes; none where there are few games.
    orders: Vec<OrderPlanes>,
}

impl Model for Block {
    ghost use Rattle.std.specs.Prelude.{List, map, length, ◌<◌, ◌≤◌, All};
    ghost use Rattle.std.specs.Arc.{arc_value};
    ghost use Rattle.game_tree.specs.Tree.{IsTree};
    ghost use Rattle.node_position.specs.Games.{Game};
    ghost use Rattle.segment_store.specs.BoardShapes.{HaveShapes};
    ghost use Rattle.segment_store.specs.Orders.{AreOrdersOn};
    ghost use Rattle.segment_store.specs.Planes.{ArePlanesOf};

    ghost Value = { List Game };

    ghost view = { λ b. map arc_value b.games.items };

    ghost invariant = { λ b. (0 < length b.games.items) × (length b.games.items ≤ 64)
        × HaveShapes (map arc_value b.games.items) b.shapes.items
        × ArePlanesOf (map arc_value b.games.items) b.planes.items
        × All (AreOrdersOn (map arc_value b.games.items)) b.orders.items
        × All (λ (g : Game). IsTree g.tree) (map arc_value b.games.items) };
}

/// A block of a segment, and the number that its first game has there, from 0.
#[derive(Debug, Drop)]
pub struct NumberedBlock {
    /// The number of its first game.
    pub first: u32,
    /// Its games.
    pub block: Arc<Block>,
}

impl Block {
    // These games, from 1 to 64.
    pub(crate) fn of(alloc: Global, games: &[Arc<FinishedGame>]) -> Result<Block, NoMemory>
        requires some { 0 < length games.now }
        requires few { length games.now ≤ 64 }
        ensures { IfOk result (λ block. block ≡ map arc_value games.now) }
    {
        let games = joined(alloc, games, &[])?;
        let shapes = shapes_of(alloc, games.as_slice())?;
        let planes = planes_of(alloc, games.as_slice(), shapes.as_slice())?;
        let orders = orders_of(alloc, games.as_slice(), shapes.as_slice())?;
        Ok(Block {
            games,
            shapes,
            planes,
            orders,
        })
    }

    // The games of two blocks, together at most 64.
    pub(crate) fn join(alloc: Global, a: &Block, b: &Block) -> Result<Block, NoMemory>
        requires { length a.now + length b.now ≤ 64 }
        ensures { IfOk result (λ block. block ≡ a.now ++ b.now) }
    {
        let games = joined(alloc, a.games.as_slice(), b.games.as_slice())?;
        let shapes = shapes_of(alloc, games.as_slice())?;
        let planes = joined_planes(alloc, a, b, shapes.as_slice())?;
        let orders = joined_orders(alloc, a, b, games.as_slice(), shapes.as_slice())?;
        Ok(Block {
            games,
            shapes,
            planes,
            orders,
        })
    }

    /// How many games it has, from 1 to 64.
    pub fn len(&self) -> usize
        ensures value { result ≡ length self.now }
        ensures some { 0 < result }
        ensures most { result ≤ 64 }
    {
        self.games.len()
    }

    /// The shapes of the boards of its games.
    pub fn shapes(&self) -> &[Shape]
        ensures { HaveShapes self.now result.now }
    {
        self.shapes.as_slice()
    }

    /// For each shape of the boards the planes of the games: for each cell and point a bit for each
    /// game that had the cell there at some node. Games on other boards have no bit.
    pub fn planes(&self) -> &[Planes]
        ensures value { ArePlanesOf self.now result.now }
        ensures few { length self.now ≤ 64 }
    {
        self.planes.as_slice()
    }

    /// The planes of order of its games on boards of a shape: where a game has no bit, a point had a
    /// stone at no node at which its neighbour was empty. A block of few games has none.
    pub fn order_on(&self, shape: Shape) -> Option<&OrderPlanes>
        ensures value { IfSome result (λ order.
            (order.now.shape ≡ shape) × AreOrdersOn self.now order.now) }
        ensures few { length self.now ≤ 64 }
    {
        order_with(self.orders.as_slice(), shape)
    }

    /// The game at this place in the block, from 0.
    pub fn get(&self, at: usize) -> &FinishedGame
        requires { at < length self.now }
        ensures value { slice_get self.now at ≡ Some result.now }
        ensures tree { IsTree result.now.tree }
        ensures few { length self.now ≤ 64 }
    {
        &*self.games[at]
    }
}

// The planes of the games of two blocks, for each of the shapes.
fn joined_planes(
    alloc: Global,
    a: &Block,
    b: &Block,
    shapes: &[Shape],
) -> Result<Vec<Planes>, NoMemory>
    requires { length a.now + length b.now ≤ 64 }
    ensures { IfOk result (λ planes. AreMadeFor shapes.now (a.now ++ b.now) planes.items) }
{
    let mut planes = Vec::with_capacity(alloc, shapes.len())?;
    for shape in shapes {
        planes.push(joined_on(alloc, a, b, *shape)?)?;
    }
    Ok(planes)
}

// The planes of the games of two blocks on boards of one shape. A block without such boards has no
// planes for them.
fn joined_on(alloc: Global, a: &Block, b: &Block, shape: Shape) -> Result<Planes, NoMemory>
    requires { length a.now + length b.now ≤ 64 }
    ensures { IfOk result (ArePlanesFor shape (a.now ++ b.now)) }
{
    match (
        planes_with(a.planes(), shape),
        planes_with(b.planes(), shape),
    ) {
        (Some(one), Some(other)) => Planes::join(alloc, one, other),
        (Some(one), None) => Planes::join(alloc, one, &Planes::none(alloc, shape, b.len())?),
        (None, Some(other)) => Planes::join(alloc, &Planes::none(alloc, shape, a.len())?, other),
        (None, None) => Planes::none(alloc, shape, a.len() + b.len()),
    }
}

// The planes of order of the games of two blocks, which these are, for each of the shapes.
fn joined_orders(
    alloc: Global,
    a: &Block,
    b: &Block,
    games: &[Arc<FinishedGame>],
    shapes: &[Shape],
) -> Result<Vec<OrderPlanes>, NoMemory>
    requires games { map arc_value games.now ≡ a.now ++ b.now }
    requires few { length a.now + length b.now ≤ 64 }
    ensures { IfOk result (λ orders. All (AreOrdersOn (a.now ++ b.now)) orders.items) }
{
    let mut orders = Vec::new(alloc);
    if games.len() < LEAST {
        return Ok(orders);
    }
    for shape in shapes {
        orders.push(joined_order(alloc, a, b, games, *shape)?)?;
    }
    orders.shrink_to_fit();
    Ok(orders)
}

// Those for boards of one shape. Where one of the blocks has none, they are made anew.
fn joined_order(
    alloc: Global,
    a: &Block,
    b: &Block,
    games: &[Arc<FinishedGame>],
    shape: Shape,
) -> Result<OrderPlanes, NoMemory>
    requires games { map arc_value games.now ≡ a.now ++ b.now }
    requires few { length a.now + length b.now ≤ 64 }
    ensures { IfOk result (AreOrdersOn (a.now ++ b.now)) }
{
    let (Some(one), Some(other)) = (a.order_on(shape), b.order_on(shape)) else {
        return order_on(alloc, games, shape);
    };
    OrderPlanes::join(alloc, one, other)
}

// The shapes of the boards of these games, each once.
fn shapes_of(alloc: Global, games: &[Arc<FinishedGame>]) -> Result<Vec<Shape>, NoMemory>
    ensures all { IfOk result (λ shapes. HaveShapes (map arc_value games.now) shapes.items) }
    ensures trees { IfOk result (λ _. All (λ (g : Game). IsTree g.tree) (map arc_value games.now)) }
    ensures different { IfOk result (λ shapes. AreDifferent shapes.items) }
{
    let mut shapes = Vec::new(alloc);
    for game in games {
        add_shape(&mut shapes, game.tree().shape())?;
    }
    shapes.shrink_to_fit();
    Ok(shapes)
}

// Adds a shape, unless it is there.
fn add_shape(shapes: &mut Vec<Shape>, shape: Shape) -> Result<(), NoMemory>
    ensures all { OnOk result (AreShapesWith shape shapes.old.items shapes.new.items) }
    ensures different { OnOk result
        (AreDifferent shapes.old.items → AreDifferent shapes.new.items) }
{
    if !shapes.contains(&shape) {
        shapes.push(shape)?;
    }
    Ok(())
}

// The games of both lists, in order. No game is copied.
fn joined(
    alloc: Global,
    a: &[Arc<FinishedGame>],
    b: &[Arc<FinishedGame>],
) -> Result<Vec<Arc<FinishedGame>>, NoMemory>
    ensures games { IfOk result (λ both.
        map arc_value both.items ≡ map arc_value a.now ++ map arc_value b.now) }
    ensures count { IfOk result (λ both. length both.items ≡ length a.now + length b.now) }
{
    let mut games = Vec::from_clones(alloc, a)?;
    games.extend_from_slice(b)?;
    games.shrink_to_fit();
    Ok(games)
}
