// The planes of order of the games of a block.
ghost use Rattle.std.specs.Prelude.{
  ◌≡◌,
  ◌<◌,
  ◌≤◌,
  length,
  map,
  All,
  Contains,
  IfOk,
  IfSome,
  OnOk,
};
ghost use Rattle.std.specs.Arc.{arc_value};
ghost use Rattle.segment_store.specs.Orders.{AreOrdersOn, HasOrderMore};

use crate::block_planes::is_on;
use crate::finished::FinishedGame;
use final_index::OrderPlanes;
use kb_geometry::{NoMemory, Shape};
use std::alloc::Global;
use std::sync::Arc;

// A block with fewer games has no planes of order: they would take much room for each game, and most
// such blocks are soon joined to others.
pub(crate) const LEAST: usize = 8;

// The planes of order of these games, for each of the shapes, if there are enough games.
pub(crate) fn orders_of(
    alloc: Global,
    games: &[Arc<FinishedGame>],
    shapes: &[Shape],
) -> Result<Vec<OrderPlanes>, NoMemory>
    requires { length games.now ≤ 64 }
    ensures { IfOk result (λ orders. All (AreOrdersOn (map arc_value games.now)) orders.items) }
{
    let mut orders = Vec::new(alloc);
    if games.len() < LEAST {
        return Ok(orders);
    }
    for shape in shapes {
        orders.push(order_on(alloc, games, *shape)?)?;
    }
    orders.shrink_to_fit();
    Ok(orders)
}

// The planes of order of these games on boards of one shape.
pub(crate) fn order_on(
    alloc: Global,
    games: &[Arc<FinishedGame>],
    shape: Shape,
) -> Result<OrderPlanes, NoMemory>
    requires { length games.now ≤ 64 }
    ensures shape { IfOk result (λ order. order.shape ≡ shape) }
    ensures on { IfOk result (AreOrdersOn (map arc_value games.now)) }
{
    let mut order = OrderPlanes::new(alloc, shape)?;
    for game in games {
        add_game(alloc, &mut order, game)?;
    }
    Ok(order)
}

// Adds a game: with its changes, if its board has the shape.
fn add_game(alloc: Global, order: &mut OrderPlanes, game: &FinishedGame) -> Result<(), NoMemory>
    requires { order.old.count < 64 }
    ensures { OnOk result (HasOrderMore game.now.tree order.old order.new) }
{
    if !is_on(game, order.shape()) {
        order.push_other();
        return Ok(());
    }
    order.push(alloc, game.deltas())
}

// Those of them that are for boards of a shape.
pub(crate) fn order_with(orders: &[OrderPlanes], shape: Shape) -> Option<&OrderPlanes>
    ensures { IfSome result (λ found. (found.now.shape ≡ shape) × Contains orders.now found.now) }
{
    for found in orders {
        if found.shape() == shape {
            return Some(found);
        }
    }
    None
}
