// The planes of the games of a block.
ghost use Rattle.std.specs.Prelude.{
  ◌≡◌,
  ◌≢◌,
  ◌<◌,
  ◌≤◌,
  ◌↔◌,
  length,
  map,
  All,
  Contains,
  IfNone,
  IfOk,
  IfSome,
  IsTrue,
};
ghost use Rattle.std.specs.Arc.{arc_value};
ghost use Rattle.game_tree.specs.Tree.{IsTree};
ghost use Rattle.segment_store.specs.Planes.{AreMadeFor, ArePlanesFor, IsGameAdded};

use crate::finished::FinishedGame;
use final_index::Planes;
use kb_geometry::{NoMemory, Shape};
use std::alloc::Global;
use std::sync::Arc;

// The planes of these games, for each of the shapes.
pub(crate) fn planes_of(
    alloc: Global,
    games: &[Arc<FinishedGame>],
    shapes: &[Shape],
) -> Result<Vec<Planes>, NoMemory>
    requires { length games.now ≤ 64 }
    ensures { IfOk result (λ planes.
        AreMadeFor shapes.now (map arc_value games.now) planes.items) }
{
    let mut planes = Vec::with_capacity(alloc, shapes.len())?;
    for shape in shapes {
        planes.push(planes_on(alloc, games, *shape)?)?;
    }
    Ok(planes)
}

// The planes of these games on boards of one shape.
fn planes_on(alloc: Global, games: &[Arc<FinishedGame>], shape: Shape) -> Result<Planes, NoMemory>
    requires { length games.now ≤ 64 }
    ensures { IfOk result (ArePlanesFor shape (map arc_value games.now)) }
{
    let mut planes = Planes::new(alloc, shape)?;
    for game in games {
        add_game(&mut planes, game);
    }
    Ok(planes)
}

// Adds a game: with its sets, if its board has the shape.
fn add_game(planes: &mut Planes, game: &FinishedGame)
    requires { length planes.old.games < 64 }
    ensures { IsGameAdded game.now.tree planes.old planes.new }
{
    if is_on(game, planes.shape()) {
        planes.push(Some(game.ever()));
    } else {
        planes.push(None);
    }
}

// Whether the board of a game has this shape.
pub(crate) fn is_on(game: &FinishedGame, shape: Shape) -> bool
    ensures shape { IsTrue result ↔ (game.now.tree.shape ≡ shape) }
    ensures tree { IsTree game.now.tree }
{
    game.tree().shape() == shape
}

// Those of the planes that are for boards of the shape.
pub(crate) fn planes_with(planes: &[Planes], shape: Shape) -> Option<&Planes>
    ensures some { IfSome result (λ found.
        (found.now.shape ≡ shape) × Contains planes.now found.now) }
    ensures none { IfNone result (All (λ p. p.shape ≢ shape) planes.now) }
{
    for found in planes {
        if found.shape() == shape {
            return Some(found);
        }
    }
    None
}
