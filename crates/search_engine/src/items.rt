// The blocks of a version's parts in one list, of which pieces are searched side by side.
ghost use Rattle.std.specs.Prelude.{
  ◌≡◌,
  ◌≤◌,
  ◌+◌,
  ◌-◌,
  ◌++◌,
  ℕ,
  List,
  IfOk,
  OnOk,
  drop,
  length,
};
ghost use Rattle.node_position.specs.Games.{Game};
ghost use Rattle.version_publisher.specs.Contents.{items_in};
ghost use Rattle.search_engine.specs.Items.{AreItems};

use crate::item::Item;
use kb_geometry::NoMemory;
use segment_store::{Block, Segment};
use std::alloc::Global;
use version_publisher::Version;

// The blocks of all parts of a version, whose games are numbered from 0.
pub(crate) fn items_of_version<'a>(
    alloc: Global,
    version: &'a Version<Segment>,
) -> Result<Vec<Item<'a>>, NoMemory>
    ensures { IfOk result (λ items. AreItems 0 (items_in version.now.parts) items.items) }
{
    let mut items = Vec::new(alloc);
    let mut first = 0;
    for part in version.parts() {
        let part: &'a Segment = &*part;
        add_items(part, 0, first, &mut items)?;
        first += part.game_count();
    }
    Ok(items)
}

// The blocks of a part that have games from the one with number `from` in the part on. These games
// are numbered from a first number on.
pub(crate) fn items_of_part<'a>(
    alloc: Global,
    part: &'a Segment,
    from: u32,
    first: u32,
) -> Result<Vec<Item<'a>>, NoMemory>
    requires { first + length (drop from part.now) ≤ 400000 }
    ensures { IfOk result (λ items. AreItems first (drop from part.now) items.items) }
{
    let mut items = Vec::new(alloc);
    add_items(part, from, first, &mut items)?;
    Ok(items)
}

// Adds the blocks of a part that have games from the one with number `from` on, behind those of other
// games, of which the last has the number before `first`.
fn add_items<'a>(
    part: &'a Segment,
    from: u32,
    first: u32,
    items: &mut Vec<Item<'a>>,
) -> Result<(), NoMemory>
    requires { first + length (drop from part.now) ≤ 400000 }
    ensures { OnOk result ((base : ℕ) (games : List Game) → AreItems base games items.old.items →
        first ≡ base + length games →
        AreItems base (games ++ drop from part.now) items.new.items) }
{
    for numbered in part.blocks() {
        let block: &'a Block = &*numbered.block;
        add_item(block, numbered.first, from, first, items)?;
    }
    Ok(())
}

// Adds a block of a part, in which its first game has the number `at`. A block that ends before the
// game with number `from` is passed over, and of one that begins before it the games before it are
// left out.
fn add_item<'a>(
    block: &'a Block,
    at: u32,
    from: u32,
    first: u32,
    items: &mut Vec<Item<'a>>,
) -> Result<(), NoMemory>
    requires { first + (at - from) + length (drop (from - at) block.now) ≤ 400000 }
    ensures { OnOk result ((base : ℕ) (games before : List Game) →
        AreItems base (games ++ drop from before) items.old.items →
        first ≡ base + length games → at ≡ length before →
        AreItems base (games ++ drop from (before ++ block.now)) items.new.items) }
{
    let skip = from.saturating_sub(at) as usize;
    if skip >= block.len() {
        return Ok(());
    }
    items.push(Item {
        first: first + at.saturating_sub(from),
        block,
        skip,
    })?;
    Ok(())
}
