// All games of a version.
ghost use Rattle.std.specs.Prelude.{◌≡◌, ◌≤◌, ◌++◌, IfOk, OnOk, length, map};
ghost use Rattle.version_publisher.specs.Contents.{items_in};

use crate::block::Block;
use crate::finished::FinishedGame;
use crate::segment::Segment;
use kb_geometry::NoMemory;
use std::alloc::Global;
use version_publisher::Version;

/// All games of a version, in order of their numbers, from 0. The only error is `NoMemory`.
pub fn games<'a>(
    alloc: Global,
    version: &'a Version<Segment>,
) -> Result<Vec<&'a FinishedGame>, NoMemory>
    ensures value { IfOk result (λ games.
        map (λ g. g.now) games.items ≡ items_in version.now.parts) }
    ensures few { length (items_in version.now.parts) ≤ 400000 }
{
    let mut games = Vec::new(alloc);
    for part in version.parts() {
        let part: &'a Segment = &*part;
        add_part(part, &mut games)?;
    }
    Ok(games)
}

// Adds the games of a part.
fn add_part<'a>(part: &'a Segment, games: &mut Vec<&'a FinishedGame>) -> Result<(), NoMemory>
    ensures { OnOk result (map (λ g. g.now) games.new.items
        ≡ map (λ g. g.now) games.old.items ++ part.now) }
{
    for numbered in part.blocks() {
        let block: &'a Block = &*numbered.block;
        add_block(block, games)?;
    }
    Ok(())
}

// Adds the games of a block.
fn add_block<'a>(block: &'a Block, games: &mut Vec<&'a FinishedGame>) -> Result<(), NoMemory>
    ensures { OnOk result (map (λ g. g.now) games.new.items
        ≡ map (λ g. g.now) games.old.items ++ block.now) }
{
    for at in 0..block.len() {
        games.push(block.get(at))?;
    }
    Ok(())
}
