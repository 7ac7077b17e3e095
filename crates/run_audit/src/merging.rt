// Parts of a version that are merged.
ghost use Rattle.std.specs.Prelude.{
  ◌≡◌,
  ◌+◌,
  ◌++◌,
  ◌∷◌,
  ◌≤◌,
  ◌<◌,
  ◌^◌,
  [],
  None,
  IfOk,
  IfSome,
  OnOk,
  length,
  map,
};
ghost use Rattle.std.specs.Arc.{arc_value};
ghost use Rattle.version_publisher.specs.Contents.{items_in};

use kb_geometry::NoMemory;
use segment_store::{Segment, merge};
use std::alloc::Global;
use std::sync::Arc;
use version_publisher::Version;

// The version with the same number and the same games, whose parts are merged: from the second one on each
// has fewer games than the one before it.
pub(crate) fn with_merged_parts(
    alloc: Global,
    version: &Version<Segment>,
) -> Result<Version<Segment>, NoMemory>
    ensures number { IfOk result (λ v. v.number ≡ version.now.number) }
    ensures games { IfOk result (λ v. items_in v.parts ≡ items_in version.now.parts) }
{
    let parts = merged_parts(alloc, version.parts())?;
    Version::of(alloc, version.number(), parts.as_slice())
}

// The games of these parts in merged parts.
fn merged_parts(alloc: Global, parts: &[Arc<Segment>]) -> Result<Vec<Arc<Segment>>, NoMemory>
    requires { length (items_in (map arc_value parts.now)) ≤ 400000 }
    ensures same { IfOk result (λ merged.
        items_in (map arc_value merged.items) ≡ items_in (map arc_value parts.now)) }
    ensures few { IfOk result (λ merged. length (items_in (map arc_value merged.items)) ≤ 400000) }
{
    let mut merged = Vec::new(alloc);
    for part in parts {
        add_merged(alloc, &mut merged, part.clone()?)?;
    }
    Ok(merged)
}

// Adds a part behind, if it has games. It is merged with the parts before it as long as it has at least as
// many games as the last of these.
fn add_merged(
    alloc: Global,
    parts: &mut Vec<Arc<Segment>>,
    part: Arc<Segment>,
) -> Result<(), NoMemory>
    requires { length (items_in (map arc_value parts.old.items)) + length (arc_value part) ≤ 400000 }
    ensures { OnOk result (items_in (map arc_value parts.new.items)
        ≡ items_in (map arc_value parts.old.items) ++ arc_value part) }
{
    if part.game_count() == 0 {
        return Ok(());
    }
    let mut last = part;
    while let Some(before) = take_last(parts, last.game_count()) {
        let both = merge(alloc, &before, &last)?;
        last = Arc::new(alloc, both)?;
    }
    parts.push(last)?;
    Ok(())
}

// Takes the last part, if it has at most so many games.
fn take_last(parts: &mut Vec<Arc<Segment>>, most: u32) -> Option<Arc<Segment>>
    ensures taken { IfSome result (λ last.
        map arc_value parts.old.items ≡ map arc_value parts.new.items ++ arc_value last ∷ []) }
    ensures none { result ≡ None → parts.new.items ≡ parts.old.items }
{
    let last = parts.last()?;
    if last.game_count() > most {
        return None;
    }
    parts.pop()
}

// Adds a part to a version.
pub(crate) fn push_part(version: &mut Version<Segment>, part: Arc<Segment>) -> Result<(), NoMemory>
    requires room { length (items_in version.old.parts) + length (arc_value part) ≤ 400000 }
    requires number { version.old.number + 1 < 2 ^ 64 }
    ensures number { OnOk result (version.new.number ≡ version.old.number + 1) }
    ensures games { OnOk result
        (items_in version.new.parts ≡ items_in version.old.parts ++ arc_value part) }
{
    match version.push(part) {
        Ok(()) => Ok(()),
        Err((_part, error)) => Err(error),
    }
}
