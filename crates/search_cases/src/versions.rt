// Versions of segments.
ghost use Rattle.std.specs.Prelude.{◌≡◌, ◌∷◌, ◌++◌, [], IfOk, OnOk};
ghost use Rattle.std.specs.Arc.{arc_value};

use crate::games::merged_all;
use case_files::CaseError;
use search_engine::game_count;
use segment_store::{Segment, SegmentBuilder};
use std::alloc::{AllocError, Global};
use std::sync::Arc;
use version_publisher::Version;

fn shared(alloc: Global, segment: Segment) -> Result<Arc<Segment>, AllocError>
    ensures { IfOk result (λ part. arc_value part ≡ segment) }
{
    Ok(Arc::new(alloc, segment)?)
}

/// Adds a part behind those of a version.
pub(crate) fn add_part(
    alloc: Global,
    part: Segment,
    version: &mut Version<Segment>,
) -> Result<(), CaseError>
    ensures { OnOk result (version.new.parts ≡ version.old.parts ++ part ∷ []) }
{
    if version.number() >= 1_000_000 {
        return Err(CaseError::Bad("too many parts"));
    }
    let before = game_count(version);
    if before + part.game_count() > 400_000 {
        return Err(CaseError::Bad("too many games"));
    }
    match version.push(shared(alloc, part)?) {
        Ok(()) => Ok(()),
        Err(_) => Err(CaseError::NoMemory),
    }
}

/// The version of these parts.
pub(crate) fn version_of(
    alloc: Global,
    parts: Vec<Segment>,
) -> Result<Version<Segment>, CaseError> {
    let mut version = Version::empty(alloc);
    for part in parts {
        add_part(alloc, part, &mut version)?;
    }
    Ok(version)
}

/// The version of the games of one segment.
pub(crate) fn version_of_one(alloc: Global, part: &Segment) -> Result<Version<Segment>, CaseError>
    ensures { IfOk result (λ version. version.parts ≡ part.now ∷ []) }
{
    let empty = SegmentBuilder::new(alloc).finish(alloc)?;
    let mut version = Version::empty(alloc);
    let copied = crate::games::merged(alloc, part, &empty)?;
    add_part(alloc, copied, &mut version)?;
    Ok(version)
}

/// The version of one part, which these are merged into.
pub(crate) fn merged_version(
    alloc: Global,
    parts: &[Segment],
) -> Result<Version<Segment>, CaseError> {
    let mut version = Version::empty(alloc);
    add_part(alloc, merged_all(alloc, parts)?, &mut version)?;
    Ok(version)
}
