// A version that grows by parts, without a publisher.
ghost use Rattle.std.specs.Prelude.{◌+◌, ◌≤◌, length};
ghost use Rattle.std.specs.Arc.{arc_value};

use crate::numbers::{MOST_NUMBERS, Numbers, append_version, part_of};
use case_files::{Case, CaseError};
use std::alloc::Global;
use std::sync::Arc;
use version_publisher::{Part, Version};

/// Appends the empty version, the one with the first part and the one with both, and a copy of that.
pub fn answer(alloc: Global, case: &Case<'_>, out: &mut Vec<u8>) -> Result<(), CaseError> {
    let text = std::str::from_utf8(case.text()).unwrap_or("?");
    let (first, second) = text.split_once(" | ").unwrap_or((text, ""));
    let (first, second) = (part_of(alloc, first)?, part_of(alloc, second)?);
    if first.count().saturating_add(second.count()) > MOST_NUMBERS {
        return Err(CaseError::Bad("too many numbers"));
    }
    push_both(alloc, first, second, out)
}

fn push_both(
    alloc: Global,
    first: Arc<Numbers>,
    second: Arc<Numbers>,
    out: &mut Vec<u8>,
) -> Result<(), CaseError>
    requires { length (arc_value first).all.items + length (arc_value second).all.items ≤ 1000 }
{
    let mut version = Version::empty(alloc);
    append_version(alloc, &version, out)?;
    if version.push(first).is_err() {
        return Err(CaseError::NoMemory);
    }
    append_version(alloc, &version, out)?;
    if version.push(second).is_err() {
        return Err(CaseError::NoMemory);
    }
    let copy = version.copy(alloc)?;
    append_version(alloc, &version, out)?;
    append_version(alloc, &copy, out)
}
