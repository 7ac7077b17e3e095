// Parts that are lists of numbers, and how they are written.
ghost use Rattle.std.specs.Prelude.{◌≡◌, ◌+◌, ◌≤◌, ◌++◌, length, IfOk};
ghost use Rattle.std.specs.Arc.{arc_value};

use case_files::CaseError;
use kb_geometry::append;
use std::alloc::Global;
use std::sync::Arc;
use version_publisher::{Part, Version};

/// The greatest number of numbers that a version may have.
pub const MOST_NUMBERS: u32 = 1000;

/// A part of a version.
#[derive(Drop)]
pub struct Numbers {
    all: Vec<u64>,
    ghost few: { length all.items ≤ 1000 },
}

impl Part for Numbers {
    ghost use Rattle.std.specs.Prelude.{length};

    type Item = u64;

    ghost items = { λ n. n.all.items };

    ghost MOST = { 1000 };

    const MOST: u32 = 1000;

    fn count(&self) -> u32 {
        self.all.len() as u32
    }
}

/// The part with the numbers of a text, which stand between blanks.
pub fn part_of(alloc: Global, text: &str) -> Result<Arc<Numbers>, CaseError> {
    let mut all = Vec::new(alloc);
    for word in text.split_whitespace() {
        all.push(
            word.parse::<u64>()
                .map_err(|_| CaseError::Bad("a word is no number"))?,
        )?;
    }
    if all.len() > MOST_NUMBERS as usize {
        return Err(CaseError::Bad("too many numbers"));
    }
    Ok(Arc::new(alloc, Numbers { all })?)
}

/// How many numbers a part has.
pub fn count_of(part: &Arc<Numbers>) -> u32
    ensures { result ≡ length (arc_value part.now).all.items }
{
    part.count()
}

/// The part with the numbers of both.
pub fn merged(alloc: Global, one: &Numbers, other: &Numbers) -> Result<Arc<Numbers>, CaseError>
    requires { length one.now.all.items + length other.now.all.items ≤ 1000 }
    ensures { IfOk result (λ part. (arc_value part).all.items
        ≡ one.now.all.items ++ other.now.all.items) }
{
    let mut all = Vec::new(alloc);
    all.extend_from_slice(one.all.as_slice())?;
    all.extend_from_slice(other.all.as_slice())?;
    Ok(Arc::new(alloc, Numbers { all })?)
}

/// Appends a version: how many parts were appended for it, and its parts, each between brackets.
pub fn append_version(
    alloc: Global,
    version: &Version<Numbers>,
    out: &mut Vec<u8>,
) -> Result<(), CaseError> {
    append_line(alloc, "version", version.number(), version.parts(), out)
}

fn append_line(
    alloc: Global,
    name: &str,
    number: u64,
    parts: &[Arc<Numbers>],
    out: &mut Vec<u8>,
) -> Result<(), CaseError> {
    append(out, format!(in alloc; "{name} {number}")?.as_bytes())?;
    for part in parts {
        append_part(alloc, part, out)?;
    }
    Ok(append(out, b"\n")?)
}

/// Appends a part behind a space: its numbers, between brackets.
pub fn append_part(alloc: Global, part: &Numbers, out: &mut Vec<u8>) -> Result<(), CaseError> {
    append(out, b" [")?;
    let mut between = "";
    for number in &part.all {
        append(out, format!(in alloc; "{between}{number}")?.as_bytes())?;
        between = " ";
    }
    Ok(append(out, b"]")?)
}
