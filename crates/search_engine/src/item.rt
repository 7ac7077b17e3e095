// A block of games among those of a version.
ghost use Rattle.std.specs.Prelude.{◌+◌, ◌<◌, ◌≤◌, drop, length};

use segment_store::Block;

// A block of games of which the first so many are left out, and the number that the first of the
// others has in the version.
#[derive(Clone, Copy, Debug)]
pub(crate) struct Item<'a> {
    pub(crate) first: u32,
    pub(crate) block: &'a Block,
    pub(crate) skip: usize,
    pub(crate) ghost few: { skip < 64 },
    pub(crate) ghost fits: { first + length (drop skip block.now) ≤ 400000 },
}
