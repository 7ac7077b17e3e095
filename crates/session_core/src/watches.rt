// Lists of watched searches.
ghost use Rattle.std.specs.Prelude.{
  ◌≡◌,
  ◌<◌,
  ◌↔◌,
  All,
  IfNone,
  IfOk,
  IfSome,
  IsTrue,
  OnErr,
  length,
};
ghost use Rattle.version_publisher.specs.Contents.{items_in};
ghost use Rattle.session_core.specs.Watches.{IsFree, IsWatchOf, new_hits};
ghost use Rattle.session_core.specs.Watching.{IsAdvancedAt, IsWatchAt};

use crate::watch::Watch;
use kb_geometry::NoMemory;
use pattern_images::Hit;
use segment_store::Segment;
use std::alloc::Global;
use version_publisher::Version;

/// Which hits of a session are new, while its boxes aren't given them yet: those of a watched search from
/// one on.
#[derive(Clone, Copy, Debug, PartialEq, Eq)]
pub struct NewHits {
    // The place of the watched search.
    pub(crate) at: usize,
    // The place of the first one that is new.
    pub(crate) first: usize,
}

// The place of the watched search of this name.
pub(crate) fn find_watch(watches: &[Watch], name: &str) -> Option<usize>
    ensures some { IfSome result (λ at. IsWatchAt name.now watches.now at) }
    ensures none { IfNone result (IsFree name.now watches.now) }
{
    for at in 0..watches.len() {
        if has_name(&watches[at], name) {
            return Some(at);
        }
    }
    None
}

// Whether a watched search has this name.
fn has_name(watch: &Watch, name: &str) -> bool
    ensures { IsTrue result ↔ (watch.now.name ≡ name.now) }
{
    watch.name() == name
}

// Lets the watched search at a place go on to a version. Answers the place of its first new hit. The
// only error is `NoMemory`, after which all are as before.
pub(crate) fn advance_at(
    alloc: Global,
    watches: &mut [Watch],
    at: usize,
    version: &Version<Segment>,
) -> Result<usize, NoMemory>
    requires within { at < length watches.old }
    requires fit { All (IsWatchOf (items_in version.now.parts)) watches.old }
    ensures ok { IfOk result (λ first.
        IsAdvancedAt (items_in version.now.parts) at watches.old watches.new first) }
    ensures refused { OnErr result (watches.new ≡ watches.old) }
{
    watches[at].advance(alloc, version)
}

// The hits of a watched search that are new.
pub(crate) fn hits_of(watches: &[Watch], new: NewHits) -> &[Hit]
    ensures { result.now ≡ new_hits watches.now new }
{
    match watches.get(new.at) {
        Some(watch) => watch.hits_from(new.first),
        None => &[],
    }
}
