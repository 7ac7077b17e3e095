// A base that is empty yet: its publisher and its searchers.
ghost use Rattle.std.specs.Prelude.{IfOk, IfSome};
ghost use Rattle.search_run.specs.Bases.{IsNewBase};

use kb_geometry::NoMemory;
use segment_store::Segment;
use std::alloc::Global;
use std::marker::Model;
use std::sync::Wait;
use version_publisher::{OpenError, Publisher, Searcher, open};

// How many searchers a base has: one for the session, and one for each search that a block may have.
const SEARCHERS: u32 = 9;

/// A publisher with an empty log, and the nine searchers of its opening: one for the session, and
/// eight for the searches of a block. It ends in [`run`](crate::run), which hands the publisher back.
pub struct Base {
    pub(crate) publisher: Publisher<Segment>,
    pub(crate) searchers: Vec<Searcher<Segment>>,
}

impl Model for Base {
    ghost use Rattle.search_run.specs.Bases.{BaseState, IsNewBase};

    ghost Value = { BaseState };

    ghost view = { λ b. record {
      publisher = b.publisher;
      searchers = b.searchers.items;
    } };

    ghost invariant = { λ b. IsNewBase (record {
      publisher = b.publisher;
      searchers = b.searchers.items;
    }) };
}

impl Base {
    /// A base of which nothing is published or pending, and whose searchers have seen nothing. `None`
    /// says that `left_right` refused to make a searcher's reader. It may wait, where a refusal makes
    /// it end what it has made.
    pub fn open<R: Wait>(rt: &R, alloc: Global) -> Result<Option<Base>, NoMemory>
        ensures { IfOk result (λ base. IfSome base IsNewBase) }
    {
        match open(alloc, rt, SEARCHERS) {
            Ok((publisher, searchers)) => Ok(Some(Base {
                publisher,
                searchers,
            })),
            Err(OpenError::NoPlace) => Ok(None),
            Err(OpenError::NoMemory) => Err(NoMemory),
        }
    }
}
