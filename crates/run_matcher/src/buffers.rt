// Lists that are kept from placement to placement.
ghost use Rattle.std.specs.Prelude.{◌≡◌, []};

use capture_index::Stretch;
use std::alloc::Global;

/// Lists that [`Gathered::add`](crate::Gathered::add) works with. They may serve for many placements
/// and games one after another, which spares making them anew. Nothing in them counts.
#[derive(Debug, Drop)]
pub struct Buffers {
    // The stretches of nodes at which a placement holds.
    pub(crate) found: Vec<Stretch>,
    // Room for work.
    pub(crate) spare: Vec<Stretch>,
    // The nodes at which it begins to.
    pub(crate) nodes: Vec<u32>,
}

impl Buffers {
    /// Empty lists.
    pub fn new(alloc: Global) -> Buffers
        ensures found { result.found.items ≡ [] }
        ensures spare { result.spare.items ≡ [] }
        ensures nodes { result.nodes.items ≡ [] }
    {
        Buffers {
            found: Vec::new(alloc),
            spare: Vec::new(alloc),
            nodes: Vec::new(alloc),
        }
    }
}
