// Runs of nodes, and nodes at which the text goes back.
use kb_geometry::Cell;
use std::mem::size_of;

// From this node on a point has this cell, until its next run begins.
#[derive(Clone, Copy, Debug, PartialEq, Eq)]
pub(crate) struct Run {
    pub(crate) first: u16,
    pub(crate) cell: Cell,
}

const _: () = prove!(size_of::<Run>() == 4);

// A node whose parent isn't the node before it.
#[derive(Clone, Copy, Debug, PartialEq, Eq)]
pub(crate) struct Branch {
    pub(crate) node: u16,
    pub(crate) parent: u16,
}

const _: () = prove!(size_of::<Branch>() == 4);
