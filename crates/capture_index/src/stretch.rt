// Stretches of nodes.

/// The nodes from one up to before another.
#[derive(Clone, Copy, Debug, PartialEq, Eq)]
pub struct Stretch {
    /// The number of the first node.
    pub from: u32,
    /// The number of the node behind the last one.
    pub to: u32,
}
