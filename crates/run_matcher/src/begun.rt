// Where a placement begins to hold in a game.
use pattern_occurrences::Occurrence;

/// A placement that begins to hold at a node, and how far it is known to go on to hold.
#[derive(Clone, Copy, Debug, PartialEq, Eq)]
pub struct Begun {
    /// The node and the number of the placement.
    pub occurrence: Occurrence,
    /// How far it holds from there on.
    pub holds: HoldsTo,
}

/// How far a placement that begins to hold is known to go on to hold.
#[derive(Clone, Copy, Debug, PartialEq, Eq)]
pub enum HoldsTo {
    /// It holds at each node from its first one on up to before the node with this number, which may be
    /// the number of nodes, in order of the text.
    Known { end: u32 },
    /// Nothing is known.
    Unknown,
}
