// What a search in one game finds.

/// A node of a game where a placement begins to hold.
#[derive(Clone, Copy, Debug, PartialEq, Eq)]
pub struct Occurrence {
    /// The node's number.
    pub node: u32,
    /// The placement's number among those of the images.
    pub placement: u32,
}
