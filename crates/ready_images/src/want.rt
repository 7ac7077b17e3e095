// What is asked of a point.
use pattern_images::PatternCell;

/// What a cell of a pattern asks of a point: the one that stands so far behind a base, by number.
#[derive(Clone, Copy, Debug, PartialEq, Eq)]
pub struct Want {
    /// How much the point's number is greater than the base's.
    pub offset: u16,
    /// What is asked of it.
    pub cell: PatternCell,
}
