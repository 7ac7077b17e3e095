// A stone beside an empty cell.

/// Two cells of a pattern side by side, of which one must be a stone and the other empty: the points
/// that stand so far behind a base, by number.
#[derive(Clone, Copy, Debug, PartialEq, Eq)]
pub struct Pair {
    /// How much the number of the stone's point is greater than the base's.
    pub stone: u16,
    /// How much the number of the empty point is greater than the base's.
    pub empty: u16,
}
