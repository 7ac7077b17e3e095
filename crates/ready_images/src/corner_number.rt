// The corners that placements cover.

/// A corner that a placement covers with empty, black and white cells alone, and the number that the
/// corner has where it has these cells.
#[derive(Clone, Copy, Debug, PartialEq, Eq)]
pub struct CornerNumber {
    /// The number of the placement among those of the images.
    pub placement: u32,
    /// 0 is the upper left corner, 1 the upper right one, 2 the lower left one and 3 the lower right
    /// one.
    pub corner: u8,
    /// The sum over the 36 points of the corner: the digit of a cell (0 empty, 1 black, 2 white) times
    /// 3 to the power of 6 * row + column in the corner's frame.
    pub number: u64,
}
