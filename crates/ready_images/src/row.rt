// Placements side by side.

/// So many placements of a class: the first has its upper left point on the base, and each of the
/// others on the next point of the board.
#[derive(Clone, Copy, Debug)]
pub struct Row {
    /// The number of the class among those of the images.
    pub class: u8,
    /// The number of a point.
    pub base: u16,
    /// Where the row begins in the list of the placements' numbers.
    pub start: usize,
    /// How many placements.
    pub count: usize,
}
