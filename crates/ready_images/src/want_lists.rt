// The wants of all classes in one list.
use crate::want::Want;

// Where the wants of a class stand in the list of all wants: those of cells that must be a stone, then
// those of cells that may be one, then those of cells that must be empty.
#[derive(Clone, Copy, Debug)]
pub(crate) struct ClassRange {
    pub(crate) start: usize,
    pub(crate) mixed: usize,
    pub(crate) empties: usize,
    pub(crate) end: usize,
}

// The wants of all classes, one class behind the other.
#[derive(Debug, Drop)]
pub(crate) struct MadeWants {
    pub(crate) wants: Vec<Want>,
    pub(crate) classes: Vec<ClassRange>,
}

// Wants while they are made: those of the classes before one, and of that one those of cells that must
// be a stone; of that one alone those of cells that may be a stone, and of those that must be empty.
#[derive(Debug, Drop)]
pub(crate) struct WantLists {
    pub(crate) wants: Vec<Want>,
    pub(crate) mixed: Vec<Want>,
    pub(crate) empties: Vec<Want>,
}
