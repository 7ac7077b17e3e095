// A node where the walk stands.
use crate::changed::Concerned;
use capture_board::Walker;

// A node, a walker that shows the position there, and the points that the node's changes concern.
#[derive(Debug, Drop)]
pub(crate) struct Visit<'a> {
    pub(crate) node: u32,
    pub(crate) walker: &'a Walker,
    // `None` at the root, which has no parent.
    pub(crate) changed: Option<&'a Concerned>,
}
