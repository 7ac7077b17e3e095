// Laws of the definitions of `specs/`, as contracts of functions that do nothing.
ghost use Rattle.std.specs.Prelude.{◌≡◌, ◌<◌, ◌↔◌, ℕ, Contains};
ghost use Rattle.kb_geometry.specs.declared.stone.Cell.{Cell};
ghost use Rattle.capture_index.specs.NodePositions.{
  HadAnother,
  NodePositions,
  cell_in,
  count_in,
  nodes_where,
  parent_in,
};

/// The nodes of [`crate::RunIndex::nodes_where`] are exactly those at which the point has the cell,
/// and which are the root or whose parent has another cell there.
pub fn nodes_where_the_parent_has_another_cell()
    ensures { (seen : NodePositions) (point node : ℕ) (cell : Cell) →
        Contains (nodes_where seen point cell 0) node ↔ ((node < count_in seen) ×
        (cell_in seen point node ≡ cell) × HadAnother seen point cell (parent_in seen node)) }
{}
