// Laws of the numbers of corners, as the contracts of functions that do nothing.
ghost use Rattle.std.specs.Prelude.{◌≡◌, ◌<◌, ℕ};
ghost use Rattle.kb_geometry.specs.declared.shape.Shape.{Shape};
ghost use Rattle.kb_geometry.specs.Capture.{Position, cell_at};
ghost use Rattle.corner_index.specs.Corners.{corner_number, point_in_frame};

/// Two positions in which a corner has one number have the same 36 cells there.
pub fn a_corner_is_known_by_its_number()
    ensures { (corner : ℕ) (shape : Shape) (p q : Position) →
        corner_number corner shape p ≡ corner_number corner shape q →
        (column row : ℕ) → column < 6 → row < 6 →
        cell_at p (point_in_frame corner shape column row)
        ≡ cell_at q (point_in_frame corner shape column row) }
{}

/// Each number is below 3 to the power of 36.
pub fn a_corner_number_has_at_most_36_digits()
    ensures { (corner : ℕ) (shape : Shape) (p : Position) →
        corner_number corner shape p < 150094635296999121 }
{}
