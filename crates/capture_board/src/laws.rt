// Laws of moves and of net changes. Each stands as a contract of a function that does nothing.
ghost use Rattle.std.specs.Prelude.{◌≡◌, ◌≢◌, ℕ, List, length, Contains, IfSome};
ghost use Rattle.std.specs.declared.option.Option.{Option};
ghost use Rattle.kb_geometry.specs.declared.shape.Point.{Point};
ghost use Rattle.kb_geometry.specs.declared.shape.Shape.{Shape};
ghost use Rattle.kb_geometry.specs.declared.stone.Change.{Change};
ghost use Rattle.kb_geometry.specs.declared.stone.Colour.{Colour};
ghost use Rattle.kb_geometry.specs.Board.{IsOnBoard};
ghost use Rattle.kb_geometry.specs.Capture.{IsMovePlayed, IsPlayed, Position, cell_at};
ghost use Rattle.capture_board.specs.Changes.{LeadFrom, MayBeUndone};

/// A move has one outcome: the capture rule leaves nothing open.
pub fn a_move_has_one_outcome()
    ensures { (shape : Shape) (before : Position) (side : Colour) (point : ℕ)
        (one other : Position) → IsPlayed shape before side point one →
        IsPlayed shape before side point other → one ≡ other }
{}

/// A move has an outcome: a position after it by the capture rule, whatever stood before it.
pub fn a_move_has_an_outcome()
    ensures { (shape : Shape) (before : Position) (side : Colour) (point : Option Point) →
        IfSome point (IsOnBoard shape) →
        (after : Position) × IsMovePlayed shape before side point after }
{}

/// Net changes are fixed by the two positions.
pub fn net_changes_are_unique()
    ensures { (before after : Position) (one other : List Change) →
        LeadFrom before one after → LeadFrom before other after → one ≡ other }
{}

/// Two positions of one board have net changes.
pub fn net_changes_exist()
    ensures { (before after : Position) → length after ≡ length before →
        (changes : List Change) × LeadFrom before changes after }
{}

/// Net changes are complete: each point whose cell is another one afterwards has its change.
pub fn net_changes_are_complete()
    ensures { (before : Position) (changes : List Change) (after : Position) →
        LeadFrom before changes after → (p : ℕ) → cell_at before p ≢ cell_at after p →
        Contains changes (record { point = p; old = cell_at before p; new = cell_at after p }) }
{}

/// Net changes may be taken back.
pub fn net_changes_may_be_undone()
    ensures { (before : Position) (changes : List Change) (after : Position) →
        LeadFrom before changes after → MayBeUndone after changes }
{}
