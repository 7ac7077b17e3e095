// Laws of pattern texts and their faults, for who reads a contract of this crate.
ghost use Rattle.std.specs.Prelude.{◌≡◌, ◌*◌, ◌<◌, ◌⊎◌, ◌↔◌, List, ℕ};
ghost use Rattle.pattern_images.specs.Grid.{Grid};
ghost use Rattle.pattern_syntax.specs.Text.{SpellsPattern};
ghost use Rattle.pattern_syntax.specs.Faults.{HasPatternFault, IsFirstPatternFault};

/// A text spells one pattern only.
pub fn a_text_spells_one_pattern()
    ensures { (text : List ℕ) (a b : Grid) → SpellsPattern text a → SpellsPattern text b → a ≡ b }
{}

/// A text spells a pattern exactly where it has no fault. So [`read_pattern`](crate::read_pattern)
/// answers a fault only for a text that spells no pattern.
pub fn a_text_spells_a_pattern_or_has_a_fault()
    ensures { (text : List ℕ) →
        ((grid : Grid) × SpellsPattern text grid) ↔ ((k : ℕ) → ¬ HasPatternFault text k) }
{}

/// A text that spells no pattern has one first fault, and one only.
pub fn a_pattern_text_has_one_first_fault()
    ensures some { (text : List ℕ) →
        ((grid : Grid) × SpellsPattern text grid) ⊎ ((k : ℕ) × IsFirstPatternFault text k) }
    ensures one { (text : List ℕ) (j k : ℕ) → IsFirstPatternFault text j →
        IsFirstPatternFault text k → j ≡ k }
{}

/// A text's first fault stands before the offset that would follow 52 rows of 52 cells, each with
/// its `/`, however long the text is.
pub fn a_first_fault_is_near()
    ensures { (text : List ℕ) (k : ℕ) → IsFirstPatternFault text k → k < 52 * 53 }
{}
