// Laws of the grammar and of faults, for who reads a contract of this crate.
ghost use Rattle.std.specs.Prelude.{◌≡◌, ◌≤◌, ◌↔◌, ◌⊎◌, List, length, ℕ};
ghost use Rattle.sgf_reader.specs.declared.fault.FaultKind.{FaultKind};
ghost use Rattle.sgf_reader.specs.Grammar.{SpellsGames, SpelledGame};
ghost use Rattle.sgf_reader.specs.Faults.{HasRead, AreWithinLimits, IsFirstFault};
ghost use Rattle.sgf_reader.specs.Limits.{most_bytes};

/// A text spells one list of games only.
pub fn a_text_spells_one_collection()
    ensures { (text : List ℕ) (a b : List SpelledGame) → SpellsGames a text → SpellsGames b text →
        a ≡ b }
{}

/// A text spells games and has no fault just where it spells them, and it and they are within the
/// limits.
pub fn a_text_is_read_within_the_limits()
    ensures { (text : List ℕ) (games : List SpelledGame) →
        HasRead text games ↔
        (SpellsGames games text × (length text ≤ most_bytes) × AreWithinLimits games) }
{}

/// A text has one first fault at most: one kind at one offset.
pub fn a_text_has_one_first_fault()
    ensures { (text : List ℕ) (of other : FaultKind) (at offset : ℕ) →
        IsFirstFault text of at → IsFirstFault text other offset → (of ≡ other) × (at ≡ offset) }
{}

/// Each text is read or has a first fault.
pub fn a_text_is_read_or_has_a_first_fault()
    ensures { (text : List ℕ) →
        ((games : List SpelledGame) × HasRead text games) ⊎
        ((of : FaultKind) × (at : ℕ) × IsFirstFault text of at) }
{}
