// Laws of the definitions of tallies and boxes, for who writes a collector of one's own, feeds hits
// in turns, or reads a contract of this crate.
ghost use Rattle.std.specs.Prelude.{
  ◌≡◌,
  ◌≢◌,
  ◌⊎◌,
  ◌∷◌,
  ◌++◌,
  [],
  ℕ,
  List,
  All,
  slice_index_or,
  slice_set,
};
ghost use Rattle.pattern_images.specs.declared.hit.Hit.{Hit};
ghost use Rattle.hit_collectors.specs.declared.kind.Kind.{Kind};
ghost use Rattle.hit_collectors.specs.Boxes.{IsRetired};
ghost use Rattle.hit_collectors.specs.Tallies.{
  BoxTally,
  counted_by,
  numbers_with,
  raised,
  with_hits,
};

/// A hit raises one number of a tally by one, and leaves the others.
pub fn a_hit_raises_one_number()
    ensures { (kind : Kind) (hit : Hit) (numbers : List ℕ) →
        numbers_with kind (hit ∷ []) numbers ≡ slice_set numbers (counted_by kind hit)
        (raised (slice_index_or numbers (counted_by kind hit) 0) 1) }
{}

/// Hits may be added in turns: what a box tells is that of all of them. No hits add nothing.
pub fn hits_add_up_to_their_counts()
    ensures none { (told : BoxTally) → with_hits [] told ≡ told }
    ensures more { (told : BoxTally) (first second : List Hit) →
        with_hits second (with_hits first told) ≡ with_hits (first ++ second) told }
{}

/// None of the boxes has a name, or one list is left without the first that has it, and one only:
/// that of [`retire`](crate::retire). Never are both so.
pub fn a_name_is_retired_in_one_way()
    ensures some { (boxes : List BoxTally) (name : List ℕ) →
        All (λ (told : BoxTally). told.name ≢ name) boxes
        ⊎ ((left : List BoxTally) × IsRetired (λ (told : BoxTally). told.name) name boxes left) }
    ensures one { (boxes a b : List BoxTally) (name : List ℕ) →
        IsRetired (λ (told : BoxTally). told.name) name boxes a →
        IsRetired (λ (told : BoxTally). told.name) name boxes b → a ≡ b }
    ensures apart { (boxes left : List BoxTally) (name : List ℕ) →
        All (λ (told : BoxTally). told.name ≢ name) boxes →
        ¬ IsRetired (λ (told : BoxTally). told.name) name boxes left }
{}
