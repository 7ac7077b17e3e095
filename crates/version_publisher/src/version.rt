// What a look gives.
ghost use Rattle.std.specs.Prelude.{
  ◌≡◌,
  ◌+◌,
  ◌≤◌,
  ◌<◌,
  ◌^◌,
  ◌++◌,
  ◌∷◌,
  [],
  map,
  length,
  IfOk,
  MatchResult,
};
ghost use Rattle.std.specs.Arc.{arc_value};
ghost use Rattle.version_publisher.specs.Contents.{items_in};

use crate::part::Part;
use kb_geometry::NoMemory;
use std::alloc::Global;
use std::marker::Model;
use std::sync::Arc;

/// Parts that have at most [`Part::MOST`] items together, and how many parts were appended for
/// them.
#[derive(Drop)]
pub struct Version<P: Part> {
    number: u64,
    parts: Vec<Arc<P>>,
}

impl<P: Part> Model for Version<P> {
    ghost use Rattle.std.specs.Prelude.{◌≤◌, map, length};
    ghost use Rattle.std.specs.Arc.{arc_value};
    ghost use Rattle.version_publisher.specs.declared.state.VersionState.{VersionState};
    ghost use Rattle.version_publisher.specs.Contents.{items_in};

    ghost Value = { VersionState P.Item };

    ghost view = { λ v. record {
      number = v.number;
      parts = map (λ a. P.items (arc_value a)) v.parts.items;
    } };

    ghost invariant = { λ v. length
        (items_in (map (λ a. P.items (arc_value a)) v.parts.items)) ≤ P.MOST };
}

impl<P: Part> Version<P> {
    /// The version of no parts. It takes no memory.
    pub fn empty(alloc: Global) -> Version<P>
        ensures { (result.number ≡ 0) × (result.parts ≡ []) }
    {
        Version {
            number: 0,
            parts: Vec::new(alloc),
        }
    }

    /// The version with this number and these parts. There may be fewer parts than the number tells,
    /// where parts were merged.
    ///
    /// The parts must together have at most [`Part::MOST`] items. The only error is `NoMemory`.
    pub fn of(alloc: Global, number: u64, parts: &[Arc<P>]) -> Result<Version<P>, NoMemory>
        requires fits { length (items_in (map (λ a. P.items (arc_value a)) parts.now)) ≤ P.MOST }
        ensures { IfOk result (λ v. (v.number ≡ number)
            × (v.parts ≡ map (λ a. P.items (arc_value a)) parts.now)) }
    {
        let parts = Vec::from_clones(alloc, parts)?;
        Ok(Version { number, parts })
    }

    /// How many parts were appended.
    pub fn number(&self) -> u64
        ensures { result ≡ self.now.number }
    {
        self.number
    }

    /// The parts, which together have at most [`Part::MOST`] items.
    pub fn parts(&self) -> &[Arc<P>]
        ensures items { map (λ a. P.items (arc_value a)) result.now ≡ self.now.parts }
        ensures fits { length (items_in self.now.parts) ≤ P.MOST }
    {
        self.parts.as_slice()
    }

    /// Adds one part. It comes back, with the version as it was, where memory is refused.
    ///
    /// The items of the version and the part must together be at most [`Part::MOST`], and the
    /// number below 2^64 - 1.
    pub fn push(&mut self, part: Arc<P>) -> Result<(), (Arc<P>, NoMemory)>
        requires room { length (items_in self.old.parts) + length
            (P.items (arc_value part)) ≤ P.MOST }
        requires number { self.old.number + 1 < 2 ^ 64 }
        ensures { MatchResult result
            (λ _. (self.new.number ≡ self.old.number + 1)
            × (self.new.parts ≡ self.old.parts ++ P.items (arc_value part) ∷ []))
            (λ e. (e.0 ≡ part) × (self.new ≡ self.old)) }
    {
        if let Err(failed) = self.parts.push(part) {
            return Err((failed.value, NoMemory));
        }
        self.number += 1;
        Ok(())
    }

    /// A copy with the same number and the same parts.
    pub fn copy(&self, alloc: Global) -> Result<Version<P>, NoMemory>
        ensures { IfOk result (λ v. v ≡ self.now) }
    {
        Version::of(alloc, self.number, self.parts.as_slice())
    }
}
