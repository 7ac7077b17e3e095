// What a version is made of.
ghost use Rattle.std.specs.Prelude.{◌≡◌, ℕ, List, length};

/// A part of a version: it stands for a list of items.
pub trait Part: Drop + Send + Sync {
    /// What a part consists of.
    type Item;

    /// Its items, in order.
    ghost items: { Self → List Self.Item };

    /// The greatest number of items that a version may have, as contracts speak of it. Each part is
    /// proved to give the constant of the same name this value.
    ghost MOST: { ℕ };

    /// The greatest number of items that a version may have.
    const MOST: u32;

    /// How many items it has.
    fn count(&self) -> u32
        ensures { result ≡ length (items self.now) };
}

/// A law: the greatest number of items is the one that contracts speak of, for every part.
pub fn most_of<P: Part>() -> u32
    ensures { result ≡ P.MOST }
{
    P::MOST
}
