// The properties of a node, by their identifiers.
ghost use Rattle.std.specs.Prelude.{◌≡◌, ◌≢◌, ℕ, [], ◌∷◌, filter, Some, None, IfSome};
ghost use Rattle.std.specs.Str.{bytes_eq};
ghost use Rattle.kb_geometry.specs.declared.stone.Cell.{Cell};
ghost use Rattle.kb_geometry.specs.declared.stone.Colour.{Colour};
ghost use Rattle.game_tree.specs.declared.property.Letters.TheVariants as letters;
ghost use Rattle.game_tree.specs.Property.{is_upper, property_named};

use kb_geometry::{Cell, Colour};

// What the values of a property do at a node.
#[derive(Clone, Copy, Debug, PartialEq, Eq)]
pub(crate) enum Property {
    Moves(Colour),
    Sets(Cell),
    Other,
}

// The upper-case letters of an identifier, where there are one or two.
#[derive(Clone, Copy, Debug, PartialEq, Eq)]
enum Letters {
    One(u8),
    Two(u8, u8),
    Other,
}

// The upper-case letters of an identifier. Its lower-case letters are ignored.
fn letters_of(name: &[u8]) -> Letters
    ensures one { (a : ℕ) → result ≡ letters.One a → filter is_upper name.now ≡ a ∷ [] }
    ensures two { (a b : ℕ) → result ≡ letters.Two a b → filter is_upper name.now ≡ a ∷ b ∷ [] }
    ensures other { result ≡ letters.Other → (a b : ℕ) → (filter is_upper name.now ≢ a ∷ [])
        × (filter is_upper name.now ≢ a ∷ b ∷ []) }
{
    let Some((first, rest)) = next_letter(name) else {
        return Letters::Other;
    };
    let Some((second, rest)) = next_letter(rest) else {
        return Letters::One(first);
    };
    match next_letter(rest) {
        None => Letters::Two(first, second),
        Some(_) => Letters::Other,
    }
}

// The first upper-case letter, and what stands behind it.
fn next_letter(name: &[u8]) -> Option<(u8, &[u8])>
    ensures some { IfSome result (λ r. filter is_upper name.now ≡ r.0 ∷ filter is_upper r.1.now) }
    ensures none { result ≡ None → filter is_upper name.now ≡ [] }
{
    let mut rest = name;
    while let [b, others @ ..] = rest {
        if b.is_ascii_uppercase() {
            return Some((*b, others));
        }
        rest = others;
    }
    None
}

impl Property {
    // The property with this identifier.
    pub(crate) fn of(name: &[u8]) -> Property
        ensures { result ≡ property_named (filter is_upper name.now) }
    {
        if let [a] = name {
            return Property::of_short(*a);
        }
        match letters_of(name) {
            Letters::One(a) => Property::of_one(a),
            Letters::Two(a, b) => Property::of_two(a, b),
            Letters::Other => Property::Other,
        }
    }

    // The property whose identifier is spelled by one byte.
    fn of_short(a: u8) -> Property
        ensures { result ≡ property_named (filter is_upper (a ∷ [])) }
    {
        if a.is_ascii_uppercase() {
            Property::of_one(a)
        } else {
            Property::Other
        }
    }

    // The property whose identifier is one letter.
    fn of_one(a: u8) -> Property
        ensures { result ≡ property_named (a ∷ []) }
    {
        match a {
            b'B' => Property::Moves(Colour::Black),
            b'W' => Property::Moves(Colour::White),
            _ => Property::Other,
        }
    }

    // The property whose identifier is two letters.
    fn of_two(a: u8, b: u8) -> Property
        ensures { result ≡ property_named (a ∷ b ∷ []) }
    {
        match (a, b) {
            (b'A', b'B') => Property::Sets(Cell::Black),
            (b'A', b'W') => Property::Sets(Cell::White),
            (b'A', b'E') => Property::Sets(Cell::Empty),
            _ => Property::Other,
        }
    }
}

// An identifier of two letters.
#[derive(Clone, Copy, Debug, PartialEq, Eq)]
pub(crate) struct Identifier {
    pub first: u8,
    pub second: u8,
}

impl Identifier {
    ghost use Rattle.std.specs.Prelude.{filter, ◌≡◌, ◌∷◌, []};
    ghost use Rattle.std.specs.Str.{bytes_eq};
    ghost use Rattle.game_tree.specs.Property.{is_upper};
    ghost use Rattle.game_tree.specs.Roots.{letters};

    // Whether this is the identifier of a property.
    pub(crate) fn names(self, name: &[u8]) -> bool
        ensures { result ≡ bytes_eq (filter is_upper name.now) (letters self) }
    {
        match letters_of(name) {
            Letters::Two(a, b) => self.is(a, b),
            Letters::One(_) => false,
            Letters::Other => false,
        }
    }

    // Whether the identifier has these letters.
    fn is(self, a: u8, b: u8) -> bool
        ensures { result ≡ bytes_eq (a ∷ b ∷ []) (letters self) }
    {
        a == self.first && b == self.second
    }
}
