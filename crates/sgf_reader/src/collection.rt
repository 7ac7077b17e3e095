// Raw game trees: nodes with the values of their properties, as places in the text.
ghost use Rattle.std.specs.Prelude.{◌≡◌};

use std::marker::Model;

/// A piece of the text: the bytes from `from` on, up to `to` and without it.
#[derive(Clone, Copy, Debug, PartialEq, Eq)]
pub struct Span {
    pub from: u32,
    pub to: u32,
}

/// One value of one property. The name covers all letters of the identifier, and the value is what
/// stands between its brackets.
#[derive(Clone, Copy, Debug, PartialEq, Eq)]
pub struct Pair {
    pub name: Span,
    pub value: Span,
}

/// A list of items. Contracts see it as the list of what contracts see of each.
#[derive(Debug, Drop)]
pub struct RawItems<T> {
    items: Vec<T>,
}

impl<T> Model for RawItems<T> {
    ghost use Rattle.std.specs.Prelude.{List};
    ghost use Rattle.std.specs.Coded.{coded_list};

    ghost Value = { List T };

    ghost coded = { coded_list T.code };

    ghost view = { λ l. l.items.items };
}

impl<T> RawItems<T> {
    /// The list of these items.
    pub fn new(items: Vec<T>) -> Self
        ensures { result ≡ items.items }
    {
        RawItems { items }
    }

    /// The items.
    pub fn as_slice(&self) -> &[T]
        ensures { result.now ≡ self.now }
    {
        self.items.as_slice()
    }
}

/// The values of a node in order of the text.
pub type PairList = RawItems<Pair>;

/// A node: the number of its parent, which the root has not, and its values.
#[derive(Debug, Drop)]
pub struct RawNode {
    pub parent: Option<u32>,
    pub pairs: PairList,
}

/// The nodes of a game in order of the text.
pub type RawNodeList = RawItems<RawNode>;

/// One game: a tree at the top level of the text.
#[derive(Debug, Drop)]
pub struct RawGame {
    pub nodes: RawNodeList,
}

/// The games of a text, in order.
pub type RawGameList = RawItems<RawGame>;

/// The games of a text.
#[derive(Debug, Drop)]
pub struct Collection {
    pub games: RawGameList,
}
