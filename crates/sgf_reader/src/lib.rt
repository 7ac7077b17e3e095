//! SGF collections: from the bytes of a file to raw game trees, nodes with the values of their
//! properties.
//!
//! Stands on std alone. In `specs/` is the grammar of SGF FF[4] as a relation on whole texts, and
//! what the first fault of a text is. The layer above uses that [`read_flat`] and [`read`] give the
//! collection that a text spells, or the text's first fault: stored flat, or as lists in lists.
#![tactic(auto)]

mod collection;
mod fault;
mod flat;
mod laws;
mod limits;
mod nested;
mod place;
mod reader;
mod reading;
mod stays;
mod step;
mod turn;

pub use collection::{
    Collection, Pair, PairList, RawGame, RawGameList, RawItems, RawNode, RawNodeList, Span,
};
pub use fault::{FaultKind, ReadError, SgfFault};
pub use flat::{FlatCollection, FlatGame, FlatNode};
pub use laws::{
    a_text_has_one_first_fault, a_text_is_read_or_has_a_first_fault,
    a_text_is_read_within_the_limits, a_text_spells_one_collection,
};
pub use limits::{MAX_FILE, MAX_GAMES, MAX_NODES, MAX_OPEN};
pub use reader::{read, read_flat};
