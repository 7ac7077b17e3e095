//! Game trees: the nodes of a game with their setups and moves, and the game's information.
//!
//! Stands on kb_geometry and node_paths, and on sgf_reader for the collections that trees are built
//! of. In `specs/` are the definitions for a tree, its main line, its move numbers and its
//! positions, for values and their faults, and for the trees of a collection. The layers above use
//! that [`build_flat`] and [`build`] give the trees of a collection or its first fault, that
//! [`tree_of_moves`] gives the tree of a line of moves, and that a tree's readers show the tree.
#![tactic(auto)]

mod builder;
mod building;
mod bytes;
mod children;
mod game;
mod info;
mod laws;
mod line;
mod node;
mod node_values;
mod property;
mod root;
mod simple_text;
mod stored;
mod tree;
mod value;

pub(crate) use builder::TreeBuilder;
pub use building::{BuildError, build, build_flat};
pub use bytes::Bytes;
pub use children::Children;
pub use info::Info;
pub use laws::{
    a_collection_has_one_first_value_fault, a_collection_has_one_list_of_trees,
    a_collection_has_trees_or_a_first_value_fault, the_trees_of_a_collection_are_trees,
};
pub use line::tree_of_moves;
pub use node::{Move, Setup};
pub use tree::GameTree;
