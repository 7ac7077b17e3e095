//! Nodes in order of the text, by the numbers of their parents: ancestors, and paths to the root.
//!
//! Stands on std alone, and holds definitions and laws, no code: in `specs/` are the definitions
//! for the parents of nodes, for ancestors, for paths, and for nodes as they are stored. The layers
//! above say by them what a game tree is and what the changes at its nodes are.
#![tactic(auto)]

mod laws;

pub use laws::{
    a_path_ends_at_the_root, a_path_holds_the_node_and_its_ancestors, ancestors_come_first,
};
