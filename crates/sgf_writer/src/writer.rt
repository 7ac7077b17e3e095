// Writing of a tree.
ghost use Rattle.std.specs.Prelude.{◌≡◌, ◌≤◌, ℕ, List, ◌++◌, length, IfOk, IfErr};
ghost use Rattle.sgf_reader.specs.Limits.{most_bytes};
ghost use Rattle.sgf_writer.specs.Written.{IsWritten};
ghost use Rattle.sgf_writer.specs.ReadBack.{IsReadBack};

use crate::walk::write_tree;
use game_tree::GameTree;
use kb_geometry::{NoMemory, cut_back};

/// Appends the canonical text of a tree: `(`, the nodes from the root on, `)`, where a node with
/// more than one child is followed by each child's text in brackets.
///
/// A text of at most 16,777,216 bytes is read and built as exactly this one tree. After `NoMemory`
/// `out` holds the bytes that it held before.
pub fn write(tree: &GameTree, out: &mut Vec<u8>) -> Result<(), NoMemory>
    ensures ok { IfOk result (λ _. (text : List ℕ) × IsWritten tree.now text
        × (out.new.items ≡ out.old.items ++ text)) }
    ensures read_back { (text : List ℕ) → IsWritten tree.now text → length text ≤ most_bytes →
        IsReadBack text tree.now }
    ensures error { IfErr result (λ _. out.new.items ≡ out.old.items) }
{
    out.reserve(tree.node_count() as usize)?; // Each node takes a byte at least.
    let len = out.len();
    let done = write_tree(out, tree);
    cut_back(out, len, done)
}
