// The text of a tree, node by node in order of the text.
ghost use Rattle.std.specs.Prelude.{◌≡◌, ◌<◌, ℕ, List, ◌++◌, OnErr, OnOk, IfOk, IfSome};
ghost use mathlib.Core.List.{IsPrefix};
ghost use Rattle.game_tree.specs.Tree.{IsTree, node_count};
ghost use Rattle.sgf_writer.specs.Walk.{Closes, Follows, closing, in_brackets, opening};
ghost use Rattle.sgf_writer.specs.Written.{IsWritten};

use crate::nodes::write_node;
use game_tree::GameTree;
use kb_geometry::{NoMemory, append};

// Appends the text of a tree.
pub(crate) fn write_tree(out: &mut Vec<u8>, tree: &GameTree) -> Result<(), NoMemory>
    requires { IsTree tree.now }
    ensures ok { IfOk result (λ _. (text : List ℕ) × IsWritten tree.now text
        × (out.new.items ≡ out.old.items ++ text)) }
    ensures refused { OnErr result (IsPrefix out.old.items out.new.items) }
{
    let mut n = 0;
    loop {
        write_opening(out, tree, n)?;
        write_node(out, tree, n)?;
        match write_behind(out, tree, n)? {
            Some(next) => n = next,
            None => return Ok(()),
        }
    }
}

// Appends what stands behind a node, and tells the node that comes next, if there is one.
fn write_behind(out: &mut Vec<u8>, tree: &GameTree, n: u32) -> Result<Option<u32>, NoMemory>
    requires tree { IsTree tree.now }
    requires in_range { n < node_count tree.now }
    ensures text { IfOk result (λ next. (text : List ℕ) × Follows tree.now n next text
        × (out.new.items ≡ out.old.items ++ text)) }
    ensures later { IfOk result (λ next. IfSome next (λ s. (n < s) × (s < node_count tree.now))) }
    ensures refused { OnErr result (IsPrefix out.old.items out.new.items) }
{
    match tree.first_child(n) {
        Some(child) => Ok(Some(child)),
        None => write_closings(out, tree, n),
    }
}

// Appends the brackets that are closed behind a leaf, and tells the node that comes next, if there
// is one.
fn write_closings(out: &mut Vec<u8>, tree: &GameTree, leaf: u32) -> Result<Option<u32>, NoMemory>
    requires tree { IsTree tree.now }
    requires in_range { leaf < node_count tree.now }
    ensures text { IfOk result (λ next. (text : List ℕ) × Closes tree.now leaf next text
        × (out.new.items ≡ out.old.items ++ text)) }
    ensures later { IfOk result (λ next.
        IfSome next (λ s. (leaf < s) × (s < node_count tree.now))) }
    ensures refused { OnErr result (IsPrefix out.old.items out.new.items) }
{
    let mut n = leaf;
    loop {
        write_closing(out, tree, n)?;
        if let Some(sibling) = tree.next_sibling(n) {
            return Ok(Some(sibling));
        }
        match tree.parent(n) {
            Some(parent) => n = parent,
            None => return Ok(None),
        }
    }
}

// Appends the bracket before a node, if one stands there.
fn write_opening(out: &mut Vec<u8>, tree: &GameTree, n: u32) -> Result<(), NoMemory>
    requires tree { IsTree tree.now }
    requires in_range { n < node_count tree.now }
    ensures ok { OnOk result (out.new.items ≡ out.old.items ++ opening tree.now n) }
    ensures refused { OnErr result (IsPrefix out.old.items out.new.items) }
{
    if is_in_brackets(tree, n) {
        append(out, b"(")
    } else {
        append(out, b"")
    }
}

// Appends the bracket behind all below a node, if one stands there.
fn write_closing(out: &mut Vec<u8>, tree: &GameTree, n: u32) -> Result<(), NoMemory>
    requires tree { IsTree tree.now }
    requires in_range { n < node_count tree.now }
    ensures ok { OnOk result (out.new.items ≡ out.old.items ++ closing tree.now n) }
    ensures refused { OnErr result (IsPrefix out.old.items out.new.items) }
{
    if is_in_brackets(tree, n) {
        append(out, b")")
    } else {
        append(out, b"")
    }
}

// Whether brackets stand round the text from a node on.
fn is_in_brackets(tree: &GameTree, n: u32) -> bool
    requires tree { IsTree tree.now }
    requires in_range { n < node_count tree.now }
    ensures { result ≡ in_brackets tree.now n }
{
    // A first child has the number behind its parent's.
    match tree.parent(n) {
        Some(parent) => n != parent + 1 || tree.next_sibling(n).is_some(),
        None => true,
    }
}
