// The text of one node.
ghost use Rattle.std.specs.Prelude.{
  ◌≡◌,
  ◌++◌,
  ◌<◌,
  ◌≤◌,
  ◌==◌,
  [],
  length,
  Option,
  None,
  Some,
  OnErr,
  OnOk,
  IfSome,
  All,
  if◌then◌else◌,
};
ghost use mathlib.Core.List.{IsPrefix};
ghost use Rattle.kb_geometry.specs.declared.stone.Cell.{Cell};
ghost use Rattle.game_tree.specs.declared.node.Move.{Move};
ghost use Rattle.game_tree.specs.declared.node.Setup.{Setup};
ghost use Rattle.game_tree.specs.Tree.{node_count};
ghost use Rattle.sgf_writer.specs.Letters.{HasLetter, HasLetters};
ghost use Rattle.sgf_writer.specs.Parts.{head_text, information_text, setup_text, setter_text};
ghost use Rattle.sgf_writer.specs.Written.{
  is_same,
  move_text,
  mover_name,
  node_text,
  root_text,
  setter_name,
  setups_text,
  text_property,
};

use crate::values::{write_escaped, write_rect, write_size, write_target};
use game_tree::{GameTree, Info, Move, Setup};
use kb_geometry::{Cell, Colour, NoMemory, Shape, append};

// Appends `;`, what the root begins with, the node's setups and its move.
pub(crate) fn write_node(out: &mut Vec<u8>, tree: &GameTree, n: u32) -> Result<(), NoMemory>
    requires { n < node_count tree.now }
    ensures ok { OnOk result (out.new.items ≡ out.old.items ++ node_text tree.now n) }
    ensures refused { OnErr result (IsPrefix out.old.items out.new.items) }
{
    append(out, b";")?;
    write_start(out, tree, n)?;
    write_setups(out, tree.setups(n))?;
    write_move(out, tree.played(n))?;
    Ok(())
}

// Appends what the root begins with, and nothing at another node.
fn write_start(out: &mut Vec<u8>, tree: &GameTree, n: u32) -> Result<(), NoMemory>
    ensures ok { OnOk result (out.new.items ≡ out.old.items
        ++ (if n == 0 then root_text tree.now.shape tree.now.info else [])) }
    ensures refused { OnErr result (IsPrefix out.old.items out.new.items) }
{
    if n == 0 {
        write_root(out, tree.shape(), tree.info())
    } else {
        append(out, b"")
    }
}

// Appends what the root begins with.
fn write_root(out: &mut Vec<u8>, shape: Shape, info: &Info) -> Result<(), NoMemory>
    ensures ok { OnOk result (out.new.items ≡ out.old.items ++ root_text shape info.now) }
    ensures refused { OnErr result (IsPrefix out.old.items out.new.items) }
{
    write_head(out, shape)?;
    write_information(out, info)?;
    Ok(())
}

// Appends the game's kind, the file format and the size (SGF FF[4], root properties).
fn write_head(out: &mut Vec<u8>, shape: Shape) -> Result<(), NoMemory>
    ensures ok { OnOk result (out.new.items ≡ out.old.items ++ head_text shape) }
    ensures refused { OnErr result (IsPrefix out.old.items out.new.items) }
{
    append(out, b"GM[1]FF[4]SZ[")?;
    write_size(out, shape)?;
    append(out, b"]")?;
    Ok(())
}

// Appends the texts of the information (SGF FF[4], game information properties).
fn write_information(out: &mut Vec<u8>, info: &Info) -> Result<(), NoMemory>
    ensures ok { OnOk result (out.new.items ≡ out.old.items ++ information_text info.now) }
    ensures refused { OnErr result (IsPrefix out.old.items out.new.items) }
{
    write_property(out, b"PB", info.black())?;
    write_property(out, b"PW", info.white())?;
    write_property(out, b"EV", info.event())?;
    write_property(out, b"PC", info.place())?;
    write_property(out, b"DT", info.date())?;
    write_property(out, b"RE", info.result())?;
    Ok(())
}

// Appends a property with one text, unless the text is empty.
fn write_property(out: &mut Vec<u8>, name: &[u8], text: &[u8]) -> Result<(), NoMemory>
    ensures ok { OnOk result (out.new.items ≡ out.old.items ++ text_property name.now text.now) }
    ensures refused { OnErr result (IsPrefix out.old.items out.new.items) }
{
    if text.is_empty() {
        append(out, b"")
    } else {
        write_full_property(out, name, text)
    }
}

// Appends a property with one text.
fn write_full_property(out: &mut Vec<u8>, name: &[u8], text: &[u8]) -> Result<(), NoMemory>
    requires { 1 ≤ length text.now }
    ensures ok { OnOk result (out.new.items ≡ out.old.items ++ text_property name.now text.now) }
    ensures refused { OnErr result (IsPrefix out.old.items out.new.items) }
{
    append(out, name)?;
    append(out, b"[")?;
    write_escaped(out, text)?;
    append(out, b"]")?;
    Ok(())
}

// Appends setups in order.
fn write_setups(out: &mut Vec<u8>, setups: &[Setup]) -> Result<(), NoMemory>
    requires { All (λ (s : Setup). HasLetters s.rect) setups.now }
    ensures ok { OnOk result (out.new.items ≡ out.old.items ++ setups_text None setups.now) }
    ensures refused { OnErr result (IsPrefix out.old.items out.new.items) }
{
    let mut before = None;
    for s in setups {
        write_setup(out, before, *s)?;
        before = Some(s.cell);
    }
    Ok(())
}

// Appends one setup, behind one that sets to this cell, if there is one.
fn write_setup(out: &mut Vec<u8>, before: Option<Cell>, s: Setup) -> Result<(), NoMemory>
    requires { HasLetters s.rect }
    ensures ok { OnOk result (out.new.items ≡ out.old.items ++ setup_text before s) }
    ensures refused { OnErr result (IsPrefix out.old.items out.new.items) }
{
    write_setter(out, before, s.cell)?;
    append(out, b"[")?;
    write_rect(out, s.rect)?;
    append(out, b"]")?;
    Ok(())
}

// Appends the identifier of a setup, unless the one before has it too.
fn write_setter(out: &mut Vec<u8>, before: Option<Cell>, cell: Cell) -> Result<(), NoMemory>
    ensures ok { OnOk result (out.new.items ≡ out.old.items ++ setter_text before cell) }
    ensures refused { OnErr result (IsPrefix out.old.items out.new.items) }
{
    match before {
        Some(other) if is_same(cell, other) => append(out, b""),
        _ => append(out, setter_name(cell)),
    }
}

// Whether two cells are the same.
fn is_same(cell: Cell, other: Cell) -> bool
    ensures { result ≡ is_same cell other }
{
    match cell {
        Cell::Empty => matches!(other, Cell::Empty),
        Cell::Black => matches!(other, Cell::Black),
        Cell::White => matches!(other, Cell::White),
    }
}

// The identifier of a setup (SGF FF[4], setup properties).
fn setter_name(cell: Cell) -> &'static [u8]
    ensures { result.now ≡ setter_name cell }
{
    match cell {
        Cell::Empty => b"AE",
        Cell::Black => b"AB",
        Cell::White => b"AW",
    }
}

// Appends a move or a pass, if the node has one.
fn write_move(out: &mut Vec<u8>, played: Option<Move>) -> Result<(), NoMemory>
    requires { IfSome played (λ (m : Move). IfSome m.point HasLetter) }
    ensures ok { OnOk result (out.new.items ≡ out.old.items ++ move_text played) }
    ensures refused { OnErr result (IsPrefix out.old.items out.new.items) }
{
    match played {
        Some(m) => write_one_move(out, m),
        None => append(out, b""),
    }
}

// Appends a move or a pass.
fn write_one_move(out: &mut Vec<u8>, m: Move) -> Result<(), NoMemory>
    requires { IfSome m.point HasLetter }
    ensures ok { OnOk result (out.new.items ≡ out.old.items ++ move_text (Some m)) }
    ensures refused { OnErr result (IsPrefix out.old.items out.new.items) }
{
    append(out, mover_name(m.colour))?;
    append(out, b"[")?;
    write_target(out, m.point)?;
    append(out, b"]")?;
    Ok(())
}

// The identifier of a move (SGF FF[4], move properties).
fn mover_name(colour: Colour) -> &'static [u8]
    ensures { result.now ≡ mover_name colour }
{
    match colour {
        Colour::Black => b"B",
        Colour::White => b"W",
    }
}
