// What one byte means to a reader inside a tree.
ghost use Rattle.std.specs.Prelude.{◌≡◌, ◌<◌, ◌^◌, ◌+◌, List, ℕ, Bool, true, false};
ghost use Rattle.sgf_reader.specs.Grammar.{SpelledGame};
ghost use Rattle.sgf_reader.specs.Scan.{Inside, step_within, step_node, step_between, is_white};
ghost use Rattle.sgf_reader.specs.Turn.{phase_of, apply_turn, is_in_node, StaysInNode};

use crate::Span;
use crate::place::Phase;

// What the reader has to do.
#[derive(Clone, Copy)]
pub(crate) enum Turn {
    Stay,
    To(Phase),
    // A value ends here. It belongs to the identifier with this span, and began at this offset.
    EndValue { name: Span, from: u32 },
    // A node begins, behind this `(` where it is the first of its tree.
    BeginNode(Option<u32>),
    Open,
    Close,
    // No text of the grammar goes on so.
    Refuse,
}

fn is_white_space(byte: u8) -> bool
    ensures { result ≡ is_white byte }
{
    byte <= 32
}

// Behind all values of a node's properties.
fn turn_between(byte: u8) -> Turn
    ensures scans { (games : List SpelledGame) (s : Inside) (at : ℕ) →
        step_between games s at byte ≡ apply_turn games s at result }
    ensures stays { (in_node : Bool) → StaysInNode in_node result }
{
    match byte {
        b'(' => Turn::Open,
        b')' => Turn::Close,
        _ => Turn::Refuse,
    }
}

// Behind a node.
fn turn_node(at: u32, byte: u8) -> Turn
    ensures scans { (games : List SpelledGame) (s : Inside) →
        step_node games s at byte ≡ apply_turn games s at result }
    ensures stays { StaysInNode true result }
{
    if byte == b';' {
        return Turn::BeginNode(None);
    }
    if byte.is_ascii_alphabetic() {
        return Turn::To(Phase::InName {
            from: at,
            has_upper: byte.is_ascii_uppercase(),
        });
    }
    turn_between(byte)
}

// In an identifier.
fn turn_name(from: u32, has_upper: bool, at: u32, byte: u8) -> Turn
    requires { at < 2 ^ 24 }
    ensures scans { (games : List SpelledGame) (s : Inside) →
        step_within games s (phase_of (Phase.InName from has_upper)) at byte
        ≡ apply_turn games s at result }
    ensures stays { StaysInNode true result }
{
    if byte.is_ascii_alphabetic() {
        return Turn::To(Phase::InName {
            from,
            has_upper: has_upper || byte.is_ascii_uppercase(),
        });
    }
    if !has_upper {
        return Turn::Refuse;
    }
    let name = Span { from, to: at };
    if is_white_space(byte) {
        return Turn::To(Phase::AfterName(name));
    }
    if byte == b'[' {
        return Turn::To(Phase::InValue { name, from: at + 1 });
    }
    Turn::Refuse
}

// In a value.
fn turn_value(name: Span, from: u32, byte: u8) -> Turn
    ensures scans { (games : List SpelledGame) (s : Inside) (at : ℕ) →
        step_within games s (phase_of (Phase.InValue name from)) at byte
        ≡ apply_turn games s at result }
    ensures stays { StaysInNode true result }
{
    match byte {
        b']' => Turn::EndValue { name, from },
        b'\\' => Turn::To(Phase::Escaped { name, from }),
        _ => Turn::Stay,
    }
}

// Where a value may begin, of the identifier with this span: its first one or another.
fn turn_behind(name: Span, is_first: bool, at: u32, byte: u8) -> Turn
    requires { at < 2 ^ 24 }
    ensures first { is_first ≡ true → (games : List SpelledGame) (s : Inside) →
        step_within games s (phase_of (Phase.AfterName name)) at byte
        ≡ apply_turn games s at result }
    ensures other { is_first ≡ false → (games : List SpelledGame) (s : Inside) →
        step_within games s (phase_of (Phase.AfterValue name)) at byte
        ≡ apply_turn games s at result }
    ensures stays { StaysInNode true result }
{
    if is_white_space(byte) {
        return Turn::Stay;
    }
    if byte == b'[' {
        return Turn::To(Phase::InValue { name, from: at + 1 });
    }
    if is_first {
        return Turn::Refuse;
    }
    turn_node(at, byte)
}

// What this byte, at this offset, means in this phase.
pub(crate) fn turn_at(phase: Phase, at: u32, byte: u8) -> Turn
    requires { at < 2 ^ 24 }
    ensures scans { (games : List SpelledGame) (s : Inside) →
        step_within games s (phase_of phase) at byte ≡ apply_turn games s at result }
    ensures stays { StaysInNode (is_in_node phase) result }
{
    match phase {
        Phase::InValue { name, from } => turn_value(name, from, byte),
        Phase::Escaped { name, from } => Turn::To(Phase::InValue { name, from }),
        Phase::InName { from, has_upper } => turn_name(from, has_upper, at, byte),
        Phase::AfterName(name) => turn_behind(name, true, at, byte),
        Phase::AfterValue(name) => turn_behind(name, false, at, byte),
        Phase::Opened(from) => turn_opened(from, byte),
        Phase::InNode => turn_in_node(at, byte),
        Phase::AfterTree => turn_after_tree(byte),
    }
}

// Behind a `(`.
fn turn_opened(from: u32, byte: u8) -> Turn
    ensures scans { (games : List SpelledGame) (s : Inside) (at : ℕ) →
        step_within games s (phase_of (Phase.Opened from)) at byte ≡ apply_turn games s at result }
    ensures stays { StaysInNode false result }
{
    if is_white_space(byte) {
        return Turn::Stay;
    }
    if byte == b';' {
        return Turn::BeginNode(Some(from));
    }
    Turn::Refuse
}

// Behind a `;`.
fn turn_in_node(at: u32, byte: u8) -> Turn
    ensures scans { (games : List SpelledGame) (s : Inside) →
        step_within games s (phase_of Phase.InNode) at byte ≡ apply_turn games s at result }
    ensures stays { StaysInNode true result }
{
    if is_white_space(byte) {
        return Turn::Stay;
    }
    turn_node(at, byte)
}

// Behind a `)`.
fn turn_after_tree(byte: u8) -> Turn
    ensures scans { (games : List SpelledGame) (s : Inside) (at : ℕ) →
        step_within games s (phase_of Phase.AfterTree) at byte ≡ apply_turn games s at result }
    ensures stays { StaysInNode false result }
{
    if is_white_space(byte) {
        return Turn::Stay;
    }
    turn_between(byte)
}
