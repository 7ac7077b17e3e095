// How far a reader stays where it stands.
ghost use Rattle.std.specs.Prelude.{◌≢◌, ◌<◌, ◌≤◌, ◌↔◌, IfSome, IsTrue, length, slice_index};
ghost use Rattle.sgf_reader.specs.Bytes.{round_open, space};
ghost use Rattle.sgf_reader.specs.Stays.{EachFrom, IsPlain, IsShortNode, StaysAt, IsNodeNext};

use crate::place::{Phase, Place};

// The first byte that is no white space, from the first offset on and before the second one.
pub(crate) fn not_white_from(text: &[u8], from: usize, end: usize) -> usize
    requires start { from ≤ end }
    requires within { end ≤ length text.now }
    ensures least { from ≤ result }
    ensures most { result ≤ end }
    ensures white { EachFrom text.now from result (λ b. b ≤ space) }
    ensures not_white { result < end → space < slice_index text.now result }
{
    for i in from..end {
        if text[i] > 32 {
            return i;
        }
    }
    end
}

// The first byte that ends a value or hides the next byte.
fn special_from(text: &[u8], from: usize, end: usize) -> usize
    requires start { from ≤ end }
    requires within { end ≤ length text.now }
    ensures least { from ≤ result }
    ensures most { result ≤ end }
    ensures plain { EachFrom text.now from result IsPlain }
{
    for i in from..end {
        if text[i] == b']' || text[i] == b'\\' {
            return i;
        }
    }
    end
}

// The first `(`.
fn bracket_from(text: &[u8], from: usize, end: usize) -> usize
    requires start { from ≤ end }
    requires within { end ≤ length text.now }
    ensures least { from ≤ result }
    ensures most { result ≤ end }
    ensures none { EachFrom text.now from result (λ b. b ≢ round_open) }
{
    for i in from..end {
        if text[i] == b'(' {
            return i;
        }
    }
    end
}

// The first byte that may lead the reader away from where it stands.
pub(crate) fn next_from(text: &[u8], from: usize, end: usize, place: Place) -> usize
    requires start { from ≤ end }
    requires within { end ≤ length text.now }
    ensures least { from ≤ result }
    ensures most { result ≤ end }
    ensures stays { EachFrom text.now from result (StaysAt place) }
{
    match place {
        Place::Outside => bracket_from(text, from, end),
        Place::Before(_) => not_white_from(text, from, end),
        Place::Within(phase) => match phase {
            Phase::InValue { name: _, from: _ } => special_from(text, from, end),
            Phase::InName {
                from: _,
                has_upper: _,
            } => from,
            Phase::Escaped { name: _, from: _ } => from,
            _ => not_white_from(text, from, end),
        },
    }
}

// Where the value of a short node ends that begins here, behind a value: a `;`, one upper-case letter
// as identifier, and one value without a backslash. Most nodes of games are such.
pub(crate) fn short_node(text: &[u8], at: usize, end: usize, place: Place) -> Option<usize>
    requires start { at ≤ end }
    requires within { end ≤ length text.now }
    ensures { IfSome result (IsShortNode text.now at end place) }
{
    let Place::Within(Phase::AfterValue(_)) = place else {
        return None;
    };
    let [b';', letter, b'[', ..] = &text[at..end] else {
        return None;
    };
    if !letter.is_ascii_uppercase() {
        return None;
    }
    let to = special_from(text, at + 3, end);
    if to < end && text[to] == b']' {
        Some(to)
    } else {
        None
    }
}

// Whether white space and then a `;` follow.
pub(crate) fn is_node_next(text: &[u8], from: usize) -> bool
    requires { from ≤ length text.now }
    ensures { IsTrue result ↔ IsNodeNext text.now from }
{
    let next = not_white_from(text, from, text.len());
    next < text.len() && text[next] == b';'
}
