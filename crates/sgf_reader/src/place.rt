// Where a reader stands in a text.
use crate::Span;

// Outside trees; behind a `(` and white space, where a tree may begin; or inside a tree.
#[derive(Clone, Copy)]
pub(crate) enum Place {
    Outside,
    // The offset of the `(`.
    Before(u32),
    Within(Phase),
}

// What a reader inside a tree is at. Offsets are those of the first byte.
#[derive(Clone, Copy)]
pub(crate) enum Phase {
    // Behind this `(` and white space: a node must follow.
    Opened(u32),
    // Behind a `;` and white space.
    InNode,
    // In an identifier, with an upper-case letter so far or without.
    InName { from: u32, has_upper: bool },
    // Behind an identifier and white space: a value must follow.
    AfterName(Span),
    // In a value.
    InValue { name: Span, from: u32 },
    // In a value, behind a backslash.
    Escaped { name: Span, from: u32 },
    // Behind a value and white space.
    AfterValue(Span),
    // Behind a `)` and white space.
    AfterTree,
}
