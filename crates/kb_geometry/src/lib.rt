//! The geometry of a Go board: shapes, points, stones, the changes of a position, and the
//! symmetries. Beside it what all layers share: lists and texts that contracts see, the answer
//! where memory is short, bytes that are appended to a vector, and what is made in pieces, joined.
//!
//! Stands on the library itoa, which writes digits. In `specs/` are the definitions of the capture
//! rule: position, neighbour, group, liberty and the position after a move, and the table of the
//! symmetries. The layers above use that `Shape::number` and `Shape::point` are inverse, that
//! `apply` is that table and `inverse` undoes it, and cite those definitions.
#![tactic(auto)]

mod appending;
mod items;
mod joining;
mod laws;
mod memory;
mod shape;
mod stone;
mod symmetry;
mod symmetry_maps;
mod text;

pub use appending::{append, append_decimal, append_decimal_and, cut_back};
pub use items::Items;
pub use joining::joined;
pub use laws::{a_setup_sets_its_rectangle_alone, the_greatest_board_is_52_by_52};
pub use memory::NoMemory;
pub use shape::{MAX_POINTS, MAX_SIDE, Point, Rect, Shape};
pub use stone::{Cell, Change, Colour, Outcome};
pub use symmetry::{LABELS, Label, Symmetry};
pub use symmetry_maps::{apply, apply_rect, apply_within, inverse, turned};
pub use text::Text;
