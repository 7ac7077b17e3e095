//! Signatures of games, after Dyer: where moves 20, 40, 60, 31, 51 and 71 of a game were played.
//!
//! Stands on kb_geometry and game_tree. In `specs/` are the definitions for the signature of a
//! tree, for the images of a signature under the symmetries of its board and the least of them, and
//! for signature patterns. The layers above use that [`canonical`] gives the least image, by which
//! copies of a game are found however they are turned.
#![tactic(auto)]

mod bytes;
mod images;
mod laws;
mod main_line;
mod matching;
mod places;

pub use bytes::{SigPattern, Signature};
pub use images::canonical;
pub use laws::{
    a_signature_has_one_canonical_form, a_signature_matches_a_pattern_or_not,
    a_tree_has_one_signature, an_image_has_the_images_of_its_signature,
    an_image_matches_where_its_signature_does, images_alone_have_one_canonical_form,
};
pub use main_line::signature;
pub use matching::matches;
