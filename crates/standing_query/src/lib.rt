//! Standing queries: the hits of a watched search, which are kept up as games come in.
//!
//! Stands on segment_store for the games and on pattern_images for the hits. What lists the hits in
//! games is handed in: any [`Finder`]. The layers above use that after [`Standing::advance`] the
//! hits are those in all games of the version, and that it tells which of them are new.
#![tactic(auto)]

mod finder;
mod laws;
mod new_hits;
mod standing;

pub use finder::Finder;
pub use laws::nothing_is_found_in_no_games;
pub use standing::Standing;
