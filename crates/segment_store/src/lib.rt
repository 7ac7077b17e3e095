//! Finished games, and segments of them that the versions of a base share.
//!
//! Stands on game_tree, capture_board and node_position for a game and its changes, on final_index,
//! capture_index and corner_index for what searches ask of a game, on info_filter and
//! dyer_signature for its day and its canonical signature, and on version_publisher, whose
//! [`Part`](version_publisher::Part) a [`Segment`] is. Contracts see a segment, and a builder, as
//! its list of games. The layers above use that a segment's games are those that were added, in
//! order, that [`merge`] gives the games of the one and then those of the other, that what is kept
//! beside a tree is the tree's, that the planes of a block are those of its games, and that
//! [`Segment::with_corner`] tells exactly the games in which a corner had a number. [`games`] gives
//! all games of a version, for crates that go over them.
#![tactic(auto)]

mod block;
mod block_list;
mod block_order;
mod block_planes;
mod builder;
mod finished;
mod game_corners;
mod indexes;
mod laws;
mod segment;
mod version_games;

pub use block::{Block, NumberedBlock};
pub use builder::SegmentBuilder;
pub use finished::FinishedGame;
pub use laws::a_base_has_at_most_400_000_games;
pub use segment::{MAX_BASE_GAMES, Segment, merge};
pub use version_games::games;
