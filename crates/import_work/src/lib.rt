//! Files of a folder, and made games, become games of a base.
//!
//! Stands on segment_store, node_position, capture_board, made_games, game_tree, sgf_reader,
//! kb_edges and kb_geometry. In `specs/` are what becomes of a file by its bytes and by the games and
//! nodes that the base has before it, what an import finds in a folder, what becomes of made games,
//! and the segments of both. The layer above uses that [`import_one`] tells what becomes of a file,
//! that [`import_batch`] tells it of files one after another, and that an [`Import`] gives the
//! segments of all files under a path, or of made games.
#![tactic(auto)]

mod batch;
mod files;
mod found;
mod import;
mod judge;
mod laws;
mod listing;
mod made;
mod making;
mod merging;
mod one_file;
mod outcome;
mod pieces;
mod read;
mod report;
mod source;

pub use batch::{Batch, FileLine, FileLines, import_batch};
pub use import::Import;
pub use laws::{
    a_file_has_one_outcome, a_file_that_is_turned_away_adds_nothing, an_import_adds_up,
    an_import_finds_one_thing, an_import_gives_what_it_finds, an_import_has_one_list_of_names,
    an_import_loses_by_faults_alone, made_games_are_added_in_order, made_games_give_all,
};
pub use one_file::import_one;
pub use outcome::{Counts, FileOutcome, MAX_BASE_NODES};
pub use report::{Report, ReportBody};
pub use source::Source;
