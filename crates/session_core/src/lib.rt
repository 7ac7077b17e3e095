//! The session: the answer of one statement over the games of a version, the boxes that tally the
//! hits of its searches, and the searches that are watched; the lawful outputs of a script, and the
//! printed report of an import.
//!
//! Stands on search_engine for the hits, on standing_query for the watched searches, on
//! hit_collectors for the boxes, on segment_store and version_publisher for the games of a version, on
//! opening_tree for openings, on info_filter and dyer_signature for players and signatures, on
//! import_work and kb_edges for what an import finds, and on query_script and sgf_writer for the texts.
//! The layer above uses that what [`Session::answer`] appends is exactly the statement's text, and that
//! each box is given each hit of each search. In `specs/Lawful.antt` are the lawful outputs, which runs
//! promise to write.
#![tactic(auto)]

mod boxes;
mod doubles;
mod forms;
mod import_report;
mod import_statement;
mod laws;
mod lists;
mod openings;
mod session;
mod watch;
mod watches;

pub use import_report::print_report;
pub use import_statement::{print_import_line, source_of};
pub use laws::{
    a_begun_text_is_a_prefix_of_a_lawful_output, a_serial_output_is_lawful_beside_imports,
    a_serial_run_without_a_loss_has_one_output, a_statement_has_one_answer,
    each_script_has_a_lawful_output,
};
pub use session::Session;
pub use watches::NewHits;
